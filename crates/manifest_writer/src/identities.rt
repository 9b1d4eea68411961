// The element of an identity.
ghost use Rattle.std.specs.Prelude.{◌≡◌, IfOk, OnOk};
ghost use Rattle.manifest_tree.specs.Tree.{tree_of};
ghost use Rattle.manifest_writer.specs.Elements.{identity_tree, key_attributes, identity_attributes};

use crate::elements::{add_attribute, attributes, element};
use crate::fault::NoMemory;
use identity::{Identity, Key};
use manifest_tree::{Attribute, Node};
use std::alloc::Global;

// The attributes of a key, and of a version of this text.
fn key_attributes(alloc: Global, key: &Key, version: &str) -> Result<Vec<Attribute>, NoMemory>
    ensures { IfOk result (λ made. made.items ≡ key_attributes key.now version.now) }
{
    attributes(
        alloc,
        &[
            ("name", key.name.as_str()),
            ("version", version),
            ("publicKeyToken", key.token.as_str()),
            ("language", key.language.as_str()),
            ("processorArchitecture", key.architecture.as_str()),
        ],
    )
}

// The attributes of an identity.
fn identity_attributes(alloc: Global, identity: &Identity) -> Result<Vec<Attribute>, NoMemory>
    ensures { IfOk result (λ made. made.items ≡ identity_attributes identity.now) }
{
    let version = identity.version.print(alloc)?;
    let mut made = key_attributes(alloc, &identity.key, version.as_str())?;
    if !identity.kind.as_str().is_empty() {
        add_attribute(alloc, &mut made, "type", identity.kind.as_str())?;
    }
    Ok(made)
}

// The element of that name for an identity.
#[tactic(auto, unfolding(crate::specs::Elements::identity_tree))]
pub(crate) fn identity_node(
    alloc: Global,
    name: &str,
    identity: &Identity,
) -> Result<Node, NoMemory>
    ensures { IfOk result (λ made. tree_of made ≡ identity_tree name.now identity.now) }
{
    let named = identity_attributes(alloc, identity)?;
    element(alloc, name, named, Vec::new(alloc))
}
