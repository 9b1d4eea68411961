// The identities that elements say.
ghost use Rattle.manifest_tree.specs.Tree.{tree_of};
ghost use Rattle.manifest_parts.specs.Parts.{named, versioned, short_of, key_of as key_read, identity_of as identity_read, identity_in as identity_inside};
ghost use Rattle.manifest_parts.specs.Outcome.{Gives};

use crate::elements::{attribute, once};
use crate::fault::ManifestFault;
use crate::values::{defaulted, filled, needed, version};
use identity::{Identity, Key, Version};
use manifest_tree::Node;
use small_types::Text;
use small_types::limits::{IDENTITY_PART_LIMIT, NAME_LIMIT};
use std::alloc::Global;

// The name of an identity.
#[tactic(auto, unfolding(crate::specs::Parts::named))]
fn name_in(alloc: Global, node: &Node) -> Result<Text, ManifestFault>
    ensures { Gives (λ t. t) result (named (tree_of node.now)) }
{
    let name = needed(alloc, "name", attribute(node, "name"))?;
    filled(alloc, NAME_LIMIT, "name", name)
}

// Its version.
#[tactic(auto, unfolding(crate::specs::Parts::versioned))]
fn version_in(alloc: Global, node: &Node) -> Result<Version, ManifestFault>
    ensures { Gives (λ v. v) result (versioned (tree_of node.now)) }
{
    let text = needed(alloc, "version", attribute(node, "version"))?;
    version(alloc, "version", text)
}

// Another attribute of it, or the default.
#[tactic(auto, unfolding(crate::specs::Parts::short_of))]
fn short_in(alloc: Global, node: &Node, what: &str, default: &str) -> Result<Text, ManifestFault>
    ensures { Gives (λ t. t) result (short_of what.now default.now (tree_of node.now)) }
{
    defaulted(
        alloc,
        IDENTITY_PART_LIMIT,
        what,
        default,
        attribute(node, what),
    )
}

// The key of the name.
#[tactic(auto, unfolding(crate::specs::Parts::key_of))]
fn key_of(alloc: Global, name: Text, node: &Node) -> Result<Key, ManifestFault>
    ensures { Gives (λ k. k) result (key_read name (tree_of node.now)) }
{
    let token = short_in(alloc, node, "publicKeyToken", "0000000000000000")?;
    let language = short_in(alloc, node, "language", "neutral")?;
    let architecture = short_in(alloc, node, "processorArchitecture", "msil")?;
    Ok(Key {
        name,
        token,
        language,
        architecture,
    })
}

// What the element `assemblyIdentity` says.
#[tactic(auto, unfolding(crate::specs::Parts::identity_of))]
fn identity_of(alloc: Global, node: &Node) -> Result<Identity, ManifestFault>
    ensures { Gives (λ i. i) result (identity_read (tree_of node.now)) }
{
    let name = name_in(alloc, node)?;
    let version = version_in(alloc, node)?;
    let key = key_of(alloc, name, node)?;
    let kind = short_in(alloc, node, "type", "")?;
    Ok(Identity { key, version, kind })
}

/// The identity that the element's one `assemblyIdentity` says. `Missing` and `Twice` name that element; `Missing` and
/// `BadValue` name its first attribute, in this order, that is missing or out of its form: `name` (1 to 240 bytes),
/// `version`, and at most 64 bytes each of `publicKeyToken`, `language`, `processorArchitecture` and `type`. The last
/// four may be absent.
#[tactic(auto, unfolding(crate::specs::Parts::identity_in))]
pub fn identity_in(alloc: Global, node: &Node) -> Result<Identity, ManifestFault>
    ensures { Gives (λ i. i) result (identity_inside (tree_of node.now)) }
{
    let element = once(alloc, node, "assemblyIdentity")?;
    identity_of(alloc, element)
}
