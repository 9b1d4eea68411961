// The elements of digests.
ghost use Rattle.std.specs.Prelude.{◌≡◌, ◌++◌, map, IfOk, OnOk};
ghost use Rattle.manifest_tree.specs.Tree.{tree_of};
ghost use Rattle.manifest_writer.specs.Elements.{transforms_tree, method_tree, hash_tree, hash_trees};

use crate::elements::{add_child, attributes, element, element_around, element_of_text};
use crate::fault::NoMemory;
use digest_list::Digest;
use manifest_tree::Node;
use std::alloc::Global;

// The transform that leaves the bytes as they are.
fn transforms_node(alloc: Global) -> Result<Node, NoMemory>
    ensures { IfOk result (λ made. tree_of made ≡ transforms_tree) }
{
    let named = attributes(
        alloc,
        &[(
            "Algorithm",
            "urn:schemas-microsoft-com:HashTransforms.Identity",
        )],
    )?;
    let transform = element(alloc, "dsig:Transform", named, Vec::new(alloc))?;
    element_around(alloc, "dsig:Transforms", transform)
}

// The algorithm of a digest.
fn method_node(alloc: Global, digest: &Digest) -> Result<Node, NoMemory>
    ensures { IfOk result (λ made. tree_of made ≡ method_tree digest.now) }
{
    let named = attributes(alloc, &[("Algorithm", digest.algorithm.uri())])?;
    element(alloc, "dsig:DigestMethod", named, Vec::new(alloc))
}

// The element of a digest.
#[tactic(auto, unfolding(crate::specs::Elements::hash_tree))]
fn hash_node(alloc: Global, digest: &Digest) -> Result<Node, NoMemory>
    ensures { IfOk result (λ made. tree_of made ≡ hash_tree digest.now) }
{
    let mut children = Vec::with_capacity(alloc, 3)?;
    add_child(&mut children, transforms_node(alloc)?)?;
    add_child(&mut children, method_node(alloc, digest)?)?;
    let value = digest.to_base64(alloc)?;
    add_child(
        &mut children,
        element_of_text(alloc, "dsig:DigestValue", value)?,
    )?;
    element(alloc, "hash", Vec::new(alloc), children)
}

// Adds the elements of digests.
pub(crate) fn add_hashes(
    alloc: Global,
    children: &mut Vec<Node>,
    digests: &[Digest],
) -> Result<(), NoMemory>
    ensures { OnOk result
        (map tree_of children.new.items
        ≡ map tree_of children.old.items ++ hash_trees digests.now) }
{
    for digest in digests {
        add_child(children, hash_node(alloc, digest)?)?;
    }
    Ok(())
}
