// The root of a manifest.
ghost use Rattle.std.specs.Prelude.{◌≡◌, IfOk, IfErr, Ok};
ghost use Rattle.manifest_tree.specs.Grammar.{Spells, SpellsTree};
ghost use Rattle.manifest_tree.specs.Tree.{Tree, tree_of};
ghost use Rattle.manifest_parts.specs.Parts.{root_of, RefusesBytes};
ghost use Rattle.manifest_parts.specs.Outcome.{Gives};

use crate::elements::{has_element, is_called};
use crate::fault::ManifestFault;
use crate::refusals::missing;
use manifest_tree::{Node, TreeError, read_tree};
use std::alloc::Global;

// The tree that the bytes spell.
fn tree_in(alloc: Global, bytes: &[u8]) -> Result<Node, ManifestFault>
    ensures spelled { IfOk result (λ node. Spells bytes.now node) }
    ensures refused { IfErr result (λ e. RefusesBytes {A = Tree} Ok bytes.now e) }
    ensures only { (t : Tree) → SpellsTree bytes.now t → Gives tree_of result (Ok t) }
{
    match read_tree(alloc, bytes) {
        Ok(root) => Ok(root),
        Err(TreeError::Refused { fault }) => Err(ManifestFault::Tree(fault)),
        Err(TreeError::Memory) => Err(ManifestFault::Memory),
    }
}

// The root, where it is that of a manifest.
#[tactic(auto, unfolding(crate::specs::Parts::root_of))]
fn manifest_root(alloc: Global, root: Node) -> Result<Node, ManifestFault>
    ensures { Gives tree_of result (root_of (tree_of root)) }
{
    if has_element(&root, "Signature") {
        return Err(ManifestFault::Signed);
    }
    if !is_called(&root, "assembly") {
        return missing(alloc, "assembly");
    }
    Ok(root)
}

/// The root of the manifest that the bytes spell. `Tree` exactly where they spell no tree; else
/// `Signed` where an element `Signature` stands anywhere in it, and else `Missing` where the root
/// is no `assembly`.
pub fn read_root(alloc: Global, bytes: &[u8]) -> Result<Node, ManifestFault>
    // What is answered is spelled.
    ensures spelled { IfOk result (λ node. Spells bytes.now node) }
    // It is the root of a manifest.
    ensures root { IfOk result (λ node. root_of (tree_of node) ≡ Ok (tree_of node)) }
    // A refusal is that of the text, or of the tree that is spelled.
    ensures refused { IfErr result (λ e. RefusesBytes root_of bytes.now e) }
    // The root of a tree that is spelled is answered, unless memory runs out.
    ensures only { (t : Tree) → SpellsTree bytes.now t → Gives tree_of result (root_of t) }
{
    match tree_in(alloc, bytes) {
        Ok(root) => manifest_root(alloc, root),
        Err(fault) => Err(fault),
    }
}
