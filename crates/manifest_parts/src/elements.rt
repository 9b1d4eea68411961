// Elements and attributes, found by their local names.
ghost use Rattle.std.specs.Prelude.{◌≡◌, map};
ghost use Rattle.manifest_tree.specs.Tree.{tree_of};
ghost use Rattle.manifest_parts.specs.Elements.{local, declares, is_attribute as is_wanted, attribute as attribute_of, called, children_of, first_called, once as once_in, has_called};
ghost use Rattle.manifest_parts.specs.Outcome.{Gives, maybe_text, maybe_tree, tree_at};

use crate::fault::ManifestFault;
use crate::refusals::{missing, twice};
use manifest_tree::{Attribute, Node};
use small_types::Text;
use std::alloc::Global;

// What follows the last `:` of a name, or all of it.
#[tactic(auto, unfolding(crate::specs::Elements::local))]
fn local_name(name: &[u8]) -> &[u8]
    ensures { result.now ≡ local name.now }
{
    let mut found = name;
    let mut rest = name;
    while let Some((first, tail)) = rest.split_first() {
        if *first == b':' {
            found = tail;
        }
        rest = tail;
    }
    found
}

// Whether an attribute of the name declares a namespace.
#[tactic(auto, unfolding(crate::specs::Elements::declares))]
fn declares_namespace(name: &[u8]) -> bool
    ensures { result ≡ declares name.now }
{
    name == b"xmlns".as_slice() || name.starts_with(b"xmlns:")
}

// Whether the attribute has the local name, and declares no namespace.
fn is_attribute(attribute: &Attribute, wanted: &str) -> bool
    ensures { result ≡ is_wanted wanted.now attribute.now }
{
    let name = attribute.name.as_bytes();
    !declares_namespace(name) && local_name(name) == wanted.as_bytes()
}

/// The value of the element's first attribute with the local name, which is what follows the last `:` of its name. An
/// attribute that declares a namespace is never found.
pub fn attribute<'a>(node: &'a Node, wanted: &str) -> Option<&'a Text>
    ensures { maybe_text result ≡ attribute_of wanted.now (tree_of node.now) }
{
    for attribute in node.attributes.as_slice() {
        if is_attribute(attribute, wanted) {
            return Some(&attribute.value);
        }
    }
    None
}

/// The child elements, in order.
pub fn children(node: &Node) -> &[Node]
    ensures { map tree_of result.now ≡ children_of (tree_of node.now) }
{
    node.children.as_slice()
}

/// Whether the element has the local name.
pub fn is_called(node: &Node, wanted: &str) -> bool
    ensures { result ≡ called wanted.now (tree_of node.now) }
{
    local_name(node.name.as_bytes()) == wanted.as_bytes()
}

/// The first child element with the local name.
pub fn first_child<'a>(node: &'a Node, wanted: &str) -> Option<&'a Node>
    ensures { maybe_tree result ≡ first_called wanted.now (tree_of node.now) }
{
    let nodes = children(node);
    for child in nodes {
        if is_called(child, wanted) {
            return Some(child);
        }
    }
    None
}

/// The one child element with the local name. `Missing` where there is none, `Twice` where there is a second.
pub fn once<'a>(alloc: Global, node: &'a Node, wanted: &str) -> Result<&'a Node, ManifestFault>
    ensures { Gives tree_at result (once_in wanted.now (tree_of node.now)) }
{
    let mut found = None;
    let nodes = children(node);
    for child in nodes {
        if !is_called(child, wanted) {
            continue;
        }
        if found.is_some() {
            return twice(alloc, wanted);
        }
        found = Some(child);
    }
    match found {
        Some(child) => Ok(child),
        None => missing(alloc, wanted),
    }
}

/// Whether an element with the local name stands in the tree, which may be its root.
pub fn has_element(node: &Node, wanted: &str) -> bool
    ensures { result ≡ has_called wanted.now (tree_of node.now) }
{
    if is_called(node, wanted) {
        return true;
    }
    for child in &node.children {
        if has_element(child, wanted) {
            return true;
        }
    }
    false
}
