// Which trees can be written.
ghost use Rattle.std.specs.Prelude.{◌≡◌, ◌&&◌, [], List};
ghost use Rattle.std.specs.List.{list_all};
ghost use Rattle.manifest_tree.specs.declared.node.Node.{out-Node};
ghost use Rattle.manifest_tree.specs.Lexis.{name_byte, is_among as has_among};
ghost use Rattle.manifest_tree.specs.Spots.{names_of};
ghost use Rattle.manifest_tree.specs.Tree.{tree_of};
ghost use Rattle.manifest_tree.specs.WrittenText.{is_name as is_whole_name, is_content as is_all_content, is_attribute as is_new_attribute, are_attributes as are_new_attributes, is_element as is_element_at, is_writable as can_be_written};

use crate::classes::{is_allowed, is_name as is_name_byte};
use crate::node::{Attribute, Node};
use crate::scan::has_name;
use small_types::limits::LEVEL_LIMIT;

// Each byte is one that a name may hold.
fn are_name_bytes(bytes: &[u8]) -> bool
    ensures { result ≡ list_all name_byte bytes.now }
{
    bytes.iter().all(|byte| is_name_byte(*byte))
}

fn is_name(bytes: &[u8]) -> bool
    ensures { result ≡ is_whole_name bytes.now }
{
    has_name(bytes) && are_name_bytes(bytes)
}

// Each byte is one that a text may hold.
fn is_content(bytes: &[u8]) -> bool
    ensures { result ≡ is_all_content bytes.now }
{
    bytes.iter().all(|byte| is_allowed(*byte))
}

// One of the attributes has the name.
fn is_among(attributes: &[Attribute], name: &[u8]) -> bool
    ensures { result ≡ has_among (names_of attributes.now) name.now }
{
    for attribute in attributes {
        if attribute.name.as_bytes() == name {
            return true;
        }
    }
    false
}

// A name and a value of the grammar, none of those before having the name.
fn is_attribute(before: &[Attribute], attribute: &Attribute) -> bool
    ensures { result ≡ is_new_attribute (names_of before.now) attribute.now }
{
    is_name(attribute.name.as_bytes())
        && is_content(attribute.value.as_bytes())
        && !is_among(before, attribute.name.as_bytes())
}

fn are_attributes(attributes: &[Attribute]) -> bool
    ensures { result ≡ are_new_attributes [] attributes.now }
{
    for (index, attribute) in attributes.iter().enumerate() {
        if !is_attribute(&attributes[..index], attribute) {
            return false;
        }
    }
    true
}

// The node's own name, attributes and text.
fn is_own_part(node: &Node) -> bool
    ensures { let n = out-Node node.now in
        result ≡ (is_whole_name n.name &&
        (are_new_attributes [] n.attributes && is_all_content n.text)) }
{
    is_name(node.name.as_bytes())
        && are_attributes(node.attributes.as_slice())
        && is_content(node.text.as_bytes())
}

fn is_element(node: &Node, level: usize) -> bool
    ensures { result ≡ is_element_at level (tree_of node.now) }
{
    if level > LEVEL_LIMIT || !is_own_part(node) {
        return false;
    }
    for child in &node.children {
        if !is_element(child, level + 1) {
            return false;
        }
    }
    true
}

/// Whether `write_tree` takes the tree: its names are names of the grammar, its values and texts have no byte below 32
/// but tab, line feed and carriage return, it has at most 64 levels, and no element has two attributes of one name.
pub fn is_writable(node: &Node) -> bool
    ensures { result ≡ can_be_written (tree_of node.now) }
{
    is_element(node, 1)
}
