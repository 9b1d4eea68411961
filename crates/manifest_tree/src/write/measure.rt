// How long a text is, counted before it is written.
ghost use Rattle.std.specs.Prelude.{◌≡◌, ◌+◌, ◌∷◌, length};
ghost use Rattle.manifest_tree.specs.Tree.{tree_of};
ghost use Rattle.manifest_tree.specs.WrittenText.{escaped, attribute_text, attributes_text, start_text, end_text, element_text, counted};

use super::escape::count_escaped;
use super::node::is_bare;
use crate::node::{Attribute, Node};
use small_types::Text;

// Each function adds to a count the length of what it is given, as that is written. A sum that is no `u64` is the
// greatest one.

fn count_bytes(total: u64, bytes: &[u8]) -> u64
    ensures { result ≡ counted (total + length bytes.now) }
{
    total.saturating_add(bytes.len() as u64)
}

fn count_attribute(total: u64, attribute: &Attribute) -> u64
    ensures { result ≡ counted (total + length (attribute_text attribute.now)) }
{
    let marks = total.saturating_add(4);
    let named = count_bytes(marks, attribute.name.as_bytes());
    count_escaped(named, attribute.value.as_bytes())
}

fn count_attributes(total: u64, attributes: &[Attribute]) -> u64
    ensures { result ≡ counted (total + length (attributes_text attributes.now)) }
{
    let mut count = total;
    for attribute in attributes {
        count = count_attribute(count, attribute);
    }
    count
}

fn count_start(total: u64, name: &Text, attributes: &[Attribute]) -> u64
    ensures { result ≡ counted (total + length (start_text name.now attributes.now)) }
{
    let mark = total.saturating_add(1);
    let named = count_bytes(mark, name.as_bytes());
    count_attributes(named, attributes)
}

fn count_text(total: u64, text: &Text) -> u64
    ensures { result ≡ counted (total + length (62 ∷ escaped text.now)) }
{
    count_escaped(total.saturating_add(1), text.as_bytes())
}

fn count_end(total: u64, name: &Text) -> u64
    ensures { result ≡ counted (total + length (end_text name.now)) }
{
    count_bytes(total.saturating_add(3), name.as_bytes())
}

// An element with all that it holds.
pub(super) fn count_element(total: u64, node: &Node) -> u64
    ensures { result ≡ counted (total + length (element_text (tree_of node.now))) }
{
    let start = count_start(total, &node.name, node.attributes.as_slice());
    if is_bare(node.children.as_slice(), &node.text) {
        return start.saturating_add(2);
    }
    let mut count = count_text(start, &node.text);
    for child in &node.children {
        count = count_element(count, child);
    }
    count_end(count, &node.name)
}
