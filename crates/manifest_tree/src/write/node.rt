// Elements as they are written.
ghost use Rattle.std.specs.Prelude.{◌≡◌, ◌++◌, ◌∷◌, [], map, OnOk};
ghost use Rattle.std.specs.Str.{IsUtf8};
ghost use Rattle.manifest_tree.specs.Tree.{trees, tree_of};
ghost use Rattle.manifest_tree.specs.WrittenText.{attribute_text, attributes_text, escaped, start_text, end_text, is_bare as has_no_content, element_text};

use super::escape::push_escaped;
use crate::node::{Attribute, Node};
use small_types::{Bytes, Text};
use std::alloc::AllocError;

// An element has neither children nor text.
pub(super) fn is_bare(children: &[Node], text: &Text) -> bool
    ensures { result ≡ has_no_content (trees (map tree_of children.now)) text.now }
{
    children.is_empty() && text.as_bytes().is_empty()
}

fn push_attribute(out: &mut Bytes, attribute: &Attribute) -> Result<(), AllocError>
    ensures text { OnOk result (out.new ≡ out.old ++ attribute_text attribute.now) }
    ensures utf8 { OnOk result (IsUtf8 (attribute_text attribute.now)) }
{
    out.extend(b" ")?;
    out.extend(attribute.name.as_bytes())?;
    out.extend(b"=\"")?;
    push_escaped(out, attribute.value.as_bytes())?;
    out.extend(b"\"")
}

fn push_attributes(out: &mut Bytes, attributes: &[Attribute]) -> Result<(), AllocError>
    ensures text { OnOk result (out.new ≡ out.old ++ attributes_text attributes.now) }
    ensures utf8 { OnOk result (IsUtf8 (attributes_text attributes.now)) }
{
    for attribute in attributes {
        push_attribute(out, attribute)?;
    }
    Ok(())
}

// `<`, the name and the attributes.
fn push_start(out: &mut Bytes, name: &Text, attributes: &[Attribute]) -> Result<(), AllocError>
    ensures text { OnOk result (out.new ≡ out.old ++ start_text name.now attributes.now) }
    ensures utf8 { OnOk result (IsUtf8 (start_text name.now attributes.now)) }
{
    out.extend(b"<")?;
    out.extend(name.as_bytes())?;
    push_attributes(out, attributes)
}

fn push_text(out: &mut Bytes, text: &Text) -> Result<(), AllocError>
    ensures text { OnOk result (out.new ≡ out.old ++ 62 ∷ escaped text.now) }
    ensures utf8 { OnOk result (IsUtf8 (62 ∷ escaped text.now)) }
{
    out.extend(b">")?;
    push_escaped(out, text.as_bytes())
}

fn push_end(out: &mut Bytes, name: &Text) -> Result<(), AllocError>
    ensures text { OnOk result (out.new ≡ out.old ++ end_text name.now) }
    ensures utf8 { OnOk result (IsUtf8 (end_text name.now)) }
{
    out.extend(b"</")?;
    out.extend(name.as_bytes())?;
    out.extend(b">")
}

// Adds an element with all that it holds.
pub(super) fn push_element(out: &mut Bytes, node: &Node) -> Result<(), AllocError>
    ensures text { OnOk result (out.new ≡ out.old ++ element_text (tree_of node.now)) }
    ensures utf8 { OnOk result (IsUtf8 (element_text (tree_of node.now))) }
{
    push_start(out, &node.name, node.attributes.as_slice())?;
    if is_bare(node.children.as_slice(), &node.text) {
        return out.extend(b"/>");
    }
    push_text(out, &node.text)?;
    for child in &node.children {
        push_element(out, child)?;
    }
    push_end(out, &node.name)
}
