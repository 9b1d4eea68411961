// Elements and attributes.
ghost use Rattle.std.specs.Prelude.{◌≡◌, [], ◌∷◌, ◌++◌, map, IfOk, OnOk};
ghost use Rattle.manifest_tree.specs.Tree.{tree_of, tree, none};
ghost use Rattle.manifest_writer.specs.Elements.{named, pair_named, element as element_tree, root_tree};

use crate::fault::NoMemory;
use manifest_tree::{Attribute, Node};
use small_types::{List, Text};
use std::alloc::Global;

// A text of these characters.
pub(crate) fn text(alloc: Global, held: &str) -> Result<Text, NoMemory>
    ensures { IfOk result (λ made. made ≡ held.now) }
{
    Ok(Text::from_string(String::from_str(alloc, held)?))
}

// An attribute.
fn attribute(alloc: Global, name: &str, value: &str) -> Result<Attribute, NoMemory>
    ensures { IfOk result (λ made. made ≡ named name.now value.now) }
{
    Ok(Attribute {
        name: text(alloc, name)?,
        value: text(alloc, value)?,
    })
}

// The attributes of these names and values.
pub(crate) fn attributes(alloc: Global, pairs: &[(&str, &str)]) -> Result<Vec<Attribute>, NoMemory>
    ensures { IfOk result (λ made. made.items ≡ map pair_named pairs.now) }
{
    let mut made = Vec::with_capacity(alloc, pairs.len())?;
    for pair in pairs {
        made.push(attribute(alloc, pair.0, pair.1)?)?;
    }
    Ok(made)
}

// Adds an attribute.
pub(crate) fn add_attribute(
    alloc: Global,
    made: &mut Vec<Attribute>,
    name: &str,
    value: &str,
) -> Result<(), NoMemory>
    ensures { OnOk result (made.new.items ≡ made.old.items ++ named name.now value.now ∷ []) }
{
    made.push(attribute(alloc, name, value)?)?;
    Ok(())
}

// Adds a child.
#[tactic(auto, using(crate::proofs::Children::pushed))]
pub(crate) fn add_child(children: &mut Vec<Node>, child: Node) -> Result<(), NoMemory>
    ensures { OnOk result
        (map tree_of children.new.items ≡ map tree_of children.old.items ++ tree_of child ∷ []) }
{
    children.push(child)?;
    Ok(())
}

// An element without text.
pub(crate) fn element(
    alloc: Global,
    name: &str,
    attributes: Vec<Attribute>,
    children: Vec<Node>,
) -> Result<Node, NoMemory>
    ensures { IfOk result
        (λ made. tree_of made
        ≡ element_tree name.now attributes.items (map tree_of children.items)) }
{
    Ok(Node {
        name: text(alloc, name)?,
        attributes: List::from_vec(attributes),
        children,
        text: text(alloc, "")?,
    })
}

// An element with text alone.
pub(crate) fn element_of_text(alloc: Global, name: &str, held: Text) -> Result<Node, NoMemory>
    ensures { IfOk result (λ made. tree_of made ≡ tree name.now [] none held) }
{
    Ok(Node {
        name: text(alloc, name)?,
        attributes: List::from_vec(Vec::new(alloc)),
        children: Vec::new(alloc),
        text: held,
    })
}

// An element with one child alone.
pub(crate) fn element_around(alloc: Global, name: &str, child: Node) -> Result<Node, NoMemory>
    ensures { IfOk result (λ made. tree_of made ≡ element_tree name.now [] (tree_of child ∷ [])) }
{
    let mut children = Vec::new(alloc);
    children.push(child)?;
    element(alloc, name, Vec::new(alloc), children)
}

// The root of a manifest.
#[tactic(auto, unfolding(crate::specs::Elements::root_tree))]
pub(crate) fn root(alloc: Global, children: Vec<Node>) -> Result<Node, NoMemory>
    ensures { IfOk result (λ made. tree_of made ≡ root_tree (map tree_of children.items)) }
{
    let named = attributes(
        alloc,
        &[
            ("manifestVersion", "1.0"),
            ("xmlns:asmv1", "urn:schemas-microsoft-com:asm.v1"),
            ("xmlns", "urn:schemas-microsoft-com:asm.v2"),
            ("xmlns:asmv2", "urn:schemas-microsoft-com:asm.v2"),
            ("xmlns:dsig", "http://www.w3.org/2000/09/xmldsig#"),
        ],
    )?;
    element(alloc, "asmv1:assembly", named, children)
}
