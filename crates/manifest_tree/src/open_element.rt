// Elements whose end tag has not come.
ghost use Rattle.std.specs.Prelude.{◌≡◌, [], List, ◌++◌, map, Ok};
ghost use Rattle.manifest_tree.specs.Spots.{finished, with_child as child_added, with_text as text_added, opened as begun, placed};
ghost use Rattle.manifest_tree.specs.Outcome.{Gives, GivesText};
ghost use Rattle.manifest_tree.specs.Tree.{tree_of};
ghost use Rattle.manifest_tree.specs.Pieces.{open_tree, below_of, around_of, spot_of, tag_spot};

use crate::fault::Stop;
use crate::node::{Attribute, Node};
use crate::tag::Tag;
use crate::units::into_text;
use small_types::{List, Text};
use std::alloc::Global;

#[derive(Drop)]
pub(crate) struct OpenElement {
    pub(crate) name: Text,
    pub(crate) attributes: Vec<Attribute>,
    pub(crate) children: Vec<Node>,
    pub(crate) text: Vec<u8>,
}

// The open elements: the innermost, and those around it from the root on.
#[derive(Drop)]
pub(crate) struct Stack {
    pub(crate) top: OpenElement,
    pub(crate) below: Vec<OpenElement>,
}

// Where reading stands: inside an element, or behind the root.
#[derive(Drop)]
pub(crate) enum Position {
    Inside(Stack),
    Behind(Node),
}

fn open(alloc: Global, name: Text, attributes: Vec<Attribute>) -> OpenElement
    ensures opened { open_tree result ≡ begun name attributes.items }
    ensures text { result.text.items ≡ [] }
{
    OpenElement {
        name,
        attributes,
        children: Vec::new(alloc),
        text: Vec::new(alloc),
    }
}

fn finish(opened: OpenElement) -> Result<Node, Stop>
    ensures { GivesText opened.text.items tree_of result (Ok (finished (open_tree opened))) }
{
    let OpenElement {
        name,
        attributes,
        children,
        text,
    } = opened;
    let text = into_text(text)?;
    let attributes = List::from_vec(attributes);
    Ok(Node {
        name,
        attributes,
        children,
        text,
    })
}

fn with_child(opened: OpenElement, child: Node) -> Result<OpenElement, Stop>
    ensures { Gives open_tree result (Ok (child_added (open_tree opened) (tree_of child))) }
{
    let OpenElement {
        name,
        attributes,
        mut children,
        text,
    } = opened;
    children.push(child)?;
    Ok(OpenElement {
        name,
        attributes,
        children,
        text,
    })
}

// The bytes and a run behind them; a first run is not copied.
fn extended(mut text: Vec<u8>, run: Vec<u8>) -> Result<Vec<u8>, Stop>
    ensures { Gives (λ t. t.items) result (Ok (text.items ++ run.items)) }
{
    if text.is_empty() {
        return Ok(run);
    }
    text.extend_from_slice(run.as_slice())?;
    Ok(text)
}

fn with_text(opened: OpenElement, run: Vec<u8>) -> Result<OpenElement, Stop>
    ensures { Gives open_tree result (Ok (text_added (open_tree opened) run.items)) }
{
    let OpenElement {
        name,
        attributes,
        children,
        text,
    } = opened;
    let text = extended(text, run)?;
    Ok(OpenElement {
        name,
        attributes,
        children,
        text,
    })
}

// The stack with more text in the innermost element.
pub(crate) fn add_text(stack: Stack, run: Vec<u8>) -> Result<Stack, Stop>
    ensures top { Gives (λ s. open_tree s.top) result
        (Ok (text_added (open_tree stack.top) run.items)) }
    ensures below { Gives (λ s. below_of s) result (Ok (below_of stack)) }
{
    let Stack { top, below } = stack;
    let top = with_text(top, run)?;
    Ok(Stack { top, below })
}

// Behind the element, which stood in those around it.
fn place(element: Node, around: Option<Stack>) -> Result<Position, Stop>
    ensures { Gives spot_of result (Ok (placed (tree_of element) (around_of around))) }
{
    match around {
        None => Ok(Position::Behind(element)),
        Some(stack) => {
            let Stack { top, below } = stack;
            let top = with_child(top, element)?;
            Ok(Position::Inside(Stack { top, below }))
        }
    }
}

// The stack with one more element open.
fn push(alloc: Global, around: Option<Stack>, top: OpenElement) -> Result<Stack, Stop>
    ensures top { Gives (λ s. open_tree s.top) result (Ok (open_tree top)) }
    ensures below { Gives (λ s. below_of s) result (Ok (around_of around)) }
{
    match around {
        None => Ok(Stack {
            top,
            below: Vec::new(alloc),
        }),
        Some(stack) => {
            let Stack {
                top: outer,
                mut below,
            } = stack;
            below.push(outer)?;
            Ok(Stack { top, below })
        }
    }
}

// Behind a start tag.
pub(crate) fn start(alloc: Global, around: Option<Stack>, tag: Tag) -> Result<Position, Stop>
    ensures { Gives spot_of result (Ok (tag_spot tag (around_of around))) }
{
    let Tag {
        name,
        attributes,
        closed,
    } = tag;
    let opened = open(alloc, name, attributes);
    if closed {
        let element = finish(opened)?;
        return place(element, around);
    }
    let stack = push(alloc, around, opened)?;
    Ok(Position::Inside(stack))
}

// Behind the end tag of the innermost element.
pub(crate) fn close(stack: Stack) -> Result<Position, Stop>
    ensures { GivesText stack.top.text.items spot_of result
        (Ok (placed (finished (open_tree stack.top)) (below_of stack))) }
{
    let Stack { top, mut below } = stack;
    let element = finish(top)?;
    match below.pop() {
        None => place(element, None),
        Some(outer) => place(element, Some(Stack { top: outer, below })),
    }
}
