// Tests of the writer of manifest texts.
use manifest_tree::{Attribute, Node, WriteFault, is_writable, read_tree, write_tree};
use small_types::{Bytes, List, Text};
use std::alloc::{AllocError, Global};
use std::test::Fail;

fn text(alloc: Global, held: &str) -> Result<Text, AllocError> {
    Ok(Text::from_string(String::from_str(alloc, held)?))
}

fn attribute(alloc: Global, name: &str, value: &str) -> Result<Attribute, AllocError> {
    Ok(Attribute {
        name: text(alloc, name)?,
        value: text(alloc, value)?,
    })
}

// An element without attributes and children.
fn leaf(alloc: Global, name: &str, held: &str) -> Result<Node, AllocError> {
    Ok(Node {
        name: text(alloc, name)?,
        attributes: List::from_vec(Vec::new(alloc)),
        children: Vec::new(alloc),
        text: text(alloc, held)?,
    })
}

// An element with one attribute and one child.
fn branch(
    alloc: Global,
    attribute: Attribute,
    held: &str,
    child: Node,
) -> Result<Node, AllocError> {
    let mut attributes = Vec::new(alloc);
    attributes.push(attribute)?;
    let mut children = Vec::new(alloc);
    children.push(child)?;
    Ok(Node {
        name: text(alloc, "n:b")?,
        attributes: List::from_vec(attributes),
        children,
        text: text(alloc, held)?,
    })
}

// What is written, where the tree can be.
fn write(alloc: Global, node: &Node) -> Option<Result<Bytes, WriteFault>> {
    if is_writable(node) {
        Some(write_tree(alloc, node))
    } else {
        None
    }
}

// The text that is written, or nothing.
fn written(alloc: Global, node: &Node) -> Bytes {
    match write(alloc, node) {
        Some(Ok(text)) => text,
        _ => Bytes::from_vec(Vec::new(alloc)),
    }
}

// Whether the text that is written is this one.
fn is_written(alloc: Global, node: &Node, want: &[u8]) -> bool {
    same(written(alloc, node).as_slice(), want)
}

fn same(a: &[u8], b: &[u8]) -> bool {
    a == b
}

fn form(alloc: Global) -> Result<Node, AllocError> {
    let below = leaf(alloc, "c", "")?;
    branch(alloc, attribute(alloc, "x", "1 & 2")?, "t<", below)
}

// Whether that is the form of an element with an attribute, text and a child, and of one with every reference.
fn are_forms(alloc: Global) -> Result<bool, AllocError> {
    let node = form(alloc)?;
    let is_form = is_written(alloc, &node, FORM);
    drop(node);
    let node = leaf(alloc, "d", "&<>\"\t\n\r'")?;
    let are_references = is_written(alloc, &node, REFERENCES);
    drop(node);
    Ok(is_form && are_references)
}

const FORM: &[u8] =
    b"<?xml version=\"1.0\" encoding=\"utf-8\"?>\n<n:b x=\"1 &amp; 2\">t&lt;<c/></n:b>\n";

const REFERENCES: &[u8] =
    b"<?xml version=\"1.0\" encoding=\"utf-8\"?>\n<d>&amp;&lt;&gt;&quot;&#9;&#10;&#13;'</d>\n";

#[test]
fn the_forms(rt: HostRuntime) -> Result<(), Fail> {
    assert!(rt; are_forms(rt.alloc())?);
    Ok(())
}

// What the text that is written reads as.
fn read(alloc: Global, node: &Node) -> Option<Node> {
    read_tree(alloc, written(alloc, node).as_slice()).ok()
}

// The element has this text, one attribute of this value, and one child of this text.
fn is_branch(node: &Node, held: &str) -> bool {
    let attributes = node.attributes.as_slice();
    node.name.as_str() == "n:b"
        && node.text.as_str() == held
        && attributes.len() == 1
        && attributes.iter().all(|attribute| attribute.name.as_str() == "k"
            && attribute.value.as_str() == held)
        && node.children.len() == 1
        && node.children.iter().all(|child| child.name.as_str() == "c"
            && child.text.as_str() == held)
}

fn is_read_again(alloc: Global, held: &str) -> Result<bool, AllocError> {
    let below = leaf(alloc, "c", held)?;
    let node = branch(alloc, attribute(alloc, "k", held)?, held, below)?;
    let root = read(alloc, &node);
    drop(node);
    match root {
        Some(root) => {
            let is = is_branch(&root, held);
            drop(root);
            Ok(is)
        }
        None => Ok(false),
    }
}

const HELD: &[&str] = &[
    "",
    "plain",
    "&<>\"\t\n\r'",
    "\r\n\n",
    "&amp;",
    "\u{e9}\u{20ac}\u{1f600}",
];

#[test]
fn read_again(rt: HostRuntime) -> Result<(), Fail> {
    for (number, held) in HELD.iter().enumerate() {
        assert!(rt; is_read_again(rt.alloc(), held)?, "{number}");
    }
    Ok(())
}

// An element whose text is so many bytes.
fn long(alloc: Global, count: u32) -> Result<Node, AllocError> {
    let mut held = String::new(alloc);
    for _ in 0..count {
        held.push('x')?;
    }
    leaf(alloc, "a", held.as_str())
}

// How long the text is, where it is told to be too long.
fn told_length(alloc: Global, node: &Node) -> Option<u64> {
    match write(alloc, node) {
        Some(Err(WriteFault::TooLong { length })) => Some(length),
        _ => None,
    }
}

// How long the text is that is written.
fn written_length(alloc: Global, node: &Node) -> usize {
    written(alloc, node).as_slice().len()
}

// Whether a text of so many bytes is written, and has so many, or is told to be too long by so many.
fn is_as_long(
    alloc: Global,
    count: u32,
    length: usize,
    told: Option<u64>,
) -> Result<bool, AllocError> {
    let node = long(alloc, count)?;
    let is = match told {
        None => written_length(alloc, &node) == length,
        _ => told_length(alloc, &node) == told,
    };
    drop(node);
    Ok(is)
}

// 40 bytes stand around the element, and 7 around its text.
#[test]
fn too_long(rt: HostRuntime) -> Result<(), Fail> {
    assert!(rt; is_as_long(rt.alloc(), 4_194_257, 4_194_304, None)?);
    assert!(rt; is_as_long(rt.alloc(), 4_194_258, 0, Some(4_194_305))?);
    Ok(())
}

// Whether an element with this name and text can be written.
fn can_leaf(alloc: Global, name: &str, held: &str) -> Result<bool, AllocError> {
    Ok(is_writable(&leaf(alloc, name, held)?))
}

// The name and the text of an element, and whether it can be written.
const LEAVES: &[(&str, &str, bool)] = &[
    ("a", "", true),
    ("_:.-9\u{e9}", "\t\n\r", true),
    ("", "", false),
    ("9a", "", false),
    ("a b", "", false),
    ("a", "\u{1}", false),
];

#[test]
fn leaves_that_cannot_be_written(rt: HostRuntime) -> Result<(), Fail> {
    for (name, held, expected) in LEAVES {
        assert!(rt; can_leaf(rt.alloc(), name, held)? == *expected, "{name}");
    }
    Ok(())
}

// Whether an element with this attribute and child can be written.
fn can_branch(alloc: Global, name: &str, value: &str, child: &str) -> Result<bool, AllocError> {
    let below = leaf(alloc, child, "")?;
    Ok(is_writable(&branch(alloc, attribute(alloc, name, value)?, "", below)?))
}

// The name and the value of an attribute and the name of a child, and whether their element can be written.
const BRANCHES: &[(&str, &str, &str, bool)] = &[
    ("k", "", "c", true),
    ("", "", "c", false),
    ("k", "\u{b}", "c", false),
    ("k", "", "", false),
];

#[test]
fn branches_that_cannot_be_written(rt: HostRuntime) -> Result<(), Fail> {
    for (name, value, child, expected) in BRANCHES {
        let can = can_branch(rt.alloc(), name, value, child)?;
        assert!(rt; can == *expected, "{name}");
    }
    Ok(())
}

// An element with two attributes.
fn pair(alloc: Global, first: &str, second: &str) -> Result<Node, AllocError> {
    let mut attributes = Vec::new(alloc);
    attributes.push(attribute(alloc, first, "1")?)?;
    attributes.push(attribute(alloc, second, "2")?)?;
    Ok(Node {
        name: text(alloc, "a")?,
        attributes: List::from_vec(attributes),
        children: Vec::new(alloc),
        text: text(alloc, "")?,
    })
}

fn can_pair(alloc: Global, first: &str, second: &str) -> Result<bool, AllocError> {
    Ok(is_writable(&pair(alloc, first, second)?))
}

#[test]
fn two_attributes_of_one_name(rt: HostRuntime) -> Result<(), Fail> {
    assert!(rt; can_pair(rt.alloc(), "k", "l")?);
    assert!(rt; !can_pair(rt.alloc(), "k", "k")?);
    Ok(())
}

// So many elements, each the child of the one before.
fn nested(alloc: Global, levels: u8) -> Result<Node, AllocError> {
    let mut node = leaf(alloc, "c", "")?;
    for _ in 1..levels {
        node = branch(alloc, attribute(alloc, "k", "")?, "", node)?;
    }
    Ok(node)
}

fn can_nested(alloc: Global, levels: u8) -> Result<bool, AllocError> {
    Ok(is_writable(&nested(alloc, levels)?))
}

#[test]
fn a_level_too_many(rt: HostRuntime) -> Result<(), Fail> {
    assert!(rt; can_nested(rt.alloc(), 64)?);
    assert!(rt; !can_nested(rt.alloc(), 65)?);
    Ok(())
}
