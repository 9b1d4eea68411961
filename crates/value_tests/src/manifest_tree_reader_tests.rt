// Tests of the reader of manifest texts: trees, and faults with their places.
use manifest_tree::{Node, TreeError, TreeFault, TreeKind, read_tree};
use std::alloc::{AllocError, Global};
use std::test::Fail;

fn fault_of(alloc: Global, text: &[u8]) -> Option<TreeFault> {
    match read_tree(alloc, text) {
        Err(TreeError::Refused { fault }) => Some(fault),
        _ => None,
    }
}

// Texts, and the fault of each with its place.
const FAULTS: &[(&str, TreeKind, u64)] = &[
    ("<a><b></a>", TreeKind::TagMismatch, 6),
    ("<a x=\"1\" x=\"2\"/>", TreeKind::AttributeTwice, 9),
    (
        "<a b='' c='' d='' e='' f='' g='' h='' i='' j='' j=''/>",
        TreeKind::AttributeTwice,
        48,
    ),
    ("<a>&nbsp;</a>", TreeKind::Entity, 3),
    ("<a>", TreeKind::Syntax, 3),
    ("<a></b<", TreeKind::TagMismatch, 3),
    ("<ab></a", TreeKind::TagMismatch, 4),
    ("<a x=\"1\" x", TreeKind::AttributeTwice, 9),
    ("<a></", TreeKind::Syntax, 5),
    ("<a>&am", TreeKind::Entity, 3),
    ("<a &>", TreeKind::Syntax, 3),
    ("&lt;<a/>", TreeKind::Syntax, 0),
    ("<a/>&x;", TreeKind::Syntax, 4),
    ("<a/></a>", TreeKind::Syntax, 5),
    ("<a/><?xml ?>", TreeKind::Syntax, 9),
    ("\u{fefe}<a/>", TreeKind::Syntax, 2),
    ("", TreeKind::Syntax, 0),
];

#[test]
fn faults_at_their_places(rt: HostRuntime) {
    for (text, kind, place) in FAULTS {
        let fault = fault_of(rt.alloc(), text.as_bytes());
        assert!(rt; is_fault(fault, *kind, *place), "at {text}");
    }
    assert!(rt; is_fault(fault_of(rt.alloc(), &[255]), TreeKind::NotUtf8, 0));
}

fn is_fault(fault: Option<TreeFault>, kind: TreeKind, place: u64) -> bool {
    fault == Some(TreeFault { kind, place })
}

// The fault of an element that stands within 64 others.
fn fault_of_deep(alloc: Global) -> Result<Option<TreeFault>, AllocError> {
    let mut text = Vec::new(alloc);
    for _ in 0..64u8 {
        text.extend_from_slice(b"<a>")?;
    }
    text.extend_from_slice(b"<b<")?;
    Ok(fault_of(alloc, text.as_slice()))
}

#[test]
fn a_level_too_many(rt: HostRuntime) -> Result<(), Fail> {
    assert!(rt; is_fault(fault_of_deep(rt.alloc())?, TreeKind::TooDeep, 192));
    Ok(())
}

// Whether an element has this name and text, one attribute and one child, and the child this text.
fn is_element(root: &Node, attribute: (&str, &str), text: &str, child: &str) -> bool {
    let attributes = root.attributes.as_slice();
    root.name.as_str() == "a"
        && root.text.as_str() == text
        && attributes.len() == 1
        && attributes.iter().all(|it| it.name.as_str() == attribute.0
            && it.value.as_str() == attribute.1)
        && root.children.len() == 1
        && root.children.iter().all(|it| it.text.as_str() == child)
}

const TREE: &str =
    "\u{feff}<?xml version=\"1.0\"?><!-- & --><a x='1\r\n\t2'>h<b>no</b>&#105;\r\n<?p <?></a>\n";

// Whether the text is read as that element.
fn is_read(alloc: Global) -> bool {
    match read_tree(alloc, TREE.as_bytes()) {
        Ok(root) => {
            let is = is_element(&root, ("x", "1  2"), "hi\n", "no");
            drop(root);
            is
        }
        Err(_) => false,
    }
}

#[test]
fn a_tree(rt: HostRuntime) {
    assert!(rt; is_read(rt.alloc()));
}
