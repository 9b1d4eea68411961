// The tree of a text.
use small_types::{List, Text};

/// An attribute: its full name and its value, references and line ends resolved.
#[derive(Drop, Debug)]
pub struct Attribute {
    pub name: Text,
    pub value: Text,
}

/// An element: its full name, its attributes in order, its child elements in order, and its own character data joined,
/// without that of its children.
#[derive(Drop, Debug)]
pub struct Node {
    pub name: Text,
    pub attributes: List<Attribute>,
    pub children: Vec<Node>,
    pub text: Text,
}
