//! The tree of a manifest: the texts of one small profile of XML, read exactly.
#![tactic(auto)]

mod classes;
mod content;
mod fault;
mod laws;
mod node;
mod open_element;
mod reader;
mod reference;
mod scan;
mod tag;
mod units;
mod write;

pub use fault::{TreeError, TreeFault, TreeKind};
pub use laws::{one_refusal, one_tree};
pub use node::{Attribute, Node};
pub use reader::read_tree;
pub use write::{WriteFault, is_writable, write_tree};
