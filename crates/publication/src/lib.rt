//! The words that publish a release, and the line that says how it ended.
#![tactic(auto)]

mod command;
mod lines;
mod marks;
mod publication;
mod values;
mod words;

pub use publication::{PublishEnd, publish_options};
pub use values::WordFault;
pub use words::read_options;
