//! The lines that say what a manifest says, or why it is refused.
#![tactic(auto)]

mod facts;
mod lines;
mod refusal;

pub use facts::{write_application, write_deployment};
pub use lines::{line, two};
pub use refusal::{about, write_refusal};
