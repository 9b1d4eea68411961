//! That releases whose manifests the writer writes are installed and offered, over stores that hold
//! something already.
#![tactic(auto)]

mod example;
mod laws;

pub use example::{BLOCKS, FIRST, SECOND, THIRD};
pub use laws::{checks_are_answered, installs_are_answered, two_releases_come, written_texts_tell};
