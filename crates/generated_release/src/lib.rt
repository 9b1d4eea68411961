//! Releases of generated files: their bytes by a seed, and how they are published in a folder in
//! memory.
#![tactic(auto)]

mod fault;
mod files;
mod options;
mod published_release;
mod release;
mod sure_folder;

pub use fault::GenerationFault;
pub use files::{FILE_COUNT, file_bytes, file_count_is, file_name};
pub use published_release::{PublishedRelease, publish_release};
pub use release::GeneratedRelease;
