//! Publishing: the files of a folder, and the two manifests of their release.
#![tactic(auto)]

mod copies;
mod entries;
mod fault;
mod laws;
mod names;
mod options;
mod published;
mod release;

pub use fault::PublishFault;
pub use laws::honest_folders_never_change;
pub use options::is_publishable;
pub use publish_plan::{Mark, MarkKind, Options};
pub use published::{Published, publish};
