//! Fetching over links: texts of at most so many bytes, and files that match their size and digests. A folder is a link
//! too.
#![tactic(auto)]

mod fault;
mod file;
mod folder_link;
mod stopped;
mod text;

pub use fault::FetchFault;
pub use file::fetch_file;
pub use folder_link::FolderLink;
pub use text::fetch_text;
