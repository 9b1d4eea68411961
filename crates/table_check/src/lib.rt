//! Whether tables, which have come as they stand and from no changes, show a store within its order
//! and its limits, and whether a disk has all bytes of their files.
#![tactic(auto)]

mod apps;
mod files;
mod laws;
mod parts;
mod tables;

pub use files::{has_files, is_measured};
pub use laws::{ordered_tables_show_ordered_stores, whole_files_end_within};
pub use tables::is_ordered;
