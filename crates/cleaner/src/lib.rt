//! Which views are no longer in use, and the change that takes them out.
#![tactic(auto)]

mod fault;
mod unused_views;
mod used_numbers;

pub use fault::CleanFault;
pub use unused_views::{clean, removable};
