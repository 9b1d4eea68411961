//! A list of what was noted, which only clauses read and no memory holds.
#![tactic(auto)]

mod record;

pub use record::{Notes, Record};
