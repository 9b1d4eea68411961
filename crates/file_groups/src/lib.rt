//! The files of an optional group.
#![tactic(auto)]

mod fault;
mod group_plan;

pub use fault::GroupFault;
pub use group_plan::plan;
