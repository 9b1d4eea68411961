//! The files that one line of a session brings, in drafts of blocks: all of them are made durable by
//! one sync, or all are given up.
#![tactic(auto)]

mod copy;
mod drafts;
mod fault;
mod fetch;

pub use drafts::LineDrafts;
pub use fault::DraftFault;
