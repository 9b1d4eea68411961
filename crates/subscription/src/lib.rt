//! Whether an installed application may start, and what stands before it: a minimum that its
//! version is below, a check that comes first, or a newer version that is offered.
#![tactic(auto)]

mod rules;

pub use rules::due;
