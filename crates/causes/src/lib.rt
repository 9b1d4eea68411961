//! Why a link did not serve what was asked of it.
#![tactic(auto)]

mod cause;

pub use cause::Cause;
