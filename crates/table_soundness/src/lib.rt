//! Which part of the soundness of a store its tables decide, and which part the bytes of its contents do.
#![tactic(auto)]

mod laws;
mod releases;

pub use laws::soundness_has_two_parts;
pub use releases::first_other_release;
