//! Several links in boxes, which are asked by their places.
#![tactic(auto)]

mod boxed;
mod gone;

pub use boxed::Mirrors;
pub use gone::Gone;
