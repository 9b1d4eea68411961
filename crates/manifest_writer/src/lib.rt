//! The texts of deployment and application manifests, from what they say.
#![tactic(auto)]

mod application;
mod deployment;
mod digests;
mod elements;
mod fault;
mod files;
mod held;
mod identities;
mod terms;

pub use application::write_application;
pub use deployment::write_deployment;
