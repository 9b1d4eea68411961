//! What both kinds of manifests have: elements and attributes found by local name, values, identities and digest lists.
#![tactic(auto)]

mod digests;
mod elements;
mod fault;
mod identities;
mod refusals;
mod root;
mod values;

pub use digests::digests_of;
pub use elements::{attribute, children, first_child, has_element, is_called, once};
pub use fault::ManifestFault;
pub use identities::identity_in;
pub use refusals::{bad_name, bad_value, missing, no_digest, twice, twice_named};
pub use root::read_root;
pub use values::{defaulted, filled, needed, number, size, truth, valid, version, within};
