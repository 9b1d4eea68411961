//! Digests of known algorithms: their texts, and whether bytes match a list of them.
#![tactic(auto)]

mod algorithm;
mod checker;
mod comparison;
mod difference;
mod digest;
mod digest_room;
mod hashers;
mod list;

pub use algorithm::Algorithm;
pub use checker::Checker;
pub use comparison::{difference_of, matches};
pub use difference::Difference;
pub use digest::{Digest, DigestFault};
pub use list::DigestList;
