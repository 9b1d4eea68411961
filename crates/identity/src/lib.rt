//! Versions of four numbers and application keys, read from bytes and printed.
#![tactic(auto)]

mod escapes;
mod identity;
mod key;
mod parts;
mod printed;
mod version;

pub use identity::Identity;
pub use key::{Key, KeyFault, one_text_one_key, word_escape};
pub use version::{
    VERSION_DIGIT_LIMIT, VERSION_NUMBER_LIMIT, Version, VersionFault, version_limits_are,
};
