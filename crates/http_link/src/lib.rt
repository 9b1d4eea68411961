//! A site over HTTP as a link: each target is asked for on a connection of its own, and its bytes are the body of the
//! answer.
#![tactic(auto)]

mod laws;
mod link;
mod reasons;
mod stream;

pub use laws::{answers_are_heard, http_is_folder};
pub use link::HttpLink;
