//! Lines in, replies out: what a session's line asks for, and the bytes of its reply.
#![tactic(auto)]

mod app_replies;
mod check_replies;
mod escapes;
mod file_lines;
mod hexes;
mod kept_line;
mod key_lines;
mod lease_lines;
mod lease_replies;
mod lines;
mod names;
mod numbers;
mod pieces;
mod raw;
mod reasons;
mod refusals;
mod replies;
mod urls;
mod words;

pub use kept_line::{KEPT_LIMIT, keep, kept_bytes_tell, kept_limit_is};
pub use lines::{read_line, strip_carriage_return};
pub use numbers::read_number;
pub use replies::print_reply;
