//! The list that an audit writes: a line for each content of a store, and whether its bytes match. As a text, and
//! read from one.
#![tactic(auto)]

mod causes;
mod fault;
mod heads;
mod laws;
mod line;
mod lines;
mod list;
mod numbers;
mod parts;
mod printed_lines;
mod reader;
mod values;
mod verdict;

pub use fault::AuditTextFault;
pub use laws::bytes_are_refused_at_one_line;
pub use line::AuditLine;
pub use list::AuditList;
pub use reader::{AUDIT_TEXT_LIMIT, audit_numbers_are, read_audit, read_limited_audit};
pub use verdict::Verdict;
