//! The top call of the host's program: a run of connections over a folder.
#![tactic(auto)]

mod laws;
mod run;
mod status;
mod top;
mod words;

pub use laws::numbers_are;
pub use status::{STATUS_DONE, STATUS_MEMORY, STATUS_MISSED, STATUS_WORDS};
pub use top::host_run;
pub use words::{CONNECTION_LIMIT, PORT_LEAST, PORT_LIMIT, read_port};
