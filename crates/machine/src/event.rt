// What happens to a store, one line after another.
use crate::{Command, LineFault};
use small_types::{Bytes, List};

/// The manifest texts that a line heard.
#[derive(Drop, Debug, PartialEq, Eq)]
pub struct Heard {
    pub texts: List<Bytes>,
}

/// One step of a session.
#[derive(Drop, Debug, PartialEq, Eq)]
pub enum Event {
    /// The session began with another boot number than the store's.
    Boot {
        boot: u64,
    },
    /// A command, at a moment in seconds.
    Line {
        command: Command,
        now: u64,
        heard: Heard,
    },
    /// A line that is no command.
    Unread {
        fault: LineFault,
    },
}
