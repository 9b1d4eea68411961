// What a session line asks for.
use identity::{Key, Version};
use small_types::{Bytes, Name, Text};

/// A command of a session line.
#[derive(Drop, Debug, PartialEq, Eq)]
pub enum Command {
    /// `at N`: the session's moment is this one, in seconds, from the next line on.
    At {
        now: u64,
    },
    /// `require KEY V`: the application's minimum is the greater of what it was and this version.
    Require {
        key: Key,
        version: Version,
    },
    /// `install URL`: the release whose deployment manifest is at the address becomes the current view of its
    /// application.
    Install {
        url: Bytes,
    },
    /// `check KEY`: the application's provider is asked what it offers.
    Check {
        key: Key,
    },
    /// `skip KEY`: the version that is offered is not wanted.
    Skip {
        key: Key,
    },
    /// `rollback KEY`: the application goes back to its previous view.
    Rollback {
        key: Key,
    },
    /// `launch KEY`: a new lease on the application's current view.
    Launch {
        key: Key,
    },
    /// `read L NAME FROM COUNT`: bytes of a program file of the leased view, from a place on, at most so many.
    Read {
        lease: u64,
        name: Name,
        from: u64,
        count: u64,
    },
    /// `data L NAME FROM COUNT`: bytes of a data file of the leased view, from a place on, at most so many.
    Local {
        lease: u64,
        name: Name,
        from: u64,
        count: u64,
    },
    /// `put L NAME HEX`: the data file of the leased view has these bytes.
    Put {
        lease: u64,
        name: Name,
        bytes: Bytes,
    },
    /// `remove L NAME`: the data file of the leased view is gone.
    Remove {
        lease: u64,
        name: Name,
    },
    /// `group L GROUP`: the files of the group stand in the leased view.
    Group {
        lease: u64,
        group: Text,
    },
    /// `finish L`: the lease is gone.
    Finish {
        lease: u64,
    },
    /// `clean`: the views that are neither current nor previous of any application nor leased are gone, with their data.
    Clean,
    /// `list`: each application and its current version.
    List,
    /// `show KEY`: what is known of the application.
    Show {
        key: Key,
    },
}

/// Why a line is no command, in the order in which the causes are looked for.
#[derive(Clone, Copy, Debug, PartialEq, Eq)]
pub enum LineFault {
    /// It has more than 65,536 bytes.
    LineTooLong,
    /// Its first word is no command's name. The empty line has an empty first word.
    NoSuchCommand,
    /// It has too few words or too many.
    WordCount,
    /// The first word that cannot be read. The one after the command is 1.
    BadWord { place: u8 },
    /// Its reading found no memory.
    Memory,
}
