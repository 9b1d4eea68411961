// What a line changes in a store.
use crate::{Content, LocalFile, View};
use identity::{Key, Version};
use small_types::{List, Name, Target, Text};

/// A change of the store, as the journal keeps it.
#[derive(Drop, Debug, PartialEq, Eq)]
pub enum Change {
    /// Another boot number.
    Boot {
        boot: u64,
    },
    /// A version below which the application does not run.
    Require {
        key: Key,
        version: Version,
    },
    /// A view that becomes the current one of its application, the contents that it brings, the
    /// address that updates come from, and the moment in seconds.
    Install {
        view: View,
        contents: List<Content>,
        provider: Target,
        now: u64,
    },
    /// What a check heard of the provider of the key: the version that is offered, the least that
    /// may run, where there is one, and the moment in seconds.
    Heard {
        key: Key,
        version: Version,
        minimum: Option<Version>,
        now: u64,
    },
    /// A check of the key that heard nothing. It counts as made, for one start.
    Unheard {
        key: Key,
    },
    /// The application at the place, counted from 0, skips the version that is offered.
    Skip {
        app: u32,
    },
    /// The application at the place, counted from 0, goes back to its previous view. The version
    /// that was current is excluded.
    Rollback {
        app: u32,
    },
    /// A new lease on the current view of the application at the place, counted from 0, which is
    /// then not checked.
    Launch {
        app: u32,
    },
    /// The lease of that number is gone.
    Finish {
        lease: u64,
    },
    /// A group that comes to the view of that number, and the contents that it brings.
    Group {
        view: u64,
        group: Text,
        contents: List<Content>,
    },
    /// A data file of the view of that number. It takes the place of one of its name.
    Put {
        view: u64,
        file: LocalFile,
    },
    /// The data file of that name of the view of that number is gone.
    Remove {
        view: u64,
        name: Name,
    },
    /// The views that are neither current nor previous of any application nor leased are gone, with
    /// their files.
    Clean,
}
