// What is noted of the calls of a real folder.
use small_types::{Bytes, List, Name};

/// A call of a folder with its answer. A listing or a reading that failed told nothing, and is none. No memory holds one:
/// a `Record` has them, for clauses alone.
#[derive(Drop, Debug)]
pub enum FolderAnswer {
    /// These were the names of the files.
    Listed {
        names: List<Name>,
    },
    /// The file of this name had these bytes, or there was none.
    Gave {
        name: Name,
        bytes: Option<Bytes>,
    },
    /// The file of this name had so many bytes, which were not given.
    Measured {
        name: Name,
        length: u64,
    },
    /// These bytes were put under this name, or the call failed.
    Put {
        name: Name,
        bytes: Bytes,
        done: bool,
    },
}
