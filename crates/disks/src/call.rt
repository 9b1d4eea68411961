// What a disk in memory records of its calls.
use small_types::Bytes;

/// A call of a disk that may change it, and whether it was done.
#[derive(Drop, Debug)]
pub enum Move {
    Write {
        place: u64,
        bytes: Bytes,
        done: bool,
    },
    Cut {
        length: u64,
        done: bool,
    },
    Sync {
        done: bool,
    },
}

/// A call, and which it was of all calls that may change the disk.
#[derive(Drop, Debug)]
pub struct Call {
    pub number: u64,
    pub act: Move,
}

/// What a stop makes of the ranges that were written or cut off and are not synced.
#[derive(Clone, Copy, Debug, PartialEq, Eq)]
pub enum Pick {
    /// Each write and cut that was done is kept.
    Kept,
    /// Each is lost: the bytes are those of the last sync.
    Lost,
    /// Each range holds this byte, also that of a call that failed. A cut leaves the length.
    Filled(u8),
}
