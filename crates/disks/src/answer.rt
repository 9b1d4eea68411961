// What is noted of the calls of a real file.
use crate::Call;
use small_types::Bytes;

/// A call of a file with its answer. A length or a read that failed told nothing, and is none. No memory holds one: a
/// `Record` has them, for clauses alone.
#[derive(Drop, Debug)]
pub enum Answer {
    /// The file was said to be so long.
    Measured { length: u64 },
    /// A read at a place, into a buffer of so many bytes, gave these.
    Gave { place: u64, room: u64, bytes: Bytes },
    /// A write, a cut or a sync, done or failed.
    Changed { call: Call },
}
