// The faults of an opening.
/// Why a store is not opened.
#[derive(Clone, Copy, Debug, PartialEq, Eq)]
pub enum RecoverFault {
    /// The disk's bytes are no store.
    NotAStore,
    /// The disk failed.
    DiskFault,
    /// There was no memory.
    Memory,
}
