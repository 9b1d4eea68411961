// What a command that asks links comes to.
use machine::Reply;
use small_types::List;
use store_state::Change;

/// What a command that asks links, and brings no file, comes to.
#[derive(Drop)]
pub enum Prepared {
    /// A change of the tables, which fits them, and the reply that is due once it is made.
    Change { change: Change, reply: Reply },
    /// The reply. Nothing is to be changed.
    Reply { reply: Reply },
}

/// What a command that brings files comes to.
#[derive(Drop)]
pub enum PreparedFiles {
    /// A change of the tables, which fits them, and the reply that is due once it is made. The files
    /// that it brings stand on the disk, in some of the blocks that were taken. Those that are not
    /// used are to be freed once it is made, and all that were taken where it is not made.
    Change {
        change: Change,
        reply: Reply,
        taken: List<u32>,
        unused: List<u32>,
    },
    /// The reply. Nothing is to be changed, and the same blocks are free as before.
    Reply {
        reply: Reply,
    },
    /// The disk failed. The same blocks are free as before.
    DiskFault,
}
