// The memory of a host's run.
use http_plain::HEAD_LIMIT;
use small_types::Bytes;
use std::alloc::Global;

/// The memory that a host's run hands from one connection to the next.
///
/// A request is received into as many bytes as a head may have, so receiving one takes no memory.
/// The file of an answer leaves its memory to the next one: where it is of many megabytes, memory
/// that is had anew costs more than the reading and the sending together, since the system gives it
/// page by page at the first touch of each.
#[derive(Drop)]
pub struct HostRoom {
    pub(crate) request: [u8; HEAD_LIMIT],
    pub(crate) file: Bytes,
}

impl HostRoom {
    /// A room in which nothing is yet. It takes no memory.
    pub fn new(alloc: Global) -> HostRoom {
        HostRoom {
            request: [0; HEAD_LIMIT],
            file: Bytes::from_vec(Vec::new(alloc)),
        }
    }
}
