// Room for the digest of an algorithm, in no memory of its own.
ghost use Rattle.std.specs.Prelude.{◌≡◌, ◌≤◌, [], length, vec_capacity};

use small_types::Bytes;
use std::alloc::{AllocError, Global};

// The length of the longest digests in bytes.
const LONGEST: usize = 64;

// An empty vector with room for the longest digest.
#[derive(Drop)]
pub(crate) struct DigestRoom {
    bytes: Vec<u8>,
    ghost empty: { bytes.items ≡ [] },
    ghost enough: { vec_capacity bytes ≡ 64 },
}

impl DigestRoom {
    pub(crate) fn new(alloc: Global) -> Result<DigestRoom, AllocError> {
        Ok(DigestRoom {
            bytes: Vec::with_capacity(alloc, LONGEST)?,
        })
    }

    // The digest in that room. It takes no memory.
    pub(crate) fn fill(self, digest: &[u8]) -> Bytes
        requires { length digest.now ≤ 64 }
        ensures { result ≡ digest.now }
    {
        let DigestRoom { mut bytes } = self;
        bytes.extend_from_slice(digest).unwrap();
        Bytes::from_vec(bytes)
    }
}
