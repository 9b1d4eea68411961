// Reading a source to its end.
ghost use Rattle.std.specs.Prelude.{◌≡◌, ◌≢◌, ◌<◌, ◌≤◌, ◌++◌, ◌+◌, List, ℕ, length, take, drop, IfOk, Err};
ghost use Rattle.outside.specs.Streams.{Rose, TakesAtMost};
ghost use Rattle.outside.specs.declared.read_fault.ReadFault.TheVariants.{Failed as source_failed, Memory};

use crate::Source;
use std::alloc::{AllocError, Global};
use std::error::Error;
use std::fmt;

/// Why a source was not read to its end.
#[derive(Clone, Copy, Debug, PartialEq, Eq)]
pub enum ReadFault {
    /// The source failed: its count rose.
    Failed,
    /// There was no memory for the bytes.
    Memory,
}

impl fmt::Display for ReadFault {
    fn fmt<W: fmt::Write>(&self, f: &mut fmt::Formatter<W>) -> fmt::Result {
        match self {
            ReadFault::Failed => write!(f, "the source failed"),
            ReadFault::Memory => write!(f, "out of memory"),
        }
    }
}

impl Error for ReadFault {}

impl From<AllocError> for ReadFault {
    ghost from_gives = { λ _ e. e ≡ Memory };

    fn from(_: AllocError) -> Self {
        ReadFault::Memory
    }
}

/// How many bytes are asked of the source at a time.
const PIECE: usize = 65_536;

/// Reads the source up to its end, and at most so many bytes, however it ends. `Failed` comes only where the source's
/// count of faults rose, and any other answer leaves that count.
pub fn read_all<S: Source>(
    alloc: Global,
    source: &mut S,
    limit: usize,
) -> Result<Vec<u8>, ReadFault>
    ensures bytes { S.tells → IfOk result (λ v. v.items ≡ take limit (S.left source.old)) }
    ensures left { S.tells → IfOk result (λ v. S.left source.new ≡ drop limit (S.left source.old)) }
    ensures within { IfOk result (λ v. length v.items ≤ limit) }
    ensures taken { S.tells → TakesAtMost limit (S.left source.old) (S.left source.new) }
    ensures count { S.count source.old ≤ S.count source.new }
    ensures cause { result ≡ Err source_failed → Rose (S.count source.old) (S.count source.new) }
    ensures quiet { result ≢ Err source_failed → S.count source.new ≡ S.count source.old }
{
    let mut bytes: Vec<u8> = Vec::new(alloc);
    let mut piece = [0; PIECE];
    while bytes.len() < limit {
        let wanted = PIECE.min(limit - bytes.len());
        let Ok(n) = source.read(&mut piece[..wanted]) else {
            return Err(ReadFault::Failed);
        };
        if n == 0 {
            return Ok(bytes);
        }
        bytes.extend_from_slice(&piece[..n])?;
    }
    Ok(bytes)
}
