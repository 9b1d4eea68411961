// The two halves of a journal, and how they take turns.
ghost use Rattle.std.specs.Prelude.{◌≡◌, ◌<◌, ◌≤◌};
ghost use Rattle.small_types.specs.declared.limits.TheConstants.{HALF_LIMIT};
ghost use Rattle.journal.specs.declared.form.TheConstants.{SERIAL_COUNT};
ghost use Rattle.journal.specs.Layout.{start_of, other_side, IsNextSerial};

use crate::form::SERIAL_COUNT;
use small_types::limits::HEAD_BLOCK_SIZE;

/// One of the two halves.
#[derive(Clone, Copy, Debug, PartialEq, Eq)]
pub enum Side {
    /// That behind the head block.
    First,
    /// That behind the first one.
    Second,
}

// The other one.
pub(crate) fn turned(side: Side) -> Side
    ensures { result ≡ other_side side }
{
    match side {
        Side::First => Side::Second,
        Side::Second => Side::First,
    }
}

// Where a half of this length begins.
pub(crate) fn start(side: Side, half: u64) -> u64
    requires { half ≤ HALF_LIMIT }
    ensures { result ≡ start_of side half }
{
    match side {
        Side::First => HEAD_BLOCK_SIZE as u64,
        Side::Second => HEAD_BLOCK_SIZE as u64 + half,
    }
}

// The serial that comes after this one.
pub(crate) fn next_serial(serial: u8) -> u8
    requires { serial < SERIAL_COUNT }
    ensures { IsNextSerial serial result }
{
    (serial + 1) % SERIAL_COUNT
}
