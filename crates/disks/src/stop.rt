// What a stop leaves of a disk in memory.
ghost use Rattle.std.specs.Prelude.{◌≡◌, ◌<◌, ◌≤◌, ◌+◌, ◌-◌, ◌^◌, ℕ, List, [], ◌∷◌, ◌++◌, length, take, drop, true, false, min, replicate, IfOk, OnOk, OnErr, IfErr};
ghost use Rattle.disks.specs.declared.stop.StopFault.TheVariants.{LaterThanNow, Memory};
ghost use Rattle.disks.specs.Moves.{moved, filled, picked, picked_after, fits, all_fit, until};

use crate::{Call, Move, Pick};
use small_types::Bytes;
use std::alloc::{AllocError, Global};
use std::error::Error;
use std::fmt;

/// Why there is no disk that a stop leaves.
#[derive(Clone, Copy, Debug, PartialEq, Eq)]
pub enum StopFault {
    /// The moment has not come. So many calls have been.
    LaterThanNow { calls: u64 },
    /// There was no memory.
    Memory,
}

impl fmt::Display for StopFault {
    fn fmt<W: fmt::Write>(&self, f: &mut fmt::Formatter<W>) -> fmt::Result {
        match self {
            StopFault::LaterThanNow { calls } => write!(f, "there were only {calls} calls"),
            StopFault::Memory => write!(f, "out of memory"),
        }
    }
}

impl Error for StopFault {}

impl From<AllocError> for StopFault {
    ghost from_gives = { λ _ e. e ≡ Memory };

    fn from(_: AllocError) -> Self {
        StopFault::Memory
    }
}

// What reads give after a call.
fn change_reads(act: &Move, reads: &mut Bytes) -> Result<(), AllocError>
    requires { fits act.now ≡ true }
    ensures { OnOk result (reads.new ≡ moved act.now reads.old) }
{
    match act {
        Move::Write { place, bytes, done } => {
            if *done {
                reads.put(*place as usize, bytes.as_slice())?;
            }
        }
        Move::Cut { length, done } => {
            if *done {
                reads.shorten(*length);
            }
        }
        Move::Sync { .. } => {}
    }
    Ok(())
}

// What a filling stop makes of an image in a call that is not synced.
fn fill_image(act: &Move, image: &mut Bytes, byte: u8) -> Result<(), AllocError>
    requires { fits act.now ≡ true }
    ensures { OnOk result (image.new ≡ filled byte act.now image.old) }
{
    match act {
        Move::Write { place, bytes, .. } => {
            image.fill(*place as usize, bytes.as_slice().len(), byte)
        }
        Move::Cut { length, .. } => {
            image.fill_from(*length, byte);
            Ok(())
        }
        Move::Sync { .. } => Ok(()),
    }
}

// What a stop with this pick makes of an image in a call.
fn change_image(
    alloc: Global,
    act: &Move,
    reads: &[u8],
    image: &mut Bytes,
    pick: Pick,
) -> Result<(), AllocError>
    requires { fits act.now ≡ true }
    ensures { OnOk result (image.new ≡ picked pick act.now reads.now image.old) }
{
    if let Move::Sync { done } = act {
        if *done {
            *image = Bytes::from_slice(alloc, reads)?;
        }
        return Ok(());
    }
    match pick {
        Pick::Kept => change_reads(act, image),
        Pick::Lost => Ok(()),
        Pick::Filled(byte) => fill_image(act, image, byte),
    }
}

/// The image that a stop at that moment leaves with this pick, after these calls.
pub(crate) fn replay(
    alloc: Global,
    first: &[u8],
    calls: &[Call],
    moment: u64,
    pick: Pick,
) -> Result<Bytes, AllocError>
    requires { all_fit calls.now ≡ true }
    ensures { IfOk result
        (λ made. made ≡ picked_after pick first.now first.now (until moment calls.now)) }
{
    let mut reads = Bytes::from_slice(alloc, first)?;
    let mut image = Bytes::from_slice(alloc, first)?;
    for call in calls {
        if call.number > moment {
            continue;
        }
        change_image(alloc, &call.act, reads.as_slice(), &mut image, pick)?;
        change_reads(&call.act, &mut reads)?;
    }
    Ok(image)
}
