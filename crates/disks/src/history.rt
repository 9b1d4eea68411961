// The bytes of a disk in memory, with the record of the calls that made them.
ghost use Rattle.std.specs.Prelude.{◌≡◌, ◌<◌, ◌≤◌, ◌+◌, ◌^◌, ℕ, List, [], ◌∷◌, ◌++◌, length, take, true, false, IsErr, OnOk, OnErr, Option, Some, unwrap_or, vec_len, vec_capacity};
ghost use Rattle.disks.specs.declared.call.Move.TheVariants.{Write, Cut, Sync};
ghost use Rattle.small_types.specs.Bytes.{put};
ghost use Rattle.disks.specs.Moves.{reads_after, acts, all_fit, MayRecord, RecordsOrStarves};
ghost use Rattle.outside.specs.WantOfMemory.{WorksOrStarves};

use crate::{Call, Move};
use outside::{Failed, starve};
use small_types::Bytes;
use std::alloc::Global;

// The first bytes are kept apart from the first call on that may change them.
#[derive(Drop, Debug)]
pub(crate) struct History {
    pub(crate) first: Option<Bytes>,
    pub(crate) bytes: Bytes,
    pub(crate) moves: Vec<Call>,
    // For how many calls there was no memory.
    pub(crate) starved: u64,
    ghost is_replay: { bytes ≡ reads_after (unwrap_or first bytes) (acts moves.items) },
    ghost fitting: { all_fit moves.items ≡ true },
}

// Keeps the first bytes, if none are kept, and makes room for one call more. Want of memory is counted.
fn prepare(
    alloc: Global,
    first: &mut Option<Bytes>,
    bytes: &[u8],
    moves: &mut Vec<Call>,
    starved: &mut u64,
) -> Result<(), Failed>
    ensures first { OnOk result (first.new ≡ Some (unwrap_or first.old bytes.now)) }
    ensures same { OnErr result (unwrap_or first.new bytes.now ≡ unwrap_or first.old bytes.now) }
    ensures moves { moves.new.items ≡ moves.old.items }
    ensures room { OnOk result (vec_len moves.new < vec_capacity moves.new) }
    ensures starved { WorksOrStarves starved.old starved.new result }
{
    if let Err(why) = moves.reserve(1) {
        starve(starved, why);
        return Err(Failed);
    }
    if first.is_some() {
        return Ok(());
    }
    match Bytes::from_slice(alloc, bytes) {
        Ok(copied) => {
            *first = Some(copied);
            Ok(())
        }
        Err(why) => {
            starve(starved, why);
            Err(Failed)
        }
    }
}

// Records a call for which there is room.
fn keep(moves: &mut Vec<Call>, number: u64, act: Move)
    requires { vec_len moves.old < vec_capacity moves.old }
    ensures { moves.new.items ≡ moves.old.items ++ record { number = number; act = act } ∷ [] }
{
    let _ = moves.push(Call { number, act });
}

impl History {
    ghost use Rattle.disks.specs.History.{first_of};

    // No call was recorded yet. It takes no memory.
    pub(crate) fn new(alloc: Global, bytes: Bytes) -> History
        ensures bytes { result.bytes ≡ bytes }
        ensures moves { result.moves.items ≡ [] }
        ensures starved { result.starved ≡ 0 }
    {
        History {
            first: None,
            bytes,
            moves: Vec::new(alloc),
            starved: 0,
        }
    }

    // What it began with.
    pub(crate) fn first(&self) -> &[u8]
        ensures { result.now ≡ first_of self.now }
    {
        match &self.first {
            Some(first) => first.as_slice(),
            None => self.bytes.as_slice(),
        }
    }

    // Writes, and records it. A call that fails changes nothing.
    pub(crate) fn write(
        &mut self,
        alloc: Global,
        number: u64,
        place: u64,
        piece: &[u8],
        fails: bool,
    ) -> Result<(), Failed>
        ensures first { first_of self.new ≡ first_of self.old }
        ensures fits { OnOk result (place + length piece.now < 2 ^ 64) }
        ensures ok { OnOk result ((self.new.moves.items ≡ self.old.moves.items ++ record {
          number =
              number;
          act = Write place piece.now true;
        } ∷ [])
            × (self.new.bytes ≡ put place piece.now self.old.bytes)) }
        ensures err { OnErr result (MayRecord (record {
          number = number;
          act =
              Write place piece.now false;
        }) self.old.moves.items self.new.moves.items
            × (self.new.bytes ≡ self.old.bytes)) }
        ensures fails { fails ≡ true → IsErr result }
        ensures works { fails ≡ false → place + length piece.now < 2 ^ 64
            → WorksOrStarves self.old.starved self.new.starved result }
        ensures listed { fails ≡ true → place + length piece.now < 2 ^ 64
            → RecordsOrStarves
            (record { number = number; act = Write place piece.now false }) self.old.moves.items
            self.new.moves.items self.old.starved self.new.starved }
        ensures unlisted { fails ≡ false → OnErr result
            (self.new.moves.items ≡ self.old.moves.items) }
        ensures unplaced { ¬ (place + length piece.now < 2 ^ 64)
            → self.new.starved ≡ self.old.starved }
    {
        if (piece.len() as u64) > u64::MAX - place {
            return Err(Failed);
        }
        let bytes = match Bytes::from_slice(alloc, piece) {
            Ok(bytes) => bytes,
            Err(why) => {
                starve(&mut self.starved, why);
                return Err(Failed);
            }
        };
        prepare(
            alloc,
            &mut self.first,
            self.bytes.as_slice(),
            &mut self.moves,
            &mut self.starved,
        )?;
        if fails {
            keep(
                &mut self.moves,
                number,
                Move::Write {
                    place,
                    bytes,
                    done: false,
                },
            );
            return Err(Failed);
        }
        match self.bytes.put(place as usize, piece) {
            Ok(()) => {
                keep(
                    &mut self.moves,
                    number,
                    Move::Write {
                        place,
                        bytes,
                        done: true,
                    },
                );
                Ok(())
            }
            Err(why) => {
                starve(&mut self.starved, why);
                Err(Failed)
            }
        }
    }

    // Shortens, and records it. A call that fails changes nothing.
    pub(crate) fn cut(
        &mut self,
        alloc: Global,
        number: u64,
        length: u64,
        fails: bool,
    ) -> Result<(), Failed>
        ensures first { first_of self.new ≡ first_of self.old }
        ensures ok { OnOk result ((self.new.moves.items ≡ self.old.moves.items ++ record {
          number =
              number;
          act = Cut length true;
        } ∷ []) × (self.new.bytes ≡ take length self.old.bytes)) }
        ensures err { OnErr result (MayRecord (record {
          number = number;
          act =
              Cut length false;
        }) self.old.moves.items self.new.moves.items
            × (self.new.bytes ≡ self.old.bytes)) }
        ensures fails { fails ≡ true → IsErr result }
        ensures works { fails ≡ false → WorksOrStarves self.old.starved self.new.starved result }
        ensures listed { fails ≡ true → RecordsOrStarves
            (record { number = number; act = Cut length false }) self.old.moves.items
            self.new.moves.items self.old.starved self.new.starved }
        ensures unlisted { fails ≡ false → OnErr result
            (self.new.moves.items ≡ self.old.moves.items) }
    {
        prepare(
            alloc,
            &mut self.first,
            self.bytes.as_slice(),
            &mut self.moves,
            &mut self.starved,
        )?;
        keep(
            &mut self.moves,
            number,
            Move::Cut {
                length,
                done: !fails,
            },
        );
        if fails {
            return Err(Failed);
        }
        self.bytes.shorten(length);
        Ok(())
    }

    // Records that what reads give is durable now. A call that fails changes nothing.
    pub(crate) fn sync(&mut self, alloc: Global, number: u64, fails: bool) -> Result<(), Failed>
        ensures first { first_of self.new ≡ first_of self.old }
        ensures bytes { self.new.bytes ≡ self.old.bytes }
        ensures ok { OnOk result (self.new.moves.items ≡ self.old.moves.items ++ record {
          number =
              number;
          act = Sync true;
        } ∷ []) }
        ensures err { OnErr result (MayRecord (record {
          number = number;
          act =
              Sync false;
        }) self.old.moves.items self.new.moves.items) }
        ensures fails { fails ≡ true → IsErr result }
        ensures works { fails ≡ false → WorksOrStarves self.old.starved self.new.starved result }
        ensures listed { fails ≡ true → RecordsOrStarves
            (record { number = number; act = Sync false }) self.old.moves.items
            self.new.moves.items self.old.starved self.new.starved }
        ensures unlisted { fails ≡ false → OnErr result
            (self.new.moves.items ≡ self.old.moves.items) }
    {
        prepare(
            alloc,
            &mut self.first,
            self.bytes.as_slice(),
            &mut self.moves,
            &mut self.starved,
        )?;
        keep(&mut self.moves, number, Move::Sync { done: !fails });
        if fails {
            return Err(Failed);
        }
        Ok(())
    }
}
