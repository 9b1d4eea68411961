// The links of a session.
ghost use Rattle.std.specs.Prelude.{◌≡◌, ◌<◌, ◌≤◌, [], ◌∷◌, length, true};
ghost use Rattle.small_types.specs.declared.limits.TheConstants.{LINK_LIMIT};
ghost use Rattle.links.specs.Asked.{NotesAsk, NotesPiece};
ghost use Rattle.links.specs.Link.{Asks, Takes};
ghost use Rattle.links.specs.Links.{LinksState, IsLast, ChangesOnly, Retires, Wants, failures_of, link_at, sources_of};
ghost use Rattle.links.specs.declared.links.WantFault.TheVariants.{Memory};

use crate::{Link, LinkFault};
use small_types::{CopyFault, Duplicate, List, Target};
use std::alloc::{AllocError, AllocFailed, Global};
use std::error::Error;
use std::fmt;

/// A target could not be noted.
#[derive(Clone, Copy, Debug, PartialEq, Eq)]
pub enum WantFault {
    /// There was no memory for it.
    Memory,
}

impl fmt::Display for WantFault {
    fn fmt<W: fmt::Write>(&self, f: &mut fmt::Formatter<W>) -> fmt::Result {
        write!(f, "out of memory")
    }
}

impl Error for WantFault {}

impl From<AllocError> for WantFault {
    ghost from_gives = { λ _ e. e ≡ Memory };

    fn from(_: AllocError) -> WantFault {
        WantFault::Memory
    }
}

impl From<CopyFault> for WantFault {
    ghost from_gives = { λ _ e. e ≡ Memory };

    fn from(_: CopyFault) -> WantFault {
        WantFault::Memory
    }
}

impl<T: Drop> From<AllocFailed<T>> for WantFault {
    ghost from_gives = { λ _ e. e ≡ Memory };

    fn from(_: AllocFailed<T>) -> WantFault {
        WantFault::Memory
    }
}

/// 1 to 8 links, by their places from 0 on, and the list of the targets that were asked for.
pub trait Links {
    /// The links, those that are gone included, and the targets.
    ghost links: { Self → LinksState };

    /// How many links there are.
    fn sources(&self) -> u32
        ensures count { result ≡ sources_of (links self.now) }
        ensures some { 1 ≤ result }
        ensures within { result ≤ LINK_LIMIT };

    /// Adds the target to those that were asked for. Without memory nothing changes.
    fn want(&mut self, alloc: Global, target: &Target) -> Result<(), WantFault>
        ensures { Wants target.now (links self.old) (links self.new) result };

    /// Asks the link at the place for the target that was added last. See `Link::ask`.
    fn ask(&mut self, alloc: Global, place: u32, target: &Target) -> Result<u64, LinkFault>
        requires place { place < sources_of (links self.old) }
        requires wanted { IsLast target.now (links self.old).asked }
        ensures asks { Asks target.now (link_at (links self.old) place)
            (link_at (links self.new) place) result }
        ensures noted { NotesAsk target.now (link_at (links self.old) place)
            (link_at (links self.new) place) result }
        ensures only { ChangesOnly place (links self.old) (links self.new) };

    /// Takes a piece of the rest of the link at the place. See `Link::piece`.
    fn piece(&mut self, place: u32, buf: &mut [u8]) -> Result<usize, LinkFault>
        requires place { place < sources_of (links self.old) }
        requires room { 0 < length buf.old }
        ensures takes { Takes (link_at (links self.old) place) (link_at (links self.new) place)
            buf.old buf.new result }
        ensures noted { NotesPiece (link_at (links self.old) place) (link_at (links self.new) place)
            buf.new result }
        ensures only { ChangesOnly place (links self.old) (links self.new) };

    /// Drops the link at the place. Those behind it move up by one place. How often it failed stays counted. It takes no
    /// memory.
    fn retire(&mut self, place: u32)
        requires place { place < sources_of (links self.old) }
        requires others { 2 ≤ sources_of (links self.old) }
        ensures retires { Retires place (links self.old) (links self.new) }
        ensures failures { failures_of (links self.new) ≡ failures_of (links self.old) };

    /// How often the link at the place failed. The count never falls.
    fn faults(&self, place: u32) -> u64
        requires { place < sources_of (links self.now) }
        ensures { result ≡ (link_at (links self.now) place).count };

    /// How often links failed, those that are gone included. The count never falls.
    fn failures(&self) -> u64
        ensures { result ≡ failures_of (links self.now) };
}

/// One link.
#[derive(Drop, Debug)]
pub struct Single<K: Link> {
    pub link: K,
    /// The targets that were asked for.
    pub asked: List<Target>,
}

impl<K: Link> Links for Single<K> {
    ghost links = { λ s.
        record { there = true ∷ []; link = λ _. K.state s.link; asked = s.asked } };

    fn sources(&self) -> u32 {
        1
    }

    fn want(&mut self, alloc: Global, target: &Target) -> Result<(), WantFault> {
        self.asked.push(target.copy(alloc)?)?;
        Ok(())
    }

    fn ask(&mut self, alloc: Global, _place: u32, target: &Target) -> Result<u64, LinkFault> {
        self.link.ask(alloc, target)
    }

    fn piece(&mut self, _place: u32, buf: &mut [u8]) -> Result<usize, LinkFault> {
        self.link.piece(buf)
    }

    // Links that are to lose one are two at least, so this one stays.
    fn retire(&mut self, _place: u32)
        ensures { self.new ≡ self.old }
    {}

    fn faults(&self, _place: u32) -> u64 {
        self.link.faults()
    }

    fn failures(&self) -> u64 {
        self.link.faults()
    }
}
