// One site.
ghost use Rattle.std.specs.Prelude.{◌≡◌, ◌<◌, ℕ, List, length};
ghost use Rattle.links.specs.Asked.{NotesAsk, NotesPiece};
ghost use Rattle.links.specs.Link.{LinkState, Asks, Takes};
ghost use Rattle.links.specs.declared.link.LinkFault.TheVariants.{Memory};

use small_types::{CopyFault, Target};
use std::alloc::{AllocError, Global};
use std::error::Error;
use std::fmt;

/// Why a link gave no bytes.
#[derive(Clone, Copy, Debug, PartialEq, Eq)]
pub enum LinkFault {
    /// The link's site has nothing for the target.
    Missing,
    /// The link failed: its count of faults rose.
    Down,
    /// There was no memory for it. The count of faults stays.
    Memory,
}

impl fmt::Display for LinkFault {
    fn fmt<W: fmt::Write>(&self, f: &mut fmt::Formatter<W>) -> fmt::Result {
        match self {
            LinkFault::Missing => write!(f, "missing"),
            LinkFault::Down => write!(f, "the link failed"),
            LinkFault::Memory => write!(f, "out of memory"),
        }
    }
}

impl Error for LinkFault {}

impl From<AllocError> for LinkFault {
    ghost from_gives = { λ _ e. e ≡ Memory };

    fn from(_: AllocError) -> LinkFault {
        LinkFault::Memory
    }
}

impl From<CopyFault> for LinkFault {
    ghost from_gives = { λ _ e. e ≡ Memory };

    fn from(_: CopyFault) -> LinkFault {
        LinkFault::Memory
    }
}

/// One site. A link that tells says which bytes its site has for each target, and no call changes that.
pub trait Link: Drop {
    /// Whether it tells, its site, what is left of the body that was asked for last, how often it failed, and what it
    /// was asked so far.
    ghost state: { Self → LinkState };

    /// Asks for the bytes of a target, and answers their length. They are then the link's rest. `Missing` comes
    /// exactly where the site has nothing for the target and `Down` did not come. A link that tells nothing counts it
    /// as a fault. After both the rest is empty; after `Memory` it is as before.
    fn ask(&mut self, alloc: Global, target: &Target) -> Result<u64, LinkFault>
        ensures asks { Asks target.now (state self.old) (state self.new) result }
        ensures noted { NotesAsk target.now (state self.old) (state self.new) result };

    /// Puts the first bytes of the rest to the front of the buffer, and answers how many: at least one, or zero
    /// exactly where the rest is empty. It takes no memory, and its only fault is `Down`. The rest is then empty.
    fn piece(&mut self, buf: &mut [u8]) -> Result<usize, LinkFault>
        requires { 0 < length buf.old }
        ensures takes { Takes (state self.old) (state self.new) buf.old buf.new result }
        ensures noted { NotesPiece (state self.old) (state self.new) buf.new result };

    /// How often it failed. The count never falls.
    fn faults(&self) -> u64
        ensures { result ≡ (state self.now).count };
}
