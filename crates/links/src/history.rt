// What a link was asked, and what it gave.
ghost use Rattle.std.specs.Prelude.{◌≡◌, [], ◌∷◌, ◌++◌};
ghost use Rattle.links.specs.History.{calls_of, piece_call};
ghost use Rattle.links.specs.declared.history.LinkCall.TheVariants.{Asked};

use crate::LinkFault;
use call_record::{Notes, Record};
use small_types::{Bytes, Target};
use std::fmt;

/// A call of a link with its answer. No memory holds one: a `History` has them, for clauses alone.
#[derive(Drop, Debug)]
pub enum LinkCall {
    /// It was asked for a target.
    Asked {
        target: Target,
        answer: Result<u64, LinkFault>,
    },
    /// It was asked for a piece, and gave these bytes, none at the end of the body.
    Gave {
        bytes: Bytes,
    },
    /// It was asked for a piece, and failed.
    Broke,
}

/// The calls of a link in their order, each with its answer. It takes no memory, and costs nothing when the program
/// runs.
#[derive(Drop)]
pub struct History {
    calls: Record<LinkCall>,
}

impl fmt::Debug for History {
    fn fmt<W: fmt::Write>(&self, f: &mut fmt::Formatter<W>) -> fmt::Result {
        write!(f, "History")
    }
}

// An answer to a target.
#[derive(Clone, Copy)]
struct AskNote<'a> {
    target: &'a Target,
    answer: Result<u64, LinkFault>,
}

impl Notes<LinkCall> for AskNote<'_> {
    ghost notes = { λ n. Asked n.target.now n.answer ∷ [] };
}

// An answer to a call for a piece, into this buffer.
#[derive(Clone, Copy)]
struct PieceNote<'a> {
    buf: &'a [u8],
    answer: Result<usize, LinkFault>,
}

impl Notes<LinkCall> for PieceNote<'_> {
    ghost notes = { λ n. piece_call n.buf.now n.answer ∷ [] };
}

impl History {
    /// Nothing was asked yet.
    pub fn new() -> History
        ensures { calls_of result ≡ [] }
    {
        History {
            calls: Record::new(),
        }
    }

    /// Notes that the link was asked for the target, and what it answered.
    pub fn ask(&mut self, target: &Target, answer: Result<u64, LinkFault>)
        ensures { calls_of self.new ≡ calls_of self.old ++ Asked target.now answer ∷ [] }
    {
        self.calls.note(&AskNote { target, answer });
    }

    /// Notes that the link was asked for a piece, what it answered, and the buffer afterwards.
    pub fn piece(&mut self, buf: &[u8], answer: Result<usize, LinkFault>)
        ensures { calls_of self.new ≡ calls_of self.old ++ piece_call buf.now answer ∷ [] }
    {
        self.calls.note(&PieceNote { buf, answer });
    }
}
