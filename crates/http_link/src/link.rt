// A site over HTTP.
ghost use Rattle.std.specs.Prelude.{◌≡◌, ◌≢◌, ◌<◌, ◌++◌, ◌∷◌, [], length, take, drop, false, None, Option, Err, IfOk, OnOk, OnErr, IsTrue, if◌then◌else◌};
ghost use Rattle.connections.specs.Wire.{Made, all_sent};
ghost use Rattle.links.specs.declared.history.LinkCall.TheVariants.{Asked};
ghost use Rattle.links.specs.declared.link.LinkFault.TheVariants.{Memory as no_memory};
ghost use Rattle.outside.specs.Streams.{Consumes, total};
ghost use Rattle.http_link.specs.WireAsks.{fault_of, is_memory as lacks_memory, is_refusal as refuses};

use crate::reasons::{is_memory, is_refusal, link_fault};
use crate::stream::receive_most;
use connections::Wire;
use http_plain::{Begun, ExchangeFault, ask_wire};
use links::{History, Link, LinkFault};
use small_types::{Bytes, Target};
use std::alloc::Global;

/// A site over HTTP, behind a wire. Each target is asked for by one request on a connection of its own, and its bytes
/// are the body of the answer: `Missing` is an answer with the status 404, and `Down` a failure of the wire and any
/// other answer that gives no body (see `ask_wire`). Bytes behind a body are dropped where they came with the head, and
/// else not received.
///
/// What stands on the site is not told, also not over a wire that tells: another answer may come each time. Over such a
/// wire the calls say what the answer gives. Its count of faults is the wire's, together with the number of answers
/// that were refused and of bodies that ended early.
#[derive(Drop)]
pub struct HttpLink<W: Wire> {
    wire: W,
    // How many bytes of the body that was asked for last were not given yet.
    left: u64,
    // The bytes of it that came with the head of the answer, and how many of them were given.
    early: Bytes,
    at: usize,
    // How many answers were refused, and how many bodies ended early.
    unread: u64,
    history: History,
}

impl<W: Wire> HttpLink<W> {
    ghost use Rattle.http_link.specs.States.{body_left, history_of, owed, unread_of, wire_of};

    /// A link over the wire, of which nothing was asked. It takes no memory.
    pub fn new(alloc: Global, wire: W) -> HttpLink<W>
        ensures wire { wire_of result ≡ wire }
        ensures rest { (present : Option Made) → body_left present result ≡ [] }
        ensures owed { owed result ≡ 0 }
        ensures unread { unread_of result ≡ 0 }
        ensures history { history_of result ≡ [] }
    {
        HttpLink {
            wire,
            left: 0,
            early: Bytes::from_vec(Vec::new(alloc)),
            at: 0,
            unread: 0,
            history: History::new(),
        }
    }

    /// The wire.
    pub fn wire(&self) -> &W
        ensures { result.now ≡ wire_of self.now }
    {
        &self.wire
    }

    // Makes the body of an answer the rest, and answers its length to the target.
    fn open(&mut self, target: &Target, begun: Begun) -> u64
        ensures length { result ≡ begun.length }
        ensures left { self.new.left ≡ begun.length }
        ensures early { self.new.early ≡ begun.early }
        ensures at { self.new.at ≡ 0 }
        ensures wire { self.new.wire ≡ self.old.wire }
        ensures unread { self.new.unread ≡ self.old.unread }
        ensures history { history_of self.new
            ≡ history_of self.old ++ Asked target.now (Ok result) ∷ [] }
    {
        let Begun { length, early } = begun;
        self.left = length;
        self.early = early;
        self.at = 0;
        self.history.ask(target, Ok(length));
        length
    }

    // Leaves nothing of the body, and counts it where an answer is of no use.
    fn close(&mut self, refused: bool)
        ensures left { self.new.left ≡ 0 }
        ensures wire { self.new.wire ≡ self.old.wire }
        ensures unread { self.new.unread
            ≡ (if refused then total self.old.unread 1 else self.old.unread) }
        ensures history { self.new.history ≡ self.old.history }
    {
        self.left = 0;
        if !refused {
            return;
        }
        self.unread = self.unread.saturating_add(1);
    }

    // What an exchange comes to that gave no body. Where there was no memory nothing changes.
    fn stop(&mut self, fault: ExchangeFault) -> LinkFault
        ensures fault { result ≡ fault_of fault }
        ensures memory { IsTrue (lacks_memory fault) → self.new ≡ self.old }
        ensures left { lacks_memory fault ≡ false → self.new.left ≡ 0 }
        ensures wire { self.new.wire ≡ self.old.wire }
        ensures unread { lacks_memory fault ≡ false → self.new.unread
            ≡ (if refuses fault then total self.old.unread 1 else self.old.unread) }
        ensures history { self.new.history ≡ self.old.history }
    {
        if is_memory(fault) {
            return link_fault(fault);
        }
        self.close(is_refusal(fault));
        link_fault(fault)
    }
}

impl<W: Wire + Drop> Link for HttpLink<W> {
    ghost use Rattle.std.specs.Prelude.{ℕ, List};
    ghost use Rattle.links.specs.Asked.{NotesAsk, NotesPiece};
    ghost use Rattle.links.specs.History.{calls_of};
    ghost use Rattle.links.specs.Link.{LinkState, Asks, Takes};
    ghost use Rattle.http_link.specs.Counts.{CountsAsk, Unraised};
    ghost use Rattle.http_link.specs.WireAsks.{AsksOverWire, Owes};
    ghost use Rattle.http_link.specs.Pieces.{GivesPiece, ReceivesAtMost, Stops};
    ghost use Rattle.http_link.specs.States.{OnlyNotes, body_left, coming, http_state, left_on, owed, tally};

    ghost state = { λ l. record {
      tells = ⊥;
      site = λ _. None;
      rest = take l.left (drop l.at l.early ++ left_on (W.present l.wire));
      count = total (W.count l.wire) l.unread;
      history = calls_of l.history;
    } };

    /// Asks for the target by one request on a new connection. It takes all memory before: after `Memory` nothing
    /// changed but what is noted. Of the body no more is received than came with the head of the answer.
    fn ask(&mut self, alloc: Global, target: &Target) -> Result<u64, LinkFault>
        ensures asks { Asks target.now
            (http_state (W.present self.old.wire) (W.count self.old.wire) self.old)
            (http_state (W.present self.new.wire) (W.count self.new.wire) self.new) result }
        ensures noted { NotesAsk target.now
            (http_state (W.present self.old.wire) (W.count self.old.wire) self.old)
            (http_state (W.present self.new.wire) (W.count self.new.wire) self.new) result }

        // Over a wire that tells, each result comes exactly where the answer gives it.
        ensures hears { W.tells → AsksOverWire target.now (W.present self.new.wire)
            (body_left (W.present self.new.wire) self.new)
            (tally (W.count self.old.wire) self.old) (tally (W.count self.new.wire) self.new)
            result }
        ensures one { W.tells → result ≢ Err no_memory → W.over self.new.wire
            ≡ all_sent (W.over self.old.wire) (W.present self.old.wire) }

        // An answer that is refused is counted once, and a fault of the wire by the wire alone.
        ensures counts { CountsAsk
            (tally (W.count self.old.wire) self.old) (tally (W.count self.new.wire) self.new)
            result }
        ensures owes { Owes (owed self.new) result }
        ensures memory { result ≡ Err no_memory → OnlyNotes self.old self.new }
    {
        match ask_wire(alloc, &mut self.wire, target) {
            Ok(begun) => Ok(self.open(target, begun)),
            Err(fault) => {
                let fault = self.stop(fault);
                self.history.ask(target, Err(fault));
                Err(fault)
            }
        }
    }

    /// Gives the next bytes of the body: those that came with the head, and then those that the wire receives, no more
    /// than the length that was answered. Where the wire fails, or has no more, it answers `Down`.
    fn piece(&mut self, buf: &mut [u8]) -> Result<usize, LinkFault>
        requires { 0 < length buf.old }
        ensures takes { Takes
            (http_state (W.present self.old.wire) (W.count self.old.wire) self.old)
            (http_state (W.present self.new.wire) (W.count self.new.wire) self.new)
            buf.old buf.new result }
        ensures noted { NotesPiece
            (http_state (W.present self.old.wire) (W.count self.old.wire) self.old)
            (http_state (W.present self.new.wire) (W.count self.new.wire) self.new)
            buf.new result }

        // Over a wire that tells, the body comes as it stands in the answer, no byte besides is received, and nothing
        // is sent.
        ensures bytes { W.tells → IfOk result (λ n. Consumes
            (body_left (W.present self.old.wire) self.old)
            (body_left (W.present self.new.wire) self.new) buf.new n) }
        ensures behind { W.tells → IfOk result (λ n. coming (W.present self.old.wire) self.old
            ≡ take n buf.new ++ coming (W.present self.new.wire) self.new) }
        ensures ahead { W.tells → IfOk result
            (ReceivesAtMost (W.present self.old.wire) (W.present self.new.wire)) }
        ensures sent { W.tells → all_sent (W.over self.new.wire) (W.present self.new.wire)
            ≡ all_sent (W.over self.old.wire) (W.present self.old.wire) }

        // No more bytes are given than the length that was answered, and zero exactly once all were; the wire is then
        // left alone. `Down` comes where the wire failed, or where the body ended early, which is counted once.
        ensures gives { IfOk result (λ n. GivesPiece n (owed self.old) (owed self.new)) }
        ensures done { owed self.old ≡ 0 → result ≡ Ok 0 }
        ensures still { owed self.old ≡ 0 → OnlyNotes self.old self.new }
        ensures quiet { OnOk result (Unraised
            (tally (W.count self.old.wire) self.old) (tally (W.count self.new.wire) self.new)) }
        ensures stops { OnErr result (Stops W.tells
            (body_left (W.present self.old.wire) self.old) (owed self.old) (owed self.new)
            (tally (W.count self.old.wire) self.old) (tally (W.count self.new.wire) self.new)) }
    {
        if self.left == 0 {
            self.history.piece(buf, Ok(0));
            return Ok(0);
        }
        let received = receive_most(
            &mut self.wire,
            self.early.as_slice(),
            &mut self.at,
            self.left,
            buf,
        );
        let Ok(n) = received else {
            self.close(false);
            self.history.piece(buf, Err(LinkFault::Down));
            return Err(LinkFault::Down);
        };
        if n == 0 {
            self.close(true);
            self.history.piece(buf, Err(LinkFault::Down));
            return Err(LinkFault::Down);
        }
        self.left -= n as u64;
        self.history.piece(buf, Ok(n));
        Ok(n)
    }

    fn faults(&self) -> u64 {
        self.wire.faults().saturating_add(self.unread)
    }
}
