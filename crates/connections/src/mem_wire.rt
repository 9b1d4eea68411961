// A client's connections in memory.
ghost use Rattle.std.specs.Prelude.{◌≡◌, ◌≢◌, ◌+◌, ◌<◌, ◌≤◌, ℕ, List, [], ◌∷◌, ◌++◌, None, length, take, min, false, slice_index_or, option_to_list, IfOk, IsOk, IsErr, OnOk, OnErr, IfSome, IfNone, IsTrue};
ghost use Rattle.outside.specs.Streams.{Causes, TakesSome, total};
ghost use Rattle.outside.specs.WantOfMemory.{WorksOrStarves};
ghost use Rattle.connections.specs.Wire.{Connects, Receives, Sends, all_sent};
ghost use Rattle.connections.specs.Present.{ReceivesHere};

use crate::Wire;
use crate::parts::send_last;
use outside::{Failed, FailingCalls, copy_from, starve};
use small_types::{Bytes, List, Text};
use std::alloc::{AllocError, Global};

// Where the present connection leads, what it answers, and how much of that was received.
#[derive(Drop, Debug)]
struct Present {
    host: Text,
    port: u16,
    answer: Bytes,
    place: usize,
}

/// Connections that answer texts, one text a connection. Its calls whose numbers, counted from 1, the list `failing`
/// has are to fail. A `connect` for which no text is left, or for which it finds no memory, fails too and leaves the
/// texts to come as they are. So do a `receive` and a `send` without a present connection, and a `send` for which it
/// finds no memory. No other call fails, and `starved` tells how often there was no memory.
#[derive(Drop, Debug)]
pub struct MemWire {
    alloc: Global,
    answers: List<Bytes>,
    present: Option<Present>,
    sent: List<Bytes>,
    failing: FailingCalls,
    // For how many calls there was no memory.
    starved: u64,
    ghost paired: { length (option_to_list present) ≤ length sent },
}

// Makes the connection of the next answer, on which nothing was sent. An `Err` changes nothing.
fn next_connection(
    alloc: Global,
    answers: &[Bytes],
    sent: &mut List<Bytes>,
    host: &Text,
    port: u16,
) -> Result<Present, AllocError>
    requires { length sent.old < length answers.now }
    ensures made { IfOk result (λ p. p ≡ record {
      host = host.now;
      port = port;
      answer = slice_index_or answers.now (length sent.old) [];
      place = 0;
    }) }
    ensures sent { OnOk result (sent.new ≡ sent.old ++ [] ∷ []) }
    ensures kept { OnErr result (sent.new ≡ sent.old) }
{
    let place = sent.as_slice().len();
    let answer = Bytes::from_slice(alloc, answers[place].as_slice())?;
    let host = Text::from_string(String::from_str(alloc, host.as_str())?);
    sent.push(Bytes::from_vec(Vec::new(alloc)))?;
    Ok(Present {
        host,
        port,
        answer,
        place: 0,
    })
}

// Receives from the present connection, if there is one.
fn receive_here(slot: &mut Option<Present>, buf: &mut [u8]) -> Option<usize>
    requires { 0 < length buf.old }
    ensures within { IfSome result (λ n. n ≤ length buf.old) }
    ensures bytes { IfSome result (λ n. ReceivesHere slot.old slot.new buf.new n) }
    ensures none { IfNone result (slot.old ≡ None) }
    ensures kept { IfNone result (slot.new ≡ None) }
{
    let mut here = slot.take()?;
    let n = copy_from(here.answer.as_slice(), &mut here.place, buf);
    *slot = Some(here);
    Some(n)
}

impl MemWire {
    ghost use Rattle.connections.specs.MemWire.{wire_answers, wire_over, wire_present, wire_faults, wire_failing, wire_calls, wire_starved};

    /// Connections that answer these texts, in order. It takes no memory.
    pub fn new(alloc: Global, answers: List<Bytes>, failing: List<u64>) -> MemWire
        ensures answers { wire_answers result ≡ answers }
        ensures over { wire_over result ≡ [] }
        ensures present { wire_present result ≡ None }
        ensures faults { wire_faults result ≡ 0 }
        ensures failing { wire_failing result ≡ failing }
        ensures calls { wire_calls result ≡ 0 }
        ensures starved { wire_starved result ≡ 0 }
    {
        MemWire {
            alloc,
            answers,
            present: None,
            sent: List::from_vec(Vec::new(alloc)),
            failing: FailingCalls::new(failing),
            starved: 0,
        }
    }

    /// What was sent, one text a connection.
    pub fn sent(&self) -> &List<Bytes>
        ensures { result.now ≡ all_sent (wire_over self.now) (wire_present self.now) }
    {
        &self.sent
    }

    /// How many calls failed for want of memory. The count never falls.
    pub fn starved(&self) -> u64
        ensures { result ≡ wire_starved self.now }
    {
        self.starved
    }
}

impl Wire for MemWire {
    ghost use Rattle.connections.specs.Present.{present_of, over_of};
    ghost use Rattle.connections.specs.MemWire.{wire_answers, wire_over, wire_present, wire_faults, wire_failing, wire_calls, wire_starved, wire_fails, ConnectsNext};

    ghost tells = { Unit {0} };

    ghost over = { λ w. over_of w.present w.sent };

    ghost present = { λ w. present_of w.present w.sent };

    ghost count = { λ w. w.failing.faults };

    fn connect(&mut self, host: &Text, port: u16) -> Result<(), Failed>
        ensures ended { wire_over self.new ≡ all_sent (wire_over self.old) (wire_present self.old) }
        ensures made { OnOk result (Connects host.now port (wire_present self.new)) }
        ensures none { OnErr result (wire_present self.new ≡ None) }
        ensures cause { Causes (wire_faults self.old) (wire_faults self.new) result }

        // The new connection answers the next text. A call that fails uses up none.
        ensures next { OnOk result (ConnectsNext host.now port self.old self.new) }
        ensures answers_kept { OnErr result (wire_answers self.new ≡ wire_answers self.old) }

        // It fails where its number is in the list and where no text is left, else only for want of memory, which
        // alone is counted as such. The count rises by one where it fails, and else not.
        ensures fails { IsTrue (wire_fails self.old) → IsErr result }
        ensures end { wire_answers self.old ≡ [] → IsErr result }
        ensures works { wire_fails self.old ≡ false → wire_answers self.old ≢ []
            → WorksOrStarves (wire_starved self.old) (wire_starved self.new) result }
        ensures listed { IsTrue (wire_fails self.old)
            → wire_starved self.new ≡ wire_starved self.old }
        ensures unanswered { wire_answers self.old ≡ []
            → wire_starved self.new ≡ wire_starved self.old }
        ensures calls { wire_calls self.new ≡ total (wire_calls self.old) 1 }
        ensures failing { wire_failing self.new ≡ wire_failing self.old }
        ensures raised { OnErr result (wire_faults self.new ≡ total (wire_faults self.old) 1) }
    {
        self.present = None;
        if self.failing.next() || self.sent.as_slice().len() >= self.answers.as_slice().len() {
            self.failing.fail();
            return Err(Failed);
        }
        let answers = self.answers.as_slice();
        match next_connection(self.alloc, answers, &mut self.sent, host, port) {
            Ok(present) => {
                self.present = Some(present);
                Ok(())
            }
            Err(why) => {
                starve(&mut self.starved, why);
                self.failing.fail();
                Err(Failed)
            }
        }
    }

    fn receive(&mut self, buf: &mut [u8]) -> Result<usize, Failed>
        requires { 0 < length buf.old }
        ensures within { IfOk result (λ n. n ≤ length buf.old) }
        ensures bytes { IfOk result (λ n.
            Receives (wire_present self.old) (wire_present self.new) buf.new n) }
        ensures kept { OnErr result (wire_present self.new ≡ wire_present self.old) }
        ensures over_kept { wire_over self.new ≡ wire_over self.old }
        ensures cause { Causes (wire_faults self.old) (wire_faults self.new) result }

        // It fails exactly where its number is in the list and without a present connection. The
        // count rises by one where it fails, and else not.
        ensures fails { IsTrue (wire_fails self.old) → IsErr result }
        ensures alone { wire_present self.old ≡ None → IsErr result }
        ensures works { wire_fails self.old ≡ false → wire_present self.old ≢ None → IsOk result }
        ensures answers_kept { wire_answers self.new ≡ wire_answers self.old }
        ensures calls { wire_calls self.new ≡ total (wire_calls self.old) 1 }
        ensures failing { wire_failing self.new ≡ wire_failing self.old }
        ensures raised { OnErr result (wire_faults self.new ≡ total (wire_faults self.old) 1) }
        ensures starved { wire_starved self.new ≡ wire_starved self.old }
    {
        if self.failing.next() {
            self.failing.fail();
            return Err(Failed);
        }
        let Some(n) = receive_here(&mut self.present, buf) else {
            self.failing.fail();
            return Err(Failed);
        };
        Ok(n)
    }

    fn send(&mut self, bytes: &[u8]) -> Result<usize, Failed>
        requires { 0 < length bytes.now }
        ensures within { IfOk result (λ n. TakesSome n bytes.now) }
        ensures bytes { IfOk result (λ n.
            Sends (wire_present self.old) (wire_present self.new) (take n bytes.now)) }
        ensures kept { OnErr result (wire_present self.new ≡ wire_present self.old) }
        ensures over_kept { wire_over self.new ≡ wire_over self.old }
        ensures cause { Causes (wire_faults self.old) (wire_faults self.new) result }

        // It fails where its number is in the list and without a present connection, else only for
        // want of memory, which alone is counted as such. The count rises by one where it fails,
        // and else not.
        ensures fails { IsTrue (wire_fails self.old) → IsErr result }
        ensures alone { wire_present self.old ≡ None → IsErr result }
        ensures works { wire_fails self.old ≡ false → wire_present self.old ≢ None
            → WorksOrStarves (wire_starved self.old) (wire_starved self.new) result }
        ensures listed { IsTrue (wire_fails self.old)
            → wire_starved self.new ≡ wire_starved self.old }
        ensures unconnected { wire_present self.old ≡ None
            → wire_starved self.new ≡ wire_starved self.old }
        ensures answers_kept { wire_answers self.new ≡ wire_answers self.old }
        ensures calls { wire_calls self.new ≡ total (wire_calls self.old) 1 }
        ensures failing { wire_failing self.new ≡ wire_failing self.old }
        ensures raised { OnErr result (wire_faults self.new ≡ total (wire_faults self.old) 1) }
    {
        if self.failing.next() || self.present.is_none() {
            self.failing.fail();
            return Err(Failed);
        }
        match send_last(self.alloc, &mut self.sent, bytes) {
            Ok(()) => Ok(bytes.len()),
            Err(why) => {
                starve(&mut self.starved, why);
                self.failing.fail();
                Err(Failed)
            }
        }
    }

    fn faults(&self) -> u64 {
        self.failing.faults
    }
}
