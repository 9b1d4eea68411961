// A host's connections in memory.
ghost use Rattle.std.specs.Prelude.{◌≡◌, ◌≢◌, ◌+◌, ◌<◌, ◌≤◌, ℕ, List, [], ◌∷◌, ◌++◌, length, take, min, false, IfOk, IsOk, IsErr, OnOk, OnErr, IsTrue, IfSome, IfNone};
ghost use Rattle.connections.specs.Door.{Accepts, ReceivesOnLast, SendsOnLast};
ghost use Rattle.connections.specs.Places.{ReceivesAt};
ghost use Rattle.outside.specs.WantOfMemory.{WorksOrStarves};
ghost use Rattle.outside.specs.Streams.{Causes, TakesSome, total};
ghost use Rattle.connections.specs.Wire.{SendsLast};

use crate::Door;
use crate::parts::send_last;
use outside::{Failed, FailingCalls, copy_from, starve};
use small_types::{Bytes, List};
use std::alloc::{AllocError, Global};

/// Connections that request texts, one text a connection. Its calls whose numbers, counted from 1, the list `failing`
/// has are to fail. An `accept` for which no text is left, or for which it finds no memory, fails too and leaves the
/// present connection as it is. So do a `receive` and a `send` before the first connection, and a `send` for which it
/// finds no memory. No other call fails, and `starved` tells how often there was no memory.
#[derive(Drop, Debug)]
pub struct MemDoor {
    alloc: Global,
    requests: List<Bytes>,
    // How much of the request of each accepted connection was received.
    places: Vec<usize>,
    sent: List<Bytes>,
    // The calls, and how often `receive` and `send` failed.
    failing: FailingCalls,
    // How often `accept` failed.
    missed: u64,
    // For how many calls there was no memory.
    starved: u64,
    ghost paired: { length places.items ≡ length sent },
    ghost known: { length places.items ≤ length requests },
}

// Adds a connection on which nothing was received or sent. An `Err` changes nothing.
fn open(alloc: Global, places: &mut Vec<usize>, sent: &mut List<Bytes>) -> Result<(), AllocError>
    ensures place { OnOk result (places.new.items ≡ places.old.items ++ 0 ∷ []) }
    ensures sent { OnOk result (sent.new ≡ sent.old ++ [] ∷ []) }
    ensures places_kept { OnErr result (places.new.items ≡ places.old.items) }
    ensures sent_kept { OnErr result (sent.new ≡ sent.old) }
{
    places.reserve(1)?;
    sent.push(Bytes::from_vec(Vec::new(alloc)))?;
    places.push_reserved(0);
    Ok(())
}

// Receives from the last of the requests that have a place, if one has.
fn receive_last(requests: &[Bytes], places: &mut Vec<usize>, buf: &mut [u8]) -> Option<usize>
    requires room { 0 < length buf.old }
    requires known { length places.old.items ≤ length requests.now }
    ensures within { IfSome result (λ n. n ≤ length buf.old) }
    ensures bytes { IfSome result (λ n.
        ReceivesAt requests.now places.old.items places.new.items buf.new n) }
    ensures none { IfNone result (places.old.items ≡ []) }
    ensures kept { IfNone result (places.new.items ≡ places.old.items) }
{
    let mut place = places.pop()?;
    let request = requests[places.len()].as_slice();
    let n = copy_from(request, &mut place, buf);
    places.push_reserved(place);
    Some(n)
}

impl MemDoor {
    ghost use Rattle.connections.specs.MemDoor.{door_accepted, door_requests, door_sent, door_missed, door_faults, door_failing, door_calls, door_starved};

    /// Connections that request these texts, in order. It takes no memory.
    pub fn new(alloc: Global, requests: List<Bytes>, failing: List<u64>) -> MemDoor
        ensures accepted { door_accepted result ≡ [] }
        ensures requests { door_requests result ≡ requests }
        ensures sent { door_sent result ≡ [] }
        ensures missed { door_missed result ≡ 0 }
        ensures faults { door_faults result ≡ 0 }
        ensures failing { door_failing result ≡ failing }
        ensures calls { door_calls result ≡ 0 }
        ensures starved { door_starved result ≡ 0 }
    {
        MemDoor {
            alloc,
            requests,
            places: Vec::new(alloc),
            sent: List::from_vec(Vec::new(alloc)),
            failing: FailingCalls::new(failing),
            missed: 0,
            starved: 0,
        }
    }

    /// What was sent, one text a connection.
    pub fn sent(&self) -> &List<Bytes>
        ensures { result.now ≡ door_sent self.now }
    {
        &self.sent
    }

    /// How many calls failed for want of memory. The count never falls.
    pub fn starved(&self) -> u64
        ensures { result ≡ door_starved self.now }
    {
        self.starved
    }
}

impl Door for MemDoor {
    ghost use Rattle.connections.specs.Places.{accepted_of};
    ghost use Rattle.connections.specs.MemDoor.{door_accepted, door_requests, door_sent, door_missed, door_faults, door_failing, door_calls, door_starved, door_fails, AcceptsNext};

    ghost tells = { Unit {0} };

    ghost accepted = { λ d. accepted_of d.places.items d.requests d.sent };

    ghost count = { λ d. d.failing.faults };

    ghost misses = { λ d. d.missed };

    fn accept(&mut self) -> Result<(), Failed>
        ensures made { OnOk result (Accepts (door_accepted self.old) (door_accepted self.new)) }
        ensures kept { OnErr result (door_accepted self.new ≡ door_accepted self.old) }
        ensures cause { Causes (door_missed self.old) (door_missed self.new) result }
        ensures count_kept { door_faults self.new ≡ door_faults self.old }

        // The new connection is that of the next request, and nothing was sent on it.
        ensures next { OnOk result (AcceptsNext self.old self.new) }
        ensures sent { OnOk result (door_sent self.new ≡ door_sent self.old ++ [] ∷ []) }
        ensures requests_kept { OnErr result (door_requests self.new ≡ door_requests self.old) }
        ensures sent_kept { OnErr result (door_sent self.new ≡ door_sent self.old) }

        // It fails where its number is in the list and where no request is left, else only for want
        // of memory, which alone is counted as such. The count rises by one where it fails, and
        // else not.
        ensures fails { IsTrue (door_fails self.old) → IsErr result }
        ensures end { door_requests self.old ≡ [] → IsErr result }
        ensures works { door_fails self.old ≡ false → door_requests self.old ≢ []
            → WorksOrStarves (door_starved self.old) (door_starved self.new) result }
        ensures listed { IsTrue (door_fails self.old)
            → door_starved self.new ≡ door_starved self.old }
        ensures unrequested { door_requests self.old ≡ []
            → door_starved self.new ≡ door_starved self.old }
        ensures calls { door_calls self.new ≡ total (door_calls self.old) 1 }
        ensures failing { door_failing self.new ≡ door_failing self.old }
        ensures raised { OnErr result (door_missed self.new ≡ total (door_missed self.old) 1) }
    {
        if self.failing.next() || self.places.len() >= self.requests.as_slice().len() {
            self.missed = self.missed.saturating_add(1);
            return Err(Failed);
        }
        match open(self.alloc, &mut self.places, &mut self.sent) {
            Ok(()) => Ok(()),
            Err(why) => {
                starve(&mut self.starved, why);
                self.missed = self.missed.saturating_add(1);
                Err(Failed)
            }
        }
    }

    fn receive(&mut self, buf: &mut [u8]) -> Result<usize, Failed>
        requires { 0 < length buf.old }
        ensures within { IfOk result (λ n. n ≤ length buf.old) }
        ensures bytes { IfOk result (λ n.
            ReceivesOnLast (door_accepted self.old) (door_accepted self.new) buf.new n) }
        ensures kept { OnErr result (door_accepted self.new ≡ door_accepted self.old) }
        ensures cause { Causes (door_faults self.old) (door_faults self.new) result }
        ensures misses_kept { door_missed self.new ≡ door_missed self.old }

        // It fails exactly where its number is in the list and before the first connection. The
        // count rises by one where it fails, and else not.
        ensures fails { IsTrue (door_fails self.old) → IsErr result }
        ensures first { door_accepted self.old ≡ [] → IsErr result }
        ensures works { door_fails self.old ≡ false → door_accepted self.old ≢ [] → IsOk result }
        ensures requests_kept { door_requests self.new ≡ door_requests self.old }
        ensures sent_kept { door_sent self.new ≡ door_sent self.old }
        ensures calls { door_calls self.new ≡ total (door_calls self.old) 1 }
        ensures failing { door_failing self.new ≡ door_failing self.old }
        ensures raised { OnErr result (door_faults self.new ≡ total (door_faults self.old) 1) }
        ensures starved { door_starved self.new ≡ door_starved self.old }
    {
        if self.failing.next() {
            self.failing.fail();
            return Err(Failed);
        }
        let Some(n) = receive_last(self.requests.as_slice(), &mut self.places, buf) else {
            self.failing.fail();
            return Err(Failed);
        };
        Ok(n)
    }

    fn send(&mut self, bytes: &[u8]) -> Result<usize, Failed>
        requires { 0 < length bytes.now }
        ensures within { IfOk result (λ n. TakesSome n bytes.now) }
        ensures bytes { IfOk result (λ n.
            SendsOnLast (door_accepted self.old) (door_accepted self.new) (take n bytes.now)) }
        ensures kept { OnErr result (door_accepted self.new ≡ door_accepted self.old) }
        ensures cause { Causes (door_faults self.old) (door_faults self.new) result }
        ensures misses_kept { door_missed self.new ≡ door_missed self.old }

        // It fails where its number is in the list and before the first connection, else only for want of memory, which
        // alone is counted as such. The count rises by one where it fails, and else not.
        ensures fails { IsTrue (door_fails self.old) → IsErr result }
        ensures first { door_accepted self.old ≡ [] → IsErr result }
        ensures works { door_fails self.old ≡ false → door_accepted self.old ≢ []
            → WorksOrStarves (door_starved self.old) (door_starved self.new) result }
        ensures listed { IsTrue (door_fails self.old)
            → door_starved self.new ≡ door_starved self.old }
        ensures unconnected { door_accepted self.old ≡ []
            → door_starved self.new ≡ door_starved self.old }
        ensures sent { IfOk result (λ n.
            SendsLast (door_sent self.old) (door_sent self.new) (take n bytes.now)) }
        ensures sent_kept { OnErr result (door_sent self.new ≡ door_sent self.old) }
        ensures requests_kept { door_requests self.new ≡ door_requests self.old }
        ensures calls { door_calls self.new ≡ total (door_calls self.old) 1 }
        ensures failing { door_failing self.new ≡ door_failing self.old }
        ensures raised { OnErr result (door_faults self.new ≡ total (door_faults self.old) 1) }
    {
        if self.failing.next() || self.places.is_empty() {
            self.failing.fail();
            return Err(Failed);
        }
        match send_last(self.alloc, &mut self.sent, bytes) {
            Ok(()) => Ok(bytes.len()),
            Err(why) => {
                starve(&mut self.starved, why);
                self.failing.fail();
                Err(Failed)
            }
        }
    }

    fn missed(&self) -> u64 {
        self.missed
    }

    fn faults(&self) -> u64 {
        self.failing.faults
    }
}
