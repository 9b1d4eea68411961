// The exchange of a client over a wire.
ghost use Rattle.std.specs.Prelude.{◌≡◌, ◌≢◌, ◌<◌, ◌≤◌, ◌++◌, ◌+◌, Some, Err, length, take, drop, string_bytes, IfOk, OnOk, OnErr};
ghost use Rattle.outside.specs.Streams.{Causes};
ghost use Rattle.connections.specs.Wire.{Made, all_sent};
ghost use Rattle.http_plain.specs.declared.exchange.TheConstants.{ANSWER_PIECE};
ghost use Rattle.http_plain.specs.declared.fault.ExchangeFault.TheVariants.{Memory as no_memory};
ghost use Rattle.http_plain.specs.declared.head.TheConstants.{HEAD_LIMIT};
ghost use Rattle.http_plain.specs.Begin.{ExchangesBy, FailsCounted, IsRead, IsReadFront, IsReadPart, IsSent, IsSentPart};
ghost use Rattle.http_plain.specs.Exchange.{host_value as host_given, request_text as text_of_request};
ghost use Rattle.http_plain.specs.Flat.{flat_request};
ghost use Rattle.http_plain.specs.Head.{IsNear};

use crate::begun::{Begun, begin};
use crate::fault::ExchangeFault;
use crate::head::{HEAD_LIMIT, find_head_end};
use connections::Wire;
use outside::Failed;
use small_types::Target;
use std::alloc::{AllocError, Global};

/// The most bytes of an answer that are received at once.
pub const ANSWER_PIECE: usize = 4_096;

/// The port that a request's `Host` does not name.
pub const HTTP_PORT: u16 = 80;

// The host, with the port where it is not 80.
fn host_value(alloc: Global, target: &Target) -> Result<String, AllocError>
    ensures { IfOk result (λ text. string_bytes text ≡ host_given target.now) }
{
    let host = target.host.as_str();
    let port = target.port;
    if port == HTTP_PORT {
        return String::from_str(alloc, host);
    }
    format!(in alloc; "{host}:{port}")
}

// Three texts behind one another.
fn join(alloc: Global, first: &str, second: &str, third: &str) -> Result<String, AllocError>
    ensures { IfOk result (λ text. string_bytes text ≡ first.now ++ second.now ++ third.now) }
{
    format!(in alloc; "{first}{second}{third}")
}

// The request for a path on a host.
fn request_in(alloc: Global, path: &str, host: &str) -> Result<String, AllocError>
    ensures { IfOk result (λ text. string_bytes text ≡ flat_request path.now host.now) }
{
    let start = join(alloc, "GET ", path, " HTTP/1.1\r\nHost: ")?;
    let end = "\r\nAccept-Encoding: identity\r\nConnection: close\r\n\r\n";
    join(alloc, start.as_str(), host, end)
}

// The whole request for a target.
#[tactic(auto, using(crate::proofs::Flat_text::flat_is))]
fn request_text(alloc: Global, target: &Target) -> Result<String, AllocError>
    ensures { IfOk result (λ text. string_bytes text ≡ text_of_request target.now) }
{
    let host = host_value(alloc, target)?;
    Ok(request_in(alloc, target.path.as_str(), host.as_str())?)
}

// The bytes behind the first so many.
fn bytes_behind(bytes: &[u8], count: usize) -> &[u8]
    requires { count ≤ length bytes.now }
    ensures { result.now ≡ drop count bytes.now }
{
    &bytes[count..]
}

// Sends all the bytes on the present connection. Where it fails a first part of them was sent, and not all.
fn send_all<W: Wire>(wire: &mut W, bytes: &[u8]) -> Result<(), Failed>
    ensures sent { W.tells → OnOk result ((made : Made) → W.present wire.old ≡ Some made
        → IsSent made (W.present wire.new) bytes.now) }
    ensures part { W.tells → OnErr result ((made : Made) → W.present wire.old ≡ Some made
        → IsSentPart made (W.present wire.new) bytes.now) }
    ensures over { W.tells → W.over wire.new ≡ W.over wire.old }
    ensures cause { Causes (W.count wire.old) (W.count wire.new) result }
{
    let mut rest = bytes;
    while !rest.is_empty() {
        let n = wire.send(rest)?;
        rest = bytes_behind(rest, n);
    }
    Ok(())
}

// Receives at most a piece of what the present connection has left, behind the first `used` bytes of the buffer, and
// answers how many bytes came. Zero is the end.
fn receive_piece<W: Wire>(wire: &mut W, front: &mut [u8], used: usize) -> Result<usize, Failed>
    requires room { used < length front.old }
    requires whole { length front.old ≡ HEAD_LIMIT }
    ensures read { W.tells → IfOk result (λ n. (made : Made)
        → IsRead made (W.present wire.old) (take used front.old)
        → IsRead made (W.present wire.new) (take (used + n) front.new)) }
    ensures end { W.tells → IfOk result (λ n. n ≡ 0 → (made : Made)
        → IsRead made (W.present wire.old) (take used front.old)
        → made.left ≡ take used front.old) }
    ensures still { W.tells → OnErr result (W.present wire.new ≡ W.present wire.old) }
    ensures fits { IfOk result (λ n. used + n ≤ length front.new) }
    ensures few { IfOk result (λ n. n ≤ ANSWER_PIECE) }
    ensures kept { take used front.new ≡ take used front.old }
    ensures over { W.tells → W.over wire.new ≡ W.over wire.old }
    ensures cause { Causes (W.count wire.old) (W.count wire.new) result }
{
    let end = front.len().min(used + ANSWER_PIECE);
    wire.receive(&mut front[used..end])
}

// Receives the first bytes of an answer into the buffer: as many as hold the end of its head, or 65,536, or all of it.
// It answers how many they are.
fn receive_front<W: Wire>(wire: &mut W, front: &mut [u8]) -> Result<usize, Failed>
    requires { length front.old ≡ HEAD_LIMIT }
    ensures front { W.tells → IfOk result (λ n. (made : Made) → W.present wire.old ≡ Some made
        → IsReadFront made (W.present wire.new) (take n front.new)) }
    ensures part { W.tells → OnErr result ((made : Made) → W.present wire.old ≡ Some made
        → IsReadPart made (W.present wire.new)) }
    ensures few { IfOk result (λ n. n ≤ HEAD_LIMIT) }
    ensures near { IfOk result (λ n. IsNear ANSWER_PIECE (take n front.new)) }
    ensures over { W.tells → W.over wire.new ≡ W.over wire.old }
    ensures cause { Causes (W.count wire.old) (W.count wire.new) result }
{
    let mut used = 0;
    while used < front.len() {
        let n = receive_piece(wire, front, used)?;
        let looked = used;
        used += n;
        if n == 0 {
            return Ok(used);
        }
        if find_head_end(&front[..used], looked).is_some() {
            return Ok(used);
        }
    }
    Ok(used)
}

/// Connects to the target's host, asks it for the target, and reads the head of its answer. It gives the length of the
/// body and the bytes of it that came with the head; the others are left to receive. At most 65,536 bytes of the answer
/// are received, and no piece, of at most 4,096 bytes, once the end of the head has come.
///
/// `ReadFault` comes where connecting or receiving failed, before the answer's head was whole, `WriteFault` where
/// sending did, and `Memory` where there was none for the request or for the first bytes of a body; over a wire that
/// tells, each other error comes exactly where the answer gives it. Any result but the two faults leaves the wire's
/// count, so no failed call is passed over. All memory is taken before the wire is used: after `Memory` the wire is as
/// it was.
pub fn ask_wire<W: Wire>(
    alloc: Global,
    wire: &mut W,
    target: &Target,
) -> Result<Begun, ExchangeFault>
    ensures exchange { W.tells → ExchangesBy target.now (W.present wire.new) result }
    ensures one { W.tells → result ≢ Err no_memory
        → W.over wire.new ≡ all_sent (W.over wire.old) (W.present wire.old) }
    ensures memory { result ≡ Err no_memory → wire.new ≡ wire.old }
    ensures cause { FailsCounted (W.count wire.old) (W.count wire.new) result }
{
    let request = request_text(alloc, target)?;
    let room = Vec::with_capacity(alloc, ANSWER_PIECE)?;
    let Ok(()) = wire.connect(&target.host, target.port) else {
        return Err(ExchangeFault::ReadFault);
    };
    let Ok(()) = send_all(wire, request.as_bytes()) else {
        return Err(ExchangeFault::WriteFault);
    };
    let mut front = [0; HEAD_LIMIT];
    let Ok(n) = receive_front(wire, &mut front) else {
        return Err(ExchangeFault::ReadFault);
    };
    begin(room, &front[..n])
}
