// The answer to a client.
ghost use Rattle.std.specs.Prelude.{◌≡◌, ◌++◌, ◌+◌, ◌≤◌, ℕ, List, [], length, take, drop, nat_lt, vec_capacity, IfErr, if◌then◌else◌};
ghost use Rattle.http_plain.specs.declared.exchange.TheConstants.{ANSWER_PIECE};
ghost use Rattle.http_plain.specs.declared.fault.ExchangeFault.TheVariants.{Cut, HeadTooLong};
ghost use Rattle.http_plain.specs.Begin.{Answers, IsOwn};
ghost use Rattle.http_plain.specs.Head.{IsEnough, IsNear};
ghost use Rattle.http_plain.specs.declared.head.TheConstants.{HEAD_LIMIT};

use crate::fault::ExchangeFault;
use crate::head::{HEAD_LIMIT, end_within};
use crate::response::length_of_head;
use small_types::Bytes;

/// An exchange whose answer came as far as its head.
#[derive(Drop, Debug)]
pub struct Begun {
    /// The length of the body in bytes.
    pub length: u64,
    /// The first bytes of the body that came with the head, at most `length`.
    pub early: Bytes,
}

// The first of the bytes, at most so many, in the room that is there for them.
fn first_bytes(room: Vec<u8>, bytes: &[u8], limit: u64) -> Bytes
    requires empty { room.items ≡ [] }
    requires fits { length bytes.now ≤ vec_capacity room }
    ensures { result ≡ take limit bytes.now }
{
    let mut early = room;
    let end = if limit < bytes.len() as u64 {
        limit as usize
    } else {
        bytes.len()
    };
    let _ = early.extend_from_slice(&bytes[..end]);
    Bytes::from_vec(early)
}

// Why an answer of so many bytes without the end of a head gives no body.
fn unended(length: usize) -> ExchangeFault
    ensures value { result ≡ (if nat_lt length HEAD_LIMIT then Cut else HeadTooLong) }
    ensures own { IsOwn result }
{
    if length < HEAD_LIMIT {
        return ExchangeFault::Cut;
    }
    ExchangeFault::HeadTooLong
}

// The exchange over an answer whose first bytes these are, with a head that ends there and gives that length.
fn begin_at(room: Vec<u8>, front: &[u8], end: usize, size: u64) -> Begun
    requires within { end ≤ length front.now }
    requires empty { room.items ≡ [] }
    requires fits { length front.now ≤ end + vec_capacity room }
    ensures length { result.length ≡ size }
    ensures early { result.early ≡ take size (drop end front.now) }
{
    Begun {
        length: size,
        early: first_bytes(room, &front[end..], size),
    }
}

// What an answer comes to whose first bytes these are, no piece of which came once the end of the head had come. It
// takes no memory but the room that is there for the first bytes of the body.
pub(crate) fn begin(room: Vec<u8>, front: &[u8]) -> Result<Begun, ExchangeFault>
    requires few { length front.now ≤ HEAD_LIMIT }
    requires near { IsNear ANSWER_PIECE front.now }
    requires empty { room.items ≡ [] }
    requires fits { ANSWER_PIECE ≤ vec_capacity room }
    ensures answers { (left : List ℕ) → IsEnough front.now left
        → Answers (front.now ++ left) left result }
    ensures own { IfErr result IsOwn }
{
    let Some(end) = end_within(front) else {
        return Err(unended(front.len()));
    };
    match length_of_head(&front[..end]) {
        Ok(size) => Ok(begin_at(room, front, end, size)),
        Err(fault) => Err(fault),
    }
}
