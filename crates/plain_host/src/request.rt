// Receiving as much of a request as decides what it asks for.
ghost use Rattle.std.specs.Prelude.{◌≡◌, ◌≢◌, ◌<◌, ◌≤◌, ◌+◌, List, [], length, take, IfOk, OnErr};
ghost use Rattle.outside.specs.Streams.{Causes};
ghost use Rattle.connections.specs.Door.{Accepted};
ghost use Rattle.http_plain.specs.declared.head.TheConstants.{HEAD_LIMIT};
ghost use Rattle.plain_host.specs.declared.request.TheConstants.{REQUEST_PIECE};
ghost use Rattle.plain_host.specs.Connection.{BreaksOff, Serving, TakesAll, TakesFront};

use connections::Door;
use http_plain::{HEAD_LIMIT, find_head_end};
use outside::Failed;

/// The most bytes of a request that are received at once.
pub const REQUEST_PIECE: usize = 8_192;

// Receives at most a piece of what the present connection has left, behind the first `used` bytes of the buffer, and
// answers how many bytes came. Zero is the end.
fn receive_piece<G: Door>(door: &mut G, front: &mut [u8], used: usize) -> Result<usize, Failed>
    requires room { used < length front.old }
    requires whole { length front.old ≡ HEAD_LIMIT }
    ensures taken { G.tells → IfOk result (λ n. (start : List Accepted)
        → Serving start (G.accepted door.old) (take used front.old) []
        → Serving start (G.accepted door.new) (take (used + n) front.new) []) }
    ensures end { G.tells → IfOk result (λ n. n ≡ 0 → (start : List Accepted)
        → Serving start (G.accepted door.old) (take used front.old) []
        → TakesAll start (G.accepted door.new) (take (used + n) front.new)) }
    ensures still { G.tells → OnErr result (G.accepted door.new ≡ G.accepted door.old) }
    ensures fits { IfOk result (λ n. used + n ≤ length front.new) }
    ensures few { IfOk result (λ n. n ≤ REQUEST_PIECE) }
    ensures kept { take used front.new ≡ take used front.old }
    ensures cause { Causes (G.count door.old) (G.count door.new) result }
    ensures misses { G.misses door.new ≡ G.misses door.old }
{
    let end = front.len().min(used + REQUEST_PIECE);
    door.receive(&mut front[used..end])
}

// Receives the first bytes of the present connection's request into the buffer: all of it, or 65,536 bytes, or fewer
// with the end of the head among them. It answers how many they are. No piece is received once that end has come.
pub(crate) fn receive_front<G: Door>(door: &mut G, front: &mut [u8]) -> Result<usize, Failed>
    requires there { G.tells → G.accepted door.old ≢ [] }
    requires whole { length front.old ≡ HEAD_LIMIT }
    ensures front { G.tells → IfOk result (λ n.
        TakesFront (G.accepted door.old) (G.accepted door.new) (take n front.new)) }
    ensures few { IfOk result (λ n. n ≤ HEAD_LIMIT) }
    ensures broken { G.tells
        → OnErr result (BreaksOff (G.accepted door.old) (G.accepted door.new)) }
    ensures cause { Causes (G.count door.old) (G.count door.new) result }
    ensures misses { G.misses door.new ≡ G.misses door.old }
{
    let mut used = 0;
    while used < front.len() {
        let n = receive_piece(door, front, used)?;
        let looked = used;
        used += n;
        if n == 0 {
            return Ok(used);
        }
        if find_head_end(&front[..used], looked).is_some() {
            return Ok(used);
        }
    }
    Ok(used)
}
