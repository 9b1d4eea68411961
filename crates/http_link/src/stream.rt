// The bytes of a body as they come.
ghost use Rattle.std.specs.Prelude.{◌≡◌, ◌<◌, ◌≤◌, ◌++◌, length, drop, IfOk};
ghost use Rattle.outside.specs.Streams.{Causes, Consumes};
ghost use Rattle.connections.specs.Wire.{all_sent};
ghost use Rattle.http_link.specs.Pieces.{ReceivesAtMost};
ghost use Rattle.http_link.specs.States.{left_on};

use connections::Wire;
use outside::{Failed, copy_from};

// Puts the next bytes to the front of the buffer, and answers how many: those that came early, from a place on, and
// where there are none, what the wire receives. Zero is the end of both.
fn receive_next<W: Wire>(
    wire: &mut W,
    early: &[u8],
    at: &mut usize,
    buf: &mut [u8],
) -> Result<usize, Failed>
    requires { 0 < length buf.old }
    ensures within { IfOk result (λ n. n ≤ length buf.old) }
    ensures bytes { W.tells → IfOk result (λ n. Consumes
        (drop at.old early.now ++ left_on (W.present wire.old))
        (drop at.new early.now ++ left_on (W.present wire.new)) buf.new n) }
    ensures ahead { W.tells
        → IfOk result (ReceivesAtMost (W.present wire.old) (W.present wire.new)) }
    ensures sent { W.tells → all_sent (W.over wire.new) (W.present wire.new)
        ≡ all_sent (W.over wire.old) (W.present wire.old) }
    ensures cause { Causes (W.count wire.old) (W.count wire.new) result }
{
    if *at < early.len() {
        return Ok(copy_from(early, at, buf));
    }
    wire.receive(buf)
}

// The same, and at most so many bytes.
pub(crate) fn receive_most<W: Wire>(
    wire: &mut W,
    early: &[u8],
    at: &mut usize,
    most: u64,
    buf: &mut [u8],
) -> Result<usize, Failed>
    requires room { 0 < length buf.old }
    requires some { 0 < most }
    ensures within { IfOk result (λ n. n ≤ length buf.old) }
    ensures few { IfOk result (λ n. n ≤ most) }
    ensures bytes { W.tells → IfOk result (λ n. Consumes
        (drop at.old early.now ++ left_on (W.present wire.old))
        (drop at.new early.now ++ left_on (W.present wire.new)) buf.new n) }
    ensures ahead { W.tells
        → IfOk result (ReceivesAtMost (W.present wire.old) (W.present wire.new)) }
    ensures sent { W.tells → all_sent (W.over wire.new) (W.present wire.new)
        ≡ all_sent (W.over wire.old) (W.present wire.old) }
    ensures cause { Causes (W.count wire.old) (W.count wire.new) result }
{
    let room = (buf.len() as u64).min(most) as usize;
    receive_next(wire, early, at, &mut buf[..room])
}
