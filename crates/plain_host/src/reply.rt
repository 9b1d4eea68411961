// Sending the bytes of an answer.
ghost use Rattle.std.specs.Prelude.{◌≡◌, ◌≢◌, ◌++◌, [], OnOk, OnErr, if◌then◌else◌};
ghost use Rattle.outside.specs.Streams.{Causes};
ghost use Rattle.plain_host.specs.Prepared.{answer_in};
ghost use Rattle.plain_host.specs.Connection.{Serving, SendsPart};

use crate::answer::Prepared;
use connections::Door;
use outside::Failed;

// Sends all the bytes on the present connection. Where it fails a first part of them was sent, and not all.
fn send_all<G: Door>(door: &mut G, bytes: &[u8]) -> Result<(), Failed>
    requires { G.tells → G.accepted door.old ≢ [] }
    ensures done { G.tells
        → OnOk result (Serving (G.accepted door.old) (G.accepted door.new) [] bytes.now) }
    ensures part { G.tells
        → OnErr result (SendsPart (G.accepted door.old) (G.accepted door.new) bytes.now) }
    ensures cause { Causes (G.count door.old) (G.count door.new) result }
    ensures misses { G.misses door.new ≡ G.misses door.old }
{
    let mut rest = bytes;
    while !rest.is_empty() {
        let n = door.send(rest)?;
        rest = &rest[n..];
    }
    Ok(())
}

// Sends these bytes, and then those.
fn send_both<G: Door>(door: &mut G, first: &[u8], rest: &[u8]) -> Result<(), Failed>
    requires { G.tells → G.accepted door.old ≢ [] }
    ensures done { G.tells → OnOk result
        (Serving (G.accepted door.old) (G.accepted door.new) [] (first.now ++ rest.now)) }
    ensures part { G.tells → OnErr result
        (SendsPart (G.accepted door.old) (G.accepted door.new) (first.now ++ rest.now)) }
    ensures cause { Causes (G.count door.old) (G.count door.new) result }
    ensures misses { G.misses door.new ≡ G.misses door.old }
{
    send_all(door, first)?;
    send_all(door, rest)
}

// The file's bytes, where they follow.
fn rest_of(follows: bool, file: &[u8]) -> &[u8]
    ensures { result.now ≡ (if follows then file.now else []) }
{
    if follows { file } else { &[] }
}

/// Sends an answer on the present connection: what goes out first, and the file where it follows.
pub(crate) fn send_answer<G: Door>(
    door: &mut G,
    prepared: &Prepared,
    file: &[u8],
) -> Result<(), Failed>
    requires { G.tells → G.accepted door.old ≢ [] }
    ensures done { G.tells → OnOk result (Serving (G.accepted door.old) (G.accepted door.new) []
        (answer_in prepared.now file.now).bytes) }
    ensures part { G.tells → OnErr result (SendsPart (G.accepted door.old) (G.accepted door.new)
        (answer_in prepared.now file.now).bytes) }
    ensures cause { Causes (G.count door.old) (G.count door.new) result }
    ensures misses { G.misses door.new ≡ G.misses door.old }
{
    match prepared {
        Prepared::Nothing => send_all(door, &[]),
        Prepared::Refused { why } => send_all(door, why.text()),
        Prepared::Found { first, follows } => {
            send_both(door, first.as_slice(), rest_of(*follows, file))
        }
    }
}
