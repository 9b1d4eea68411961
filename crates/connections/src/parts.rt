// What both ends share: what is sent last.
ghost use Rattle.std.specs.Prelude.{◌≡◌, ◌<◌, length, OnOk, OnErr};
ghost use Rattle.connections.specs.Wire.{SendsLast};

use small_types::{Bytes, List};
use std::alloc::{AllocError, Global};
use std::mem::replace;

// Adds bytes to the last piece. An `Err` changes nothing.
fn extend_last(pieces: &mut Vec<Bytes>, bytes: &[u8]) -> Result<(), AllocError>
    requires { 0 < length pieces.old.items }
    ensures done { OnOk result (SendsLast pieces.old.items pieces.new.items bytes.now) }
    ensures kept { OnErr result (pieces.new.items ≡ pieces.old.items) }
{
    let Some(mut last) = pieces.pop() else {
        unreachable!();
    };
    let done = last.extend(bytes);
    pieces.push_reserved(last);
    done
}

// Adds bytes to what was sent last. An `Err` changes nothing.
pub(crate) fn send_last(
    alloc: Global,
    sent: &mut List<Bytes>,
    bytes: &[u8],
) -> Result<(), AllocError>
    requires { 0 < length sent.old }
    ensures done { OnOk result (SendsLast sent.old sent.new bytes.now) }
    ensures kept { OnErr result (sent.new ≡ sent.old) }
{
    let mut pieces = replace(sent, List::from_vec(Vec::new(alloc))).into_vec();
    let done = extend_last(&mut pieces, bytes);
    *sent = List::from_vec(pieces);
    done
}
