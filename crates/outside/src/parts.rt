// Bytes that are received from a place on.
ghost use Rattle.std.specs.Prelude.{◌<◌, ◌≤◌, length, drop};
ghost use Rattle.outside.specs.Streams.{Consumes};

use small_types::{copy_front, rest_from};

/// Copies what stands from a place on to the front of the buffer, moves the place behind it, and answers how many bytes
/// these are.
pub fn copy_from(bytes: &[u8], place: &mut usize, buf: &mut [u8]) -> usize
    requires { 0 < length buf.old }
    ensures within { result ≤ length buf.old }
    ensures bytes { Consumes (drop place.old bytes.now) (drop place.new bytes.now) buf.new result }
    ensures inside { place.new ≤ length bytes.now }
{
    let start = (*place).min(bytes.len());
    let n = copy_front(rest_from(bytes, start), buf);
    *place = start + n;
    n
}
