// Parts of slices.
ghost use Rattle.std.specs.Prelude.{◌≡◌, ◌≤◌, ◌++◌, length, min, take, drop};

/// What stands from a place on.
pub fn rest_from(bytes: &[u8], place: usize) -> &[u8]
    requires { place ≤ length bytes.now }
    ensures { result.now ≡ drop place bytes.now }
{
    &bytes[place..]
}

/// Copies as many bytes as fit to the front of the buffer, and answers how many.
pub fn copy_front(from: &[u8], buf: &mut [u8]) -> usize
    ensures count { result ≡ min (length from.now) (length buf.old) }
    ensures bytes { buf.new ≡ take result from.now ++ drop result buf.old }
{
    let n = from.len().min(buf.len());
    buf[..n].copy_from_slice(&from[..n]);
    n
}
