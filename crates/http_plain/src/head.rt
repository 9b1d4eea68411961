// Where the head of a message ends.
ghost use Rattle.std.specs.Prelude.{◌≡◌, ◌+◌, ◌≤◌, length, take, drop, nat_eq, None, IsTrue, IfSome};
ghost use Rattle.std.specs.List.{starts_with};
ghost use Rattle.http_plain.specs.Head.{head_end, head_mark};
ghost use Rattle.http_plain.specs.declared.head.TheConstants.{HEAD_LIMIT};

/// The most bytes that a head has, up to and including its end.
pub const HEAD_LIMIT: usize = 65_536;

/// The most fields that a head has.
pub const FIELD_LIMIT: usize = 64;

// Whether an end of a head begins at the place.
fn is_mark_at(text: &[u8], place: usize) -> bool
    requires { place ≤ length text.now }
    ensures value { result ≡ starts_with nat_eq (drop place text.now) head_mark }
    ensures within { IsTrue result → place + 4 ≤ length text.now }
{
    text[place..].starts_with(b"\r\n\r\n".as_slice())
}

// The place behind the first end of a head, of which none begins before `from`.
fn find_from(text: &[u8], from: usize) -> Option<usize>
    requires within { from ≤ length text.now }
    requires none { head_end (take (from + 3) text.now) ≡ None }
    ensures { result ≡ head_end text.now }
{
    for place in from..text.len() {
        if is_mark_at(text, place) {
            return Some(place + 4);
        }
    }
    None
}

/// The place behind the first CR LF CR LF of the text, where it has one. The first `looked` bytes are known to hold
/// none, and at most three of them are looked at again.
pub fn find_head_end(text: &[u8], looked: usize) -> Option<usize>
    requires within { looked ≤ length text.now }
    requires none { head_end (take looked text.now) ≡ None }
    ensures { result ≡ head_end text.now }
{
    find_from(text, looked.saturating_sub(3))
}

/// The place behind the first CR LF CR LF of the first 65,536 bytes.
pub(crate) fn end_within(bytes: &[u8]) -> Option<usize>
    ensures end { result ≡ head_end (take HEAD_LIMIT bytes.now) }
    ensures within { IfSome result (λ end. end ≤ length bytes.now) }
{
    find_head_end(&bytes[..bytes.len().min(HEAD_LIMIT)], 0)
}
