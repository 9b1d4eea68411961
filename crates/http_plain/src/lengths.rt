// The length that the fields of an answer name.
ghost use Rattle.std.specs.Prelude.{◌≡◌, codes, length, All, if◌then◌else◌};
ghost use Rattle.std.specs.Str.{str_eq_ignore_ascii_case};
ghost use Rattle.httparse.specs.Spans.{IsHeaderWithin, header_bytes};
ghost use Rattle.http_plain.specs.Fields.{values_at};
ghost use Rattle.http_plain.specs.Exchange.{joined, named_by};
ghost use Rattle.small_types.specs.Decimal.{decimal_of};

use crate::fields::{is_named, value_of};
use httparse::spans::HeaderSpan;
use small_types::read_decimal;

// The length that fields name.
#[derive(Clone, Copy, Debug, PartialEq, Eq)]
pub(crate) enum Named {
    // No field names one.
    Nothing,
    // A field names none that is a number, or two fields name different ones.
    Unclear,
    // The one that they name.
    Length(u64),
}

// The length that a value and later values name.
fn join(first: Option<u64>, later: Named) -> Named
    ensures { result ≡ joined first later }
{
    match (first, later) {
        (Some(length), Named::Nothing) => Named::Length(length),
        (Some(length), Named::Length(other)) if length == other => Named::Length(other),
        _ => Named::Unclear,
    }
}

// The length that a field and later fields name.
fn join_field(bytes: &[u8], header: HeaderSpan, later: Named) -> Named
    requires { IsHeaderWithin (length bytes.now) header }
    ensures { result ≡
        (if str_eq_ignore_ascii_case (header_bytes bytes.now header).0 (codes "content-length")
        then joined (decimal_of (header_bytes bytes.now header).1) later else later) }
{
    if is_named(bytes, header, b"content-length") {
        return join(read_decimal(value_of(bytes, header)), later);
    }
    later
}

// The length that the fields name.
pub(crate) fn named_length(bytes: &[u8], headers: &[HeaderSpan]) -> Named
    requires { All (IsHeaderWithin (length bytes.now)) headers.now }
    ensures { result ≡ named_by (values_at bytes.now headers.now (codes "content-length")) }
{
    let mut named = Named::Nothing;
    let mut left = headers.len();
    while left > 0 {
        left -= 1;
        named = join_field(bytes, headers[left], named);
    }
    named
}
