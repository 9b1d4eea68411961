// The fields of a head, by where their names and values stand.
ghost use Rattle.std.specs.Prelude.{◌≡◌, ◌≤◌, ◌&&◌, not, length, All, if◌then◌else◌};
ghost use Rattle.std.specs.List.{list_all};
ghost use Rattle.std.specs.Str.{bytes_eq, str_eq_ignore_ascii_case};
ghost use Rattle.httparse.specs.Spans.{IsHeaderWithin, header_bytes};
ghost use Rattle.http_plain.specs.Fields.{values_at};

use httparse::spans::HeaderSpan;

// Whether the field has this name, without regard to case.
pub(crate) fn is_named(bytes: &[u8], header: HeaderSpan, name: &[u8]) -> bool
    requires { IsHeaderWithin (length bytes.now) header }
    ensures { result ≡ str_eq_ignore_ascii_case (header_bytes bytes.now header).0 name.now }
{
    header.name.of(bytes).eq_ignore_ascii_case(name)
}

// The value of a field.
pub(crate) fn value_of<'b>(bytes: &'b [u8], header: HeaderSpan) -> &'b [u8]
    requires { IsHeaderWithin (length bytes.now) header }
    ensures { result.now ≡ (header_bytes bytes.now header).1 }
{
    header.value.of(bytes)
}

// One where the field has this name, else zero.
fn count_one(bytes: &[u8], header: HeaderSpan, name: &[u8]) -> usize
    requires { IsHeaderWithin (length bytes.now) header }
    ensures { result ≡ (if str_eq_ignore_ascii_case (header_bytes bytes.now header).0 name.now
        then 1 else 0) }
{
    if is_named(bytes, header, name) { 1 } else { 0 }
}

// Whether the field has this name and another value.
fn differs(bytes: &[u8], header: HeaderSpan, name: &[u8], value: &[u8]) -> bool
    requires { IsHeaderWithin (length bytes.now) header }
    ensures { result ≡ (str_eq_ignore_ascii_case (header_bytes bytes.now header).0 name.now
        && not (bytes_eq (header_bytes bytes.now header).1 value.now)) }
{
    is_named(bytes, header, name) && value_of(bytes, header) != value
}

// How many fields have this name.
pub(crate) fn count_named(bytes: &[u8], headers: &[HeaderSpan], name: &[u8]) -> usize
    requires { All (IsHeaderWithin (length bytes.now)) headers.now }
    ensures count { result ≡ length (values_at bytes.now headers.now name.now) }
    ensures within { result ≤ length headers.now }
{
    let mut count = 0;
    for header in headers {
        count += count_one(bytes, *header, name);
    }
    count
}

// Whether each field of this name has this value.
pub(crate) fn all_are(bytes: &[u8], headers: &[HeaderSpan], name: &[u8], value: &[u8]) -> bool
    requires { All (IsHeaderWithin (length bytes.now)) headers.now }
    ensures { result ≡ list_all (λ given. bytes_eq given value.now)
        (values_at bytes.now headers.now name.now) }
{
    for header in headers {
        if differs(bytes, *header, name, value) {
            return false;
        }
    }
    true
}
