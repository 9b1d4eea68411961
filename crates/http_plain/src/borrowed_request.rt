// The head of a request, as it stands in the bytes that came.
ghost use Rattle.std.specs.Prelude.{◌≡◌, ◌≤◌, ◌^◌, Some, length, codes, All, MatchOption};
ghost use Rattle.httparse.specs.Spans.{IsHeaderWithin};
ghost use Rattle.http_plain.specs.Asked.{AsksBy, IsNoRequest};
ghost use Rattle.http_plain.specs.declared.head.TheConstants.{FIELD_LIMIT};
ghost use Rattle.http_plain.specs.Fields.{values_at};
ghost use Rattle.http_plain.specs.Spans.{FindsRequest};

use crate::fields::count_named;
use crate::head::FIELD_LIMIT;
use httparse::Status;
use httparse::spans::{EMPTY_HEADER_SPAN, HeaderSpan, RequestSpans, parse_request};
use std::marker::Model;

/// What the head of a request says, with the method and the target where they stand in its bytes. Contracts see it as
/// what an `Asked` of the same values says.
#[derive(Drop, Debug)]
pub struct BorrowedRequest<'b> {
    pub method: &'b [u8],
    pub target: &'b [u8],
    /// The minor version: 1 for HTTP/1.1.
    pub version: u8,
    /// How many `Host` fields there are.
    pub hosts: u32,
}

impl<'b> Model for BorrowedRequest<'b> {
    ghost use Rattle.http_plain.specs.declared.request.Asked.{Asked};
    ghost use Rattle.http_plain.specs.Asked.{asked_parts};

    ghost Value = { Asked };

    ghost view = { λ a. asked_parts a.method.now a.target.now a.version a.hosts };
}

// Where the parts of a request head are, if the bytes are one and nothing else.
fn request_spans(bytes: &[u8], headers: &mut [HeaderSpan]) -> Option<RequestSpans>
    requires { length headers.old ≡ FIELD_LIMIT }
    ensures { MatchOption result (IsNoRequest bytes.now) (FindsRequest bytes.now headers.new) }
{
    let Ok(Status::Complete(spans)) = parse_request(bytes, headers) else {
        return None;
    };
    if spans.len != bytes.len() {
        return None;
    }
    Some(spans)
}

// How many of the fields are `Host`.
fn count_hosts(bytes: &[u8], headers: &[HeaderSpan]) -> u32
    requires within { All (IsHeaderWithin (length bytes.now)) headers.now }
    requires few { length headers.now ≤ FIELD_LIMIT }
    ensures { result ≡ length (values_at bytes.now headers.now (codes "host")) }
{
    count_named(bytes, headers, b"host") as u32
}

// What the head says whose parts the spans cover.
fn request_at<'b>(
    bytes: &'b [u8],
    headers: &[HeaderSpan],
    spans: RequestSpans,
) -> BorrowedRequest<'b>
    requires { FindsRequest bytes.now headers.now spans }
    ensures { AsksBy bytes.now (Some result) }
{
    BorrowedRequest {
        method: spans.method.of(bytes),
        target: spans.path.of(bytes),
        version: spans.version,
        hosts: count_hosts(bytes, &headers[..spans.headers]),
    }
}

/// Reads one request head of at most 64 fields, which the bytes are as a whole. `None` comes exactly where they are
/// none. It takes no memory: what it answers borrows from the bytes.
pub fn borrow_request(bytes: &[u8]) -> Option<BorrowedRequest<'_>>
    ensures { AsksBy bytes.now result }
{
    let mut headers = [EMPTY_HEADER_SPAN; FIELD_LIMIT];
    let Some(spans) = request_spans(bytes, &mut headers) else {
        return None;
    };
    Some(request_at(bytes, &headers, spans))
}
