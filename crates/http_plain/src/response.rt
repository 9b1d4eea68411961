// The head of an answer.
ghost use Rattle.std.specs.Prelude.{◌≡◌, ◌≤◌, codes, length, take, All, IfErr, MatchOption, map};
ghost use Rattle.httparse.specs.Spans.{IsHeaderWithin, header_bytes};
ghost use Rattle.http_plain.specs.Begin.{IsOwn};
ghost use Rattle.http_plain.specs.Exchange.{GivesBy, IsNoResponse, given, is_encoded as encoded_by};
ghost use Rattle.http_plain.specs.Head.{Whole};
ghost use Rattle.http_plain.specs.declared.head.TheConstants.{FIELD_LIMIT};
ghost use Rattle.http_plain.specs.Spans.{FindsResponse};

use crate::fault::ExchangeFault;
use crate::fields::{all_are, count_named};
use crate::head::FIELD_LIMIT;
use crate::lengths::{Named, named_length};
use crate::status::{STATUS_NOT_FOUND, STATUS_OK};
use httparse::Status;
use httparse::spans::{EMPTY_HEADER_SPAN, HeaderSpan, ResponseSpans, parse_response};

// Where the parts of a response head are, if the bytes are one and nothing else.
fn response_spans(bytes: &[u8], headers: &mut [HeaderSpan]) -> Option<ResponseSpans>
    requires { length headers.old ≡ FIELD_LIMIT }
    ensures { MatchOption result (IsNoResponse bytes.now) (FindsResponse bytes.now headers.new) }
{
    let Ok(Status::Complete(spans)) = parse_response(bytes, headers) else {
        return None;
    };
    if spans.len != bytes.len() {
        return None;
    }
    Some(spans)
}

// Whether a field says that the body is encoded.
#[tactic(auto, unfolding(crate::specs::Exchange::is_encoded))]
fn is_encoded(bytes: &[u8], headers: &[HeaderSpan]) -> bool
    requires { All (IsHeaderWithin (length bytes.now)) headers.now }
    ensures { result ≡ encoded_by (map (header_bytes bytes.now) headers.now) }
{
    count_named(bytes, headers, b"transfer-encoding") > 0
        || !all_are(bytes, headers, b"content-encoding", b"identity")
}

// What an answer with this code gives.
fn judge(code: u16, encoded: bool, named: Named) -> Result<u64, ExchangeFault>
    ensures value { result ≡ given code encoded named }
    ensures own { IfErr result IsOwn }
{
    if named == Named::Unclear {
        return Err(ExchangeFault::Malformed);
    }
    if code == STATUS_NOT_FOUND {
        return Err(ExchangeFault::Missing);
    }
    if code != STATUS_OK {
        return Err(ExchangeFault::Status { code });
    }
    if encoded {
        return Err(ExchangeFault::Encoded);
    }
    match named {
        Named::Length(length) => Ok(length),
        _ => Err(ExchangeFault::NoLength),
    }
}

// What the head gives whose parts the spans cover.
fn judge_spans(
    bytes: &[u8],
    headers: &[HeaderSpan],
    spans: ResponseSpans,
) -> Result<u64, ExchangeFault>
    requires { FindsResponse bytes.now headers.now spans }
    ensures value { GivesBy (Whole bytes.now) result }
    ensures own { IfErr result IsOwn }
{
    let fields = &headers[..spans.headers];
    judge(
        spans.code,
        is_encoded(bytes, fields),
        named_length(bytes, fields),
    )
}

// What bytes that end with the end of a head give.
pub(crate) fn length_of_head(head: &[u8]) -> Result<u64, ExchangeFault>
    ensures value { GivesBy (Whole head.now) result }
    ensures own { IfErr result IsOwn }
{
    let mut headers = [EMPTY_HEADER_SPAN; FIELD_LIMIT];
    let Some(spans) = response_spans(head, &mut headers) else {
        return Err(ExchangeFault::Malformed);
    };
    judge_spans(head, &headers, spans)
}
