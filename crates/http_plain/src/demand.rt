// What a request asks for.
ghost use Rattle.std.specs.Prelude.{◌≡◌, ◌++◌, ℕ, List, length, nat_lt, IfOk, OnErr, if◌then◌else◌};
ghost use Rattle.http_plain.specs.declared.head.TheConstants.{HEAD_LIMIT};
ghost use Rattle.http_plain.specs.declared.refusals.Refusal.TheVariants.{BadRequest, FieldsTooLarge};
ghost use Rattle.http_plain.specs.Head.{Whole, IsEnough, front_of};
ghost use Rattle.http_plain.specs.Served.{Asks, AsksForFile, Demands, DemandsFile, IsFile, is_get as get_named, is_served, lacks_host as host_lacks, demand_of as demand_at};

use crate::borrowed_request::{BorrowedRequest, borrow_request};
use crate::head::{HEAD_LIMIT, end_within};
use crate::path::name_in_path;
use crate::refusals::Refusal;
use small_types::Name;
use std::alloc::{AllocError, Global};

/// What a request asks for, as far as it decides alone.
#[derive(Drop, Debug)]
pub enum Demand {
    /// The request is empty: there is no answer.
    Silent,
    /// The answer to this refusal.
    Refused { why: Refusal },
    /// The file of this name: `whole` with its bytes, else without them.
    File { name: Name, whole: bool },
}

// Whether a request of HTTP/1.1 has other than one `Host`.
fn lacks_host(asked: &BorrowedRequest) -> bool
    ensures { result ≡ host_lacks asked.now }
{
    asked.version == 1 && asked.hosts != 1
}

// Whether the method is GET.
fn is_get(method: &[u8]) -> bool
    ensures { result ≡ get_named method.now }
{
    method == b"GET".as_slice()
}

// Whether the method is GET or HEAD.
fn is_answered(method: &[u8]) -> bool
    ensures { result ≡ is_served method.now }
{
    is_get(method) || method == b"HEAD".as_slice()
}

/// What a whole head asks for. There may be no memory only for the name of a file that is asked for.
#[tactic(auto, unfolding(crate::specs::Served::demand_of))]
pub fn demand_of(alloc: Global, asked: &BorrowedRequest) -> Result<Demand, AllocError>
    ensures demand { IfOk result (λ demand. demand ≡ demand_at asked.now) }
    ensures memory { OnErr result (IsFile (demand_at asked.now)) }
{
    if lacks_host(asked) {
        return Ok(Demand::Refused {
            why: Refusal::BadRequest,
        });
    }
    if !is_answered(asked.method) {
        return Ok(Demand::Refused {
            why: Refusal::MethodNotAllowed,
        });
    }
    match name_in_path(alloc, asked.target)? {
        Some(name) => Ok(Demand::File {
            name,
            whole: is_get(asked.method),
        }),
        None => Ok(Demand::Refused {
            why: Refusal::BadRequest,
        }),
    }
}

// What bytes that end with the end of a head ask for.
fn demand_of_head(alloc: Global, head: &[u8]) -> Result<Demand, AllocError>
    ensures demand { IfOk result (Demands (Whole head.now)) }
    ensures memory { OnErr result (DemandsFile (Whole head.now)) }
{
    match borrow_request(head) {
        Some(asked) => demand_of(alloc, &asked),
        None => Ok(Demand::Refused {
            why: Refusal::BadRequest,
        }),
    }
}

// Why a request of so many bytes without the end of a head is refused.
fn unended(length: usize) -> Refusal
    ensures { result ≡ (if nat_lt length HEAD_LIMIT then BadRequest else FieldsTooLarge) }
{
    if length < HEAD_LIMIT {
        return Refusal::BadRequest;
    }
    Refusal::FieldsTooLarge
}

// What a request of one byte or more asks for.
fn demand_of_front(alloc: Global, front: &[u8]) -> Result<Demand, AllocError>
    ensures demand { IfOk result (Demands (front_of front.now)) }
    ensures memory { OnErr result (DemandsFile (front_of front.now)) }
{
    match end_within(front) {
        Some(end) => demand_of_head(alloc, &front[..end]),
        None => Ok(Demand::Refused {
            why: unended(front.len()),
        }),
    }
}

/// What a request asks for that begins with these bytes, which are enough: the whole request, or its first 65,536
/// bytes, or fewer with the end of its head among them. There may be no memory only where it asks for a file.
pub fn demand_in(alloc: Global, front: &[u8]) -> Result<Demand, AllocError>
    ensures demand { IfOk result (λ demand. (left : List ℕ) → IsEnough front.now left
        → Asks (front.now ++ left) demand) }
    ensures memory { OnErr result ((left : List ℕ) → IsEnough front.now left
        → AsksForFile (front.now ++ left)) }
{
    if front.is_empty() {
        return Ok(Demand::Silent);
    }
    demand_of_front(alloc, front)
}
