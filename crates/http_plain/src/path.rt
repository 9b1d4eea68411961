// The file that a target names.
ghost use Rattle.std.specs.Prelude.{◌≡◌, ◌==◌, ◌<◌, length, position, IfOk, OnErr, IsSome, MatchOption};
ghost use Rattle.std.specs.Result.{result_ok};
ghost use Rattle.percent_encoding.specs.Percent.{percent_decode as decoded};
ghost use Rattle.small_types.specs.declared.limits.TheConstants.{NAME_LIMIT};
ghost use Rattle.small_types.specs.Name.{name_of};
ghost use Rattle.http_plain.specs.Path.{name_in_path as name_at, without_query as cut_at};

use arrayvec::ArrayVec;
use percent_encoding::percent_decode;
use small_types::limits::NAME_LIMIT;
use small_types::{Name, NameFault};
use std::alloc::{AllocError, Global};

// Where the first `?` stands.
fn query_place(target: &[u8]) -> Option<usize>
    ensures { result ≡ position (λ b. b == 63) target.now }
{
    target.iter().position(|b| *b == b'?')
}

// The bytes up to the first `?`.
fn without_query(target: &[u8]) -> &[u8]
    ensures { result.now ≡ cut_at target.now }
{
    match query_place(target) {
        Some(place) => &target[..place],
        None => target,
    }
}

// The bytes with each escape read, where they are no more than a name may have.
fn decode(bytes: &[u8]) -> Option<ArrayVec<u8, NAME_LIMIT>>
    ensures { MatchOption result (NAME_LIMIT < length (decoded bytes.now))
        (λ text. text.items ≡ decoded bytes.now) }
{
    let mut text = ArrayVec::new();
    for byte in percent_decode(bytes) {
        if text.is_full() {
            return None;
        }
        text.push(byte);
    }
    Some(text)
}

// The name that the bytes spell, if they spell one.
fn read_name(alloc: Global, bytes: &[u8]) -> Result<Option<Name>, AllocError>
    ensures name { IfOk result (λ name. name ≡ result_ok (name_of bytes.now)) }
    ensures memory { OnErr result (IsSome (result_ok (name_of bytes.now))) }
{
    match Name::read(alloc, bytes) {
        Ok(name) => Ok(Some(name)),
        Err(NameFault::Bad) => Ok(None),
        Err(NameFault::Memory) => Err(AllocError),
    }
}

// The name that the bytes spell with each escape read, if they spell one.
fn read_escaped(alloc: Global, bytes: &[u8]) -> Result<Option<Name>, AllocError>
    ensures name { IfOk result (λ name. name ≡ result_ok (name_of (decoded bytes.now))) }
    ensures memory { OnErr result (IsSome (result_ok (name_of (decoded bytes.now)))) }
{
    match decode(bytes) {
        Some(text) => read_name(alloc, &text),
        None => Ok(None),
    }
}

/// The file name in a target: what follows its first `/`, up to a `?`, with each escape read. `None` comes exactly
/// where the target does not begin with `/` or where that is no file name. There may be no memory only for a name.
#[tactic(auto, unfolding(crate::specs::Path::name_in_path))]
pub fn name_in_path(alloc: Global, target: &[u8]) -> Result<Option<Name>, AllocError>
    ensures name { IfOk result (λ name. name ≡ name_at target.now) }
    ensures memory { OnErr result (IsSome (name_at target.now)) }
{
    if target.is_empty() || target[0] != b'/' {
        return Ok(None);
    }
    read_escaped(alloc, without_query(&target[1..]))
}
