// How bytes differ, as a line says it.
ghost use Rattle.std.specs.Prelude.{◌≡◌, IfOk};
ghost use Rattle.small_types.specs.Cuts.{parts_between};
ghost use Rattle.audit_list.specs.Words.{algorithm_named, cause_of, digest_parts, size_parts};

use crate::numbers::read_number;
use crate::parts::{three_parts, two_parts};
use crate::values::read_value;
use digest_list::{Algorithm, Difference};
use small_types::cut_once;
use std::alloc::{AllocError, Global};

// The algorithm of that name.
fn named_algorithm(name: &[u8]) -> Option<Algorithm>
    ensures { result ≡ algorithm_named name.now }
{
    if name == b"sha1".as_slice() {
        return Some(Algorithm::Sha1);
    }
    if name == b"sha256".as_slice() {
        return Some(Algorithm::Sha256);
    }
    if name == b"sha384".as_slice() {
        return Some(Algorithm::Sha384);
    }
    if name == b"sha512".as_slice() {
        return Some(Algorithm::Sha512);
    }
    None
}

// Another size, by the parts behind the word for it.
fn read_sizes(parts: &[u8]) -> Option<Difference>
    ensures { result ≡ size_parts (parts_between 58 parts.now) }
{
    let (listed, found) = two_parts(parts, b':')?;
    let listed = read_number(listed)?;
    let found = read_number(found)?;
    Some(Difference::Size { listed, found })
}

// Another digest, by the parts behind the word for it.
fn read_values(alloc: Global, parts: &[u8]) -> Result<Option<Difference>, AllocError>
    ensures { IfOk result (λ cause. cause ≡ digest_parts (parts_between 58 parts.now)) }
{
    let Some((name, listed, found)) = three_parts(parts, b':') else {
        return Ok(None);
    };
    let Some(algorithm) = named_algorithm(name) else {
        return Ok(None);
    };
    let Some(listed) = read_value(alloc, algorithm, listed)? else {
        return Ok(None);
    };
    let Some(found) = read_value(alloc, algorithm, found)? else {
        return Ok(None);
    };
    Ok(Some(Difference::Digest {
        algorithm,
        listed,
        found,
    }))
}

/// How bytes differ, as the word says it.
pub(crate) fn read_cause(alloc: Global, word: &[u8]) -> Result<Option<Difference>, AllocError>
    ensures { IfOk result (λ cause. cause ≡ cause_of (parts_between 58 word.now)) }
{
    let Some((kind, parts)) = cut_once(word, b':') else {
        return Ok(None);
    };
    if kind == b"size".as_slice() {
        return Ok(read_sizes(parts));
    }
    if kind == b"differs".as_slice() {
        return read_values(alloc, parts);
    }
    Ok(None)
}
