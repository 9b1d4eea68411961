// Reading digests, from the left.
ghost use Rattle.std.specs.Prelude.{◌≤◌, length, IfOk, IfErr};
ghost use Rattle.record_fields.specs.Readers.{Gives, IsBad, IsFaultWithin};
ghost use Rattle.record_fields.specs.Parts.{algorithm_at, digest_at, digests_at, digests_of};

use crate::CodecFault;
use crate::byte_readers::value_here;
use crate::field_readers::bad;
use crate::form_readers::byte_here;
use crate::item_values::DigestField;
use crate::numbers::{SHA1_NUMBER, SHA256_NUMBER, SHA384_NUMBER, SHA512_NUMBER};
use crate::readable::{Readable, list_here};
use digest_list::{Algorithm, Digest, DigestList};
use small_types::List;
use small_types::limits::HASH_LIMIT;
use std::alloc::Global;

// The algorithm whose number stands at the place, and the place behind it.
#[tactic(auto, unfolding(crate::specs::Parts::algorithm_at))]
fn algorithm_here(bytes: &[u8], place: usize) -> Result<(Algorithm, usize), CodecFault>
    requires { place ≤ length bytes.now }
    ensures exact { Gives result (algorithm_at bytes.now place) }
    ensures next { IfOk result (λ x. x.1 ≤ length bytes.now) }
    ensures fault { IfErr result (IsFaultWithin (length bytes.now)) }
    ensures free { IfErr result IsBad }
{
    let (byte, next) = byte_here(bytes, place)?;
    match byte {
        SHA1_NUMBER => Ok((Algorithm::Sha1, next)),
        SHA256_NUMBER => Ok((Algorithm::Sha256, next)),
        SHA384_NUMBER => Ok((Algorithm::Sha384, next)),
        SHA512_NUMBER => Ok((Algorithm::Sha512, next)),
        _ => Err(bad(place)),
    }
}

impl Readable for DigestField {
    type Value = Digest;

    ghost use Rattle.record_fields.specs.Parts.{digest_at};
    ghost use Rattle.record_fields.specs.Spelled.{digest_field};
    ghost use Rattle.digest_list.specs.Digest.{IsSized};

    ghost field = { digest_field };

    ghost fits = { IsSized };

    ghost at = { digest_at };

    #[tactic(auto, unfolding(crate::specs::Parts::digest_at))]
    fn read_here(alloc: Global, bytes: &[u8], place: usize) -> Result<(Digest, usize), CodecFault> {
        let (algorithm, next) = algorithm_here(bytes, place)?;
        let (value, next) = value_here(alloc, bytes, next, algorithm.size())?;
        Ok((Digest { algorithm, value }, next))
    }

    fn reads_as_spelled() {}
}

// The list of these digests, where there are some.
fn some_digests(
    bytes: &[u8],
    place: usize,
    digests: List<Digest>,
    next: usize,
) -> Result<(DigestList, usize), CodecFault>
    requires few { length digests ≤ HASH_LIMIT }
    requires place { place ≤ length bytes.now }
    requires next { next ≤ length bytes.now }
    ensures exact { Gives result (digests_of place digests next) }
    ensures next { IfOk result (λ x. x.1 ≤ length bytes.now) }
    ensures fault { IfErr result (IsFaultWithin (length bytes.now)) }
{
    match DigestList::from_list(digests) {
        Some(list) => Ok((list, next)),
        None => Err(bad(place)),
    }
}

// The 1 to 8 digests at the place, and the place behind them.
#[tactic(auto, unfolding(crate::specs::Parts::digests_at))]
pub(crate) fn digests_here(
    alloc: Global,
    bytes: &[u8],
    place: usize,
) -> Result<(DigestList, usize), CodecFault>
    requires { place ≤ length bytes.now }
    ensures exact { Gives result (digests_at bytes.now place) }
    ensures next { IfOk result (λ x. x.1 ≤ length bytes.now) }
    ensures fault { IfErr result (IsFaultWithin (length bytes.now)) }
{
    let (digests, next) = list_here::<DigestField>(alloc, bytes, place, HASH_LIMIT)?;
    some_digests(bytes, place, digests, next)
}
