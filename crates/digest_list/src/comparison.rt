ghost use Rattle.std.specs.Prelude.{◌≡◌, ◌↔◌, ◌<◌, ◌^◌, IsTrue, IsNone, IfOk, IfSome, length};
ghost use Rattle.std.specs.List.{position};
ghost use Rattle.digest_list.specs.Difference.{AreDistinct, difference_of as first_difference};
ghost use Rattle.digest_list.specs.Matches.{Matches};
ghost use Rattle.digest_list.specs.Wrong.{is_wrong};

use crate::hashers::{Hashers, Sums};
use crate::{Checker, Difference, Digest, DigestList};
use small_types::CopyFault;
use std::alloc::Global;

// The place of the first digest that is not the one that was made under its algorithm.
pub(crate) fn first_wrong(list: &[Digest], sums: &Sums) -> Option<usize>
    ensures { result ≡ position (is_wrong sums.now) list.now }
{
    list.iter().position(|digest| digest.value.as_slice() != sums.of(digest.algorithm))
}

/// Whether the bytes have that length, and each digest of the list is theirs. It takes no memory, and hashes the
/// bytes once for each algorithm of the list. There are fewer than 2^61 bytes.
pub fn matches(list: &DigestList, size: u64, bytes: &[u8]) -> bool
    requires { length bytes.now < 2 ^ 61 }
    ensures { IsTrue result ↔ Matches list.now size bytes.now }
{
    if bytes.len() as u64 != size {
        return false;
    }
    let digests = list.as_slice();
    let mut hashers = Hashers::new(digests);
    hashers.update(bytes);
    first_wrong(digests, &hashers.finish()).is_none()
}

/// How the bytes differ from the size and the list: the sizes where they differ, and then no memory is asked for, else
/// the first digest of the list that is not that of the bytes. `None` exactly where they match. It fails only for want
/// of memory. Bytes of that size are fewer than 2^61.
pub fn difference_of(
    alloc: Global,
    list: &DigestList,
    size: u64,
    bytes: &[u8],
) -> Result<Option<Difference>, CopyFault>
    requires { length bytes.now ≡ size → size < 2 ^ 61 }
    ensures exact { IfOk result (λ d. d ≡ first_difference list.now size bytes.now) }
    ensures matches { IfOk result (λ d. IsNone d ↔ Matches list.now size bytes.now) }
    ensures shown { IfOk result (λ d. IfSome d AreDistinct) }
{
    let found = bytes.len() as u64;
    if found != size {
        return Ok(Some(Difference::Size {
            listed: size,
            found,
        }));
    }
    let mut checker = Checker::new(alloc, list, size)?;
    checker.update(bytes);
    Ok(checker.finish())
}
