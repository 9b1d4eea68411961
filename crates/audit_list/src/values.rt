// Digests in lower-case hexadecimal digits.
ghost use Rattle.std.specs.Prelude.{◌≡◌, ◌≤◌, length, true, false, Ok, IfOk, IsErr};
ghost use Rattle.std.specs.Str.{bytes_eq};
ghost use Rattle.hex.specs.Hex.{decode_sized, encode_lower};
ghost use Rattle.digest_list.specs.Algorithm.{size_of};
ghost use Rattle.audit_list.specs.Words.{bytes_of};

use digest_list::Algorithm;
use hex::{decode_to_slice, encode_to_slice};
use small_types::Bytes;
use std::alloc::{AllocError, Global};

// The length of the longest digests in bytes.
const LONGEST: usize = 64;

// Whether the word is what is written for so few bytes.
fn is_written(bytes: &[u8], word: &[u8]) -> bool
    requires { length bytes.now ≤ 64 }
    ensures { result ≡ bytes_eq (encode_lower bytes.now) word.now }
{
    let mut room = [0; 2 * LONGEST];
    let digits = &mut room[..2 * bytes.len()];
    if encode_to_slice(bytes, digits).is_err() {
        unreachable!();
    }
    *digits == *word
}

// The bytes that the digits of the word stand for, where it has digits for just this room.
fn decode_here(_algorithm: Algorithm, word: &[u8], out: &mut [u8]) -> bool
    requires { length out.old ≡ size_of _algorithm }
    ensures ok { result ≡ true → decode_sized word.now (size_of _algorithm) ≡ Ok out.new }
    ensures err { result ≡ false → IsErr (decode_sized word.now (size_of _algorithm)) }
{
    decode_to_slice(word, out).is_ok()
}

/// The digest of the algorithm's length that the word spells.
pub(crate) fn read_value(
    alloc: Global,
    algorithm: Algorithm,
    word: &[u8],
) -> Result<Option<Bytes>, AllocError>
    ensures { IfOk result (λ value. value ≡ bytes_of (size_of algorithm) word.now) }
{
    let mut room = [0; LONGEST];
    let bytes = &mut room[..algorithm.size()];
    if !decode_here(algorithm, word, bytes) {
        return Ok(None);
    }
    if !is_written(bytes, word) {
        return Ok(None);
    }
    Ok(Some(Bytes::from_slice(alloc, bytes)?))
}
