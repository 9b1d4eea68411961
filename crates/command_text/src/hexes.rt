// Bytes as lines give them, in hexadecimal digits.
ghost use Rattle.std.specs.Prelude.{◌≡◌, ◌≤◌, ◌↔◌, length, is_some, IfErr, IfOk, IfSome, IsSome, IsTrue};
ghost use Rattle.std.specs.List.{list_all};
ghost use Rattle.hex.specs.Hex.{is_hex_digit};
ghost use Rattle.small_types.specs.declared.limits.TheConstants as limits;
ghost use Rattle.command_text.specs.Lines.{HasLength, bytes_word, digit_bytes};

use hex::{FromHexError, decode};
use small_types::Bytes;
use small_types::limits::PIECE_LIMIT;
use std::alloc::{AllocError, Global};

// Whether the byte is a hexadecimal digit.
fn is_digit(byte: u8) -> bool
    ensures { result ≡ is_hex_digit byte }
{
    matches!(byte, b'0'..=b'9' | b'A'..=b'F' | b'a'..=b'f')
}

// Whether all bytes are.
fn are_digits(word: &[u8]) -> bool
    ensures { result ≡ list_all is_hex_digit word.now }
{
    word.iter().all(|byte| is_digit(*byte))
}

// Whether as many digits as the word has bytes spell 1 to 30,000 bytes.
fn has_length(word: &[u8]) -> bool
    ensures { IsTrue result ↔ HasLength word.now }
{
    !word.is_empty() && word.len() <= 2 * PIECE_LIMIT && word.len() % 2 == 0
}

// Whether the word spells 1 to 30,000 bytes. It takes no memory.
fn spells_bytes(word: &[u8]) -> bool
    ensures { result ≡ is_some (digit_bytes word.now) }
{
    if !has_length(word) {
        return false;
    }
    are_digits(word)
}

// The bytes that the word spells, where it spells as many. It is tested before memory is taken.
fn decode_bytes(alloc: Global, word: &[u8]) -> Result<Option<Bytes>, AllocError>
    ensures exact { IfOk result (λ bytes. bytes ≡ digit_bytes word.now) }
    ensures few { IfOk result (λ bytes. IfSome bytes (λ b. length b ≤ limits.PIECE_LIMIT)) }
    ensures memory { IfErr result (λ _. IsSome (digit_bytes word.now)) }
{
    if !spells_bytes(word) {
        return Ok(None);
    }
    match decode(alloc, word) {
        Ok(bytes) => Ok(Some(Bytes::from_vec(bytes))),
        Err(fault) => match fault {
            FromHexError::OutOfMemory => Err(AllocError),
            // Digits that were tested decode.
            _ => unreachable!(),
        },
    }
}

/// The bytes of the word: none for a dash, else the 1 to 30,000 that its hexadecimal digits in either
/// case spell, two for each. There may be no memory only for a word that is read.
#[tactic(auto, unfolding(crate::specs::Lines::bytes_word))]
pub(crate) fn read_bytes(alloc: Global, word: &[u8]) -> Result<Option<Bytes>, AllocError>
    ensures exact { IfOk result (λ bytes. bytes ≡ bytes_word word.now) }
    ensures few { IfOk result (λ bytes. IfSome bytes (λ b. length b ≤ limits.PIECE_LIMIT)) }
    ensures memory { IfErr result (λ _. IsSome (bytes_word word.now)) }
{
    if word == b"-".as_slice() {
        return Ok(Some(Bytes::from_vec(Vec::new(alloc))));
    }
    decode_bytes(alloc, word)
}
