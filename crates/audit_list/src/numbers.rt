// The numbers of a line: decimal digits without a leading zero.
ghost use Rattle.std.specs.Prelude.{◌≡◌};
ghost use Rattle.audit_list.specs.Words.{index_of, number_of, written};

use itoa::Buffer;
use small_types::{are_digits, parse_digits};

// The number, where the word is what is written for it.
fn as_written(number: u64, word: &[u8]) -> Option<u64>
    ensures { result ≡ written number word.now }
{
    let mut buffer = Buffer::new();
    if buffer.format(number).as_bytes() != word {
        return None;
    }
    Some(number)
}

/// The number below 2^64 that the word spells.
#[tactic(auto, unfolding(crate::specs::Words::number_of))]
pub(crate) fn read_number(word: &[u8]) -> Option<u64>
    ensures { result ≡ number_of word.now }
{
    if word.is_empty() || !are_digits(word) {
        return None;
    }
    as_written(parse_digits(word)?, word)
}

/// The number below 2^32 that the word spells.
pub(crate) fn read_index(word: &[u8]) -> Option<u32>
    ensures { result ≡ index_of word.now }
{
    let number = read_number(word)?;
    if number > u64::from(u32::MAX) {
        return None;
    }
    Some(number as u32)
}
