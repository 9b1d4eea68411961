// Numbers of lines and words.
ghost use Rattle.std.specs.Prelude.{◌≡◌, ◌≤◌, IfSome};
ghost use Rattle.small_types.specs.declared.limits.TheConstants as limits;
ghost use Rattle.command_text.specs.Numbers.{count_of, number_of};

use small_types::limits::{NUMBER_LIMIT, PIECE_LIMIT};
use small_types::read_decimal;

/// The number that the bytes spell: 1 to 19 decimal digits, leading zeros among them, of a value of at most 2^62.
/// `None` comes exactly at any other bytes. It takes no memory.
#[tactic(auto, unfolding(crate::specs::Numbers::number_of))]
pub fn read_number(bytes: &[u8]) -> Option<u64>
    ensures exact { result ≡ number_of bytes.now }
    ensures small { IfSome result (λ n. n ≤ limits.NUMBER_LIMIT) }
{
    let number = read_decimal(bytes)?;
    if number > NUMBER_LIMIT {
        return None;
    }
    Some(number)
}

/// The number of bytes that the word of a `read` asks for: the same, of a value of at most 30,000. It
/// takes no memory.
#[tactic(auto, unfolding(crate::specs::Numbers::count_of))]
pub(crate) fn read_count(bytes: &[u8]) -> Option<u64>
    ensures exact { result ≡ count_of bytes.now }
    ensures small { IfSome result (λ n. n ≤ limits.PIECE_LIMIT) }
{
    let count = read_decimal(bytes)?;
    if count > PIECE_LIMIT as u64 {
        return None;
    }
    Some(count)
}
