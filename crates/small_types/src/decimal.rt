// Numbers in decimal digits.
ghost use Rattle.std.specs.Prelude.{◌≡◌, ◌<◌, ◌≤◌, length, IsTrue, None, Some, nat_lt, if◌then◌else◌};
ghost use Rattle.std.specs.Char.{is_ascii_digit};
ghost use Rattle.std.specs.List.{list_all};
ghost use Rattle.std.specs.Str.Parse.{digits_value};
ghost use Rattle.small_types.specs.Decimal.{decimal_of};

use crate::limits::DIGIT_LIMIT;

/// Whether each byte is a decimal digit.
pub fn are_digits(bytes: &[u8]) -> bool
    ensures { result ≡ list_all is_ascii_digit bytes.now }
{
    bytes.iter().all(|b| b.is_ascii_digit())
}

/// The number that digits write, where it is below 2^64. `are_digits` tells whether bytes are digits. It takes no
/// memory.
pub fn parse_digits(digits: &[u8]) -> Option<u64>
    requires digits { IsTrue (list_all is_ascii_digit digits.now) }
    requires some { 0 < length digits.now }
    ensures { result
        ≡ (if nat_lt 0xffff_ffff_ffff_ffff (digits_value 10 digits.now) then None else Some
        (digits_value 10 digits.now)) }
{
    let Ok(text) = str::from_utf8(digits) else {
        unreachable!();
    };
    text.parse().ok()
}

/// The number of 1 to 19 decimal digits, leading zeros among them. `None` comes exactly at any other bytes. It takes
/// no memory.
#[tactic(auto, unfolding(crate::specs::Decimal::decimal_of))]
pub fn read_decimal(bytes: &[u8]) -> Option<u64>
    ensures { result ≡ decimal_of bytes.now }
{
    if bytes.is_empty() || bytes.len() > DIGIT_LIMIT || !are_digits(bytes) {
        return None;
    }
    parse_digits(bytes)
}
