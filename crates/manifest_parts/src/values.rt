// The values of attributes. A refusal has the local name of the attribute.
ghost use Rattle.std.specs.Prelude.{◌≡◌};
ghost use Rattle.manifest_parts.specs.Values.{needed as needed_value, filled as filled_value, within as value_within, defaulted as defaulted_value, truth as truth_value, valid as valid_value, number_in as number_read, number_of, size_of, version_value, truth_of};
ghost use Rattle.manifest_parts.specs.Outcome.{Gives, text_at, maybe_text};

use crate::fault::ManifestFault;
use crate::refusals::{bad_value, missing, text_of};
use identity::Version;
use small_types::limits::DIGIT_LIMIT;
use small_types::{Duplicate, Text, are_digits, parse_digits};
use std::alloc::Global;

/// A value that must be there: `Missing` where it is not.
pub fn needed<'a>(
    alloc: Global,
    what: &str,
    value: Option<&'a Text>,
) -> Result<&'a Text, ManifestFault>
    ensures { Gives text_at result (needed_value what.now (maybe_text value.entry)) }
{
    match value {
        Some(value) => Ok(value),
        None => missing(alloc, what),
    }
}

/// A copy of a value of one byte or more and at most so many: `BadValue` for any other.
#[tactic(auto, unfolding(crate::specs::Values::filled))]
pub fn filled(alloc: Global, limit: usize, what: &str, value: &Text) -> Result<Text, ManifestFault>
    ensures { Gives (λ t. t) result (filled_value limit what.now value.now) }
{
    let length = value.as_bytes().len();
    if length == 0 || length > limit {
        return bad_value(alloc, what);
    }
    Ok(value.copy(alloc)?)
}

/// A copy of a value of at most so many bytes, which is empty where there is none: `BadValue` for a longer one.
#[tactic(auto, unfolding(crate::specs::Values::within))]
pub fn within(
    alloc: Global,
    limit: usize,
    what: &str,
    value: Option<&Text>,
) -> Result<Text, ManifestFault>
    ensures { Gives (λ t. t) result (value_within limit what.now (maybe_text value.entry)) }
{
    let Some(value) = value else {
        return text_of(alloc, "");
    };
    if value.as_bytes().len() > limit {
        return bad_value(alloc, what);
    }
    Ok(value.copy(alloc)?)
}

/// A copy of a value of at most so many bytes, or of the default where there is none or it is empty: `BadValue` for a
/// longer one.
#[tactic(auto, unfolding(crate::specs::Values::defaulted))]
pub fn defaulted(
    alloc: Global,
    limit: usize,
    what: &str,
    default: &str,
    value: Option<&Text>,
) -> Result<Text, ManifestFault>
    ensures { Gives (λ t. t) result
        (defaulted_value limit what.now default.now (maybe_text value.entry)) }
{
    let given = within(alloc, limit, what, value)?;
    if given.as_bytes().is_empty() {
        return text_of(alloc, default);
    }
    Ok(given)
}

/// What was read of the value: `BadValue` where it is out of its form.
pub fn valid<T>(alloc: Global, what: &str, read: Option<T>) -> Result<T, ManifestFault>
    ensures { Gives (λ x. x) result (valid_value what.now read) }
{
    match read {
        Some(value) => Ok(value),
        None => bad_value(alloc, what),
    }
}

// What `true`, `1`, `false` and `0` say.
#[tactic(auto, unfolding(crate::specs::Values::truth_of))]
fn truth_in(value: &str) -> Option<bool>
    ensures { result ≡ truth_of value.now }
{
    if value == "true" || value == "1" {
        return Some(true);
    }
    if value == "false" || value == "0" {
        return Some(false);
    }
    None
}

/// A truth value, `true` or `1` and `false` or `0`, or the default where there is none: `BadValue` for any other text.
pub fn truth(
    alloc: Global,
    what: &str,
    default: bool,
    value: Option<&Text>,
) -> Result<bool, ManifestFault>
    ensures { Gives (λ b. b) result (truth_value what.now default (maybe_text value.entry)) }
{
    match value {
        Some(value) => valid(alloc, what, truth_in(value.as_str())),
        None => Ok(default),
    }
}

// A number of one to so many decimal digits that is at most the limit.
#[tactic(auto, unfolding(crate::specs::Values::number_in))]
fn number_in(digits: usize, limit: u64, text: &[u8]) -> Option<u64>
    ensures { result ≡ number_read digits limit text.now }
{
    if text.is_empty() || text.len() > digits || !are_digits(text) {
        return None;
    }
    match parse_digits(text) {
        Some(number) if number <= limit => Some(number),
        _ => None,
    }
}

/// A number of one to so many decimal digits that is at most the limit: `BadValue` for any other text.
pub fn number(
    alloc: Global,
    digits: usize,
    limit: u64,
    what: &str,
    value: &Text,
) -> Result<u64, ManifestFault>
    ensures { Gives (λ n. n) result (number_of digits limit what.now value.now) }
{
    valid(alloc, what, number_in(digits, limit, value.as_bytes()))
}

/// A size in bytes: one to nineteen decimal digits, and at most the limit. `Missing` where there is
/// none, `BadValue` for any other text, both of `size`.
pub fn size(alloc: Global, limit: u64, value: Option<&Text>) -> Result<u64, ManifestFault>
    ensures { Gives (λ n. n) result (size_of limit (maybe_text value.entry)) }
{
    let value = needed(alloc, "size", value)?;
    number(alloc, DIGIT_LIMIT, limit, "size", value)
}

/// A version: `BadValue` for any other text.
pub fn version(alloc: Global, what: &str, value: &Text) -> Result<Version, ManifestFault>
    ensures { Gives (λ v. v) result (version_value what.now value.now) }
{
    match Version::read(value.as_bytes()) {
        Ok(version) => Ok(version),
        Err(_) => bad_value(alloc, what),
    }
}
