// Reading truth values and rules, from the left.
ghost use Rattle.std.specs.Prelude.{◌≤◌, length, IfOk, IfErr};
ghost use Rattle.record_fields.specs.Readers.{Gives, IsBad, IsFaultWithin};
ghost use Rattle.record_fields.specs.Parts.{age_at, byte_at, rule_at, truth_at};

use crate::CodecFault;
use crate::field_readers::{bad, u64_here};
use crate::numbers::{AGE_RULE, BEFORE_RULE, FALSE_BYTE, NEVER_RULE, TRUE_BYTE};
use manifests::Rule;

// The byte at the place, and the place behind it.
#[tactic(auto, unfolding(crate::specs::Parts::byte_at))]
pub(crate) fn byte_here(bytes: &[u8], place: usize) -> Result<(u8, usize), CodecFault>
    requires { place ≤ length bytes.now }
    ensures exact { Gives result (byte_at bytes.now place) }
    ensures next { IfOk result (λ x. x.1 ≤ length bytes.now) }
    ensures fault { IfErr result (IsFaultWithin (length bytes.now)) }
    ensures free { IfErr result IsBad }
{
    if place < bytes.len() {
        Ok((bytes[place], place + 1))
    } else {
        Err(bad(place))
    }
}

// The truth value at the place, a byte, and the place behind it. The fault is at the
// place, where another byte or none is there.
#[tactic(auto, unfolding(crate::specs::Parts::truth_at))]
pub(crate) fn truth_here(bytes: &[u8], place: usize) -> Result<(bool, usize), CodecFault>
    requires { place ≤ length bytes.now }
    ensures exact { Gives result (truth_at bytes.now place) }
    ensures next { IfOk result (λ x. x.1 ≤ length bytes.now) }
    ensures fault { IfErr result (IsFaultWithin (length bytes.now)) }
    ensures free { IfErr result IsBad }
{
    let (byte, next) = byte_here(bytes, place)?;
    match byte {
        FALSE_BYTE => Ok((false, next)),
        TRUE_BYTE => Ok((true, next)),
        _ => Err(bad(place)),
    }
}

// The seconds of a rule, at the place.
#[tactic(auto, unfolding(crate::specs::Parts::age_at))]
fn read_age(bytes: &[u8], place: usize) -> Result<(Rule, usize), CodecFault>
    requires { place ≤ length bytes.now }
    ensures exact { Gives result (age_at bytes.now place) }
    ensures next { IfOk result (λ x. x.1 ≤ length bytes.now) }
    ensures fault { IfErr result (IsFaultWithin (length bytes.now)) }
    ensures free { IfErr result IsBad }
{
    let (seconds, next) = u64_here(bytes, place)?;
    Ok((Rule::Age { seconds }, next))
}

// The rule at the place, the number of its variant and its field, and the place behind it. The
// fault is at the place, where no variant has the number, or at the field.
#[tactic(auto, unfolding(crate::specs::Parts::rule_at))]
pub(crate) fn rule_here(bytes: &[u8], place: usize) -> Result<(Rule, usize), CodecFault>
    requires { place ≤ length bytes.now }
    ensures exact { Gives result (rule_at bytes.now place) }
    ensures next { IfOk result (λ x. x.1 ≤ length bytes.now) }
    ensures fault { IfErr result (IsFaultWithin (length bytes.now)) }
    ensures free { IfErr result IsBad }
{
    let (byte, next) = byte_here(bytes, place)?;
    match byte {
        NEVER_RULE => Ok((Rule::Never, next)),
        BEFORE_RULE => Ok((Rule::Before, next)),
        AGE_RULE => read_age(bytes, next),
        _ => Err(bad(place)),
    }
}
