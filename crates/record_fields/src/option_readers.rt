// Reading optional values, from the left.
ghost use Rattle.std.specs.Prelude.{◌≤◌, length, true, IfOk, IfErr};
ghost use Rattle.record_fields.specs.Readers.{Gives, IsBad, IsFaultWithin, text_at, version_at};
ghost use Rattle.record_fields.specs.Parts.{option_at, option_of};

use crate::CodecFault;
use crate::field_readers::{text_here, version_here};
use crate::form_readers::truth_here;
use crate::readable::Readable;
use identity::Version;
use small_types::Text;
use std::alloc::Global;

// The version at the place, which is there.
fn some_version(bytes: &[u8], place: usize) -> Result<(Option<Version>, usize), CodecFault>
    requires { place ≤ length bytes.now }
    ensures exact { Gives result (option_of version_at true bytes.now place) }
    ensures next { IfOk result (λ x. x.1 ≤ length bytes.now) }
    ensures fault { IfErr result (IsFaultWithin (length bytes.now)) }
    ensures free { IfErr result IsBad }
{
    let (version, next) = version_here(bytes, place)?;
    Ok((Some(version), next))
}

// The version at the place, behind the byte that says whether there is one, and the place behind
// it.
#[tactic(auto, unfolding(crate::specs::Parts::option_at))]
pub(crate) fn version_option_here(
    bytes: &[u8],
    place: usize,
) -> Result<(Option<Version>, usize), CodecFault>
    requires { place ≤ length bytes.now }
    ensures exact { Gives result (option_at version_at bytes.now place) }
    ensures next { IfOk result (λ x. x.1 ≤ length bytes.now) }
    ensures fault { IfErr result (IsFaultWithin (length bytes.now)) }
    ensures free { IfErr result IsBad }
{
    let (is_there, next) = truth_here(bytes, place)?;
    match is_there {
        false => Ok((None, next)),
        true => some_version(bytes, next),
    }
}

// The text at the place, which is there.
fn some_text(
    alloc: Global,
    bytes: &[u8],
    place: usize,
    limit: usize,
) -> Result<(Option<Text>, usize), CodecFault>
    requires { place ≤ length bytes.now }
    ensures exact { Gives result (option_of (text_at limit) true bytes.now place) }
    ensures next { IfOk result (λ x. x.1 ≤ length bytes.now) }
    ensures fault { IfErr result (IsFaultWithin (length bytes.now)) }
{
    let (text, next) = text_here(alloc, bytes, place, limit)?;
    Ok((Some(text), next))
}

// The text at the place, behind the byte that says whether there is one, and the place behind it.
#[tactic(auto, unfolding(crate::specs::Parts::option_at))]
pub(crate) fn text_option_here(
    alloc: Global,
    bytes: &[u8],
    place: usize,
    limit: usize,
) -> Result<(Option<Text>, usize), CodecFault>
    requires { place ≤ length bytes.now }
    ensures exact { Gives result (option_at (text_at limit) bytes.now place) }
    ensures next { IfOk result (λ x. x.1 ≤ length bytes.now) }
    ensures fault { IfErr result (IsFaultWithin (length bytes.now)) }
{
    let (is_there, next) = truth_here(bytes, place)?;
    match is_there {
        false => Ok((None, next)),
        true => some_text(alloc, bytes, next, limit),
    }
}

// The value at the place, which is there.
fn some_here<T: Readable>(
    alloc: Global,
    bytes: &[u8],
    place: usize,
) -> Result<(Option<T::Value>, usize), CodecFault>
    requires { place ≤ length bytes.now }
    ensures exact { Gives result (option_of T.at true bytes.now place) }
    ensures next { IfOk result (λ x. x.1 ≤ length bytes.now) }
    ensures fault { IfErr result (IsFaultWithin (length bytes.now)) }
{
    let (value, next) = T::read_here(alloc, bytes, place)?;
    Ok((Some(value), next))
}

// The value at the place, behind the byte that says whether there is one, and the place behind it.
#[tactic(auto, unfolding(crate::specs::Parts::option_at))]
pub(crate) fn option_here<T: Readable>(
    alloc: Global,
    bytes: &[u8],
    place: usize,
) -> Result<(Option<T::Value>, usize), CodecFault>
    requires { place ≤ length bytes.now }
    ensures exact { Gives result (option_at T.at bytes.now place) }
    ensures next { IfOk result (λ x. x.1 ≤ length bytes.now) }
    ensures fault { IfErr result (IsFaultWithin (length bytes.now)) }
{
    let (is_there, next) = truth_here(bytes, place)?;
    match is_there {
        false => Ok((None, next)),
        true => some_here::<T>(alloc, bytes, next),
    }
}
