// Reading bytes and names, from the left.
ghost use Rattle.std.specs.Prelude.{◌≤◌, length, IfOk, IfErr};
ghost use Rattle.record_fields.specs.Readers.{Gives, IsBad, IsFaultWithin};
ghost use Rattle.record_fields.specs.Parts.{bytes_at, name_at, name_of, part_of, span_at, span_of, value_at, value_of};

use crate::CodecFault;
use crate::field_readers::{bad, u32_here};
use small_types::limits::NAME_LIMIT;
use small_types::{Bytes, Name, NameFault};
use std::alloc::Global;

// So many bytes from the start on, which belong to the field at the place: where they begin, and
// the place behind them.
fn span_from(
    bytes: &[u8],
    place: usize,
    limit: usize,
    size: usize,
    start: usize,
) -> Result<(usize, usize), CodecFault>
    requires place { place ≤ length bytes.now }
    requires start { start ≤ length bytes.now }
    ensures exact { Gives result (span_of limit bytes.now place size start) }
    ensures order { IfOk result (λ x. x.0 ≤ x.1) }
    ensures next { IfOk result (λ x. x.1 ≤ length bytes.now) }
    ensures fault { IfErr result (IsFaultWithin (length bytes.now)) }
    ensures free { IfErr result IsBad }
{
    if limit < size {
        return Err(bad(place));
    }
    if bytes.len() - start < size {
        return Err(bad(place));
    }
    Ok((start, start + size))
}

// Where the bytes begin that have their length before them, and the place behind them.
#[tactic(auto, unfolding(crate::specs::Parts::span_at))]
fn span_here(bytes: &[u8], place: usize, limit: usize) -> Result<(usize, usize), CodecFault>
    requires { place ≤ length bytes.now }
    ensures exact { Gives result (span_at limit bytes.now place) }
    ensures order { IfOk result (λ x. x.0 ≤ x.1) }
    ensures next { IfOk result (λ x. x.1 ≤ length bytes.now) }
    ensures fault { IfErr result (IsFaultWithin (length bytes.now)) }
    ensures free { IfErr result IsBad }
{
    let (size, start) = u32_here(bytes, place)?;
    span_from(bytes, place, limit, size as usize, start)
}

// The bytes at the place, behind their length, at most the limit, and the place behind them.
#[tactic(auto, unfolding(crate::specs::Parts::bytes_at))]
pub(crate) fn bytes_here(
    alloc: Global,
    bytes: &[u8],
    place: usize,
    limit: usize,
) -> Result<(Bytes, usize), CodecFault>
    requires { place ≤ length bytes.now }
    ensures exact { Gives result (bytes_at limit bytes.now place) }
    ensures next { IfOk result (λ x. x.1 ≤ length bytes.now) }
    ensures fault { IfErr result (IsFaultWithin (length bytes.now)) }
{
    let (start, next) = span_here(bytes, place, limit)?;
    let held = Bytes::from_slice(alloc, &bytes[start..next])?;
    Ok((held, next))
}

// The bytes, where they are so many.
fn of_size(
    size: usize,
    bytes: &[u8],
    place: usize,
    value: Bytes,
    next: usize,
) -> Result<(Bytes, usize), CodecFault>
    requires place { place ≤ length bytes.now }
    requires next { next ≤ length bytes.now }
    ensures exact { Gives result (value_of size place value next) }
    ensures next { IfOk result (λ x. x.1 ≤ length bytes.now) }
    ensures fault { IfErr result (IsFaultWithin (length bytes.now)) }
{
    if value.as_slice().len() == size {
        Ok((value, next))
    } else {
        Err(bad(place))
    }
}

// The bytes of just that length at the place, and the place behind them.
#[tactic(auto, unfolding(crate::specs::Parts::value_at))]
pub(crate) fn value_here(
    alloc: Global,
    bytes: &[u8],
    place: usize,
    size: usize,
) -> Result<(Bytes, usize), CodecFault>
    requires { place ≤ length bytes.now }
    ensures exact { Gives result (value_at size bytes.now place) }
    ensures next { IfOk result (λ x. x.1 ≤ length bytes.now) }
    ensures fault { IfErr result (IsFaultWithin (length bytes.now)) }
{
    let (value, next) = bytes_here(alloc, bytes, place, size)?;
    of_size(size, bytes, place, value, next)
}

// The name that the text is as it stands.
fn name_from(
    alloc: Global,
    bytes: &[u8],
    place: usize,
    text: &[u8],
    next: usize,
) -> Result<(Name, usize), CodecFault>
    requires place { place ≤ length bytes.now }
    requires next { next ≤ length bytes.now }
    ensures exact { Gives result (name_of place text.now next) }
    ensures next { IfOk result (λ x. x.1 ≤ length bytes.now) }
    ensures fault { IfErr result (IsFaultWithin (length bytes.now)) }
{
    let name = match Name::read(alloc, text) {
        Ok(name) => name,
        Err(NameFault::Memory) => return Err(CodecFault::Memory),
        Err(NameFault::Bad) => return Err(bad(place)),
    };
    if name.as_bytes() == text {
        Ok((name, next))
    } else {
        Err(bad(place))
    }
}

// The name at the place, and the place behind it. A backslash is in no name.
#[tactic(auto, unfolding(crate::specs::Parts::name_at, crate::specs::Parts::bytes_at))]
pub(crate) fn name_here(
    alloc: Global,
    bytes: &[u8],
    place: usize,
) -> Result<(Name, usize), CodecFault>
    requires { place ≤ length bytes.now }
    ensures exact { Gives result (name_at bytes.now place) }
    ensures next { IfOk result (λ x. x.1 ≤ length bytes.now) }
    ensures fault { IfErr result (IsFaultWithin (length bytes.now)) }
{
    let (start, next) = span_here(bytes, place, NAME_LIMIT)?;
    name_from(alloc, bytes, place, &bytes[start..next], next)
}
