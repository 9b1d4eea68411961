// Reading numbers, texts, keys and versions, from the left.
ghost use Rattle.std.specs.Prelude.{◌≡◌, ◌-◌, ◌<◌, ◌≤◌, length, take, drop, true, false, IfOk, IfErr, MatchOption};
ghost use Rattle.std.specs.Int.{w16, w32, w64};
ghost use Rattle.std.specs.Str.{is_utf8};
ghost use Rattle.record_fields.specs.Readers.{Gives, IsBad, IsFaultWithin, number_at, sized_at, text_at, key_at, version_at};

use crate::CodecFault;
use identity::{Key, Version};
use small_types::Text;
use small_types::limits::{IDENTITY_PART_LIMIT, NAME_LIMIT};
use std::alloc::Global;

// The fault of the field that begins at the place.
pub(crate) fn bad(place: usize) -> CodecFault
    ensures { result ≡ CodecFault.Bad place }
{
    CodecFault::Bad {
        place: place as u64,
    }
}

// So many bytes from the place on, where they are there.
fn front(bytes: &[u8], place: usize, size: usize) -> Option<&[u8]>
    requires { place ≤ length bytes.now }
    ensures { MatchOption result (length bytes.now - place < size)
        (λ s. (size ≤ length bytes.now - place) × (s.now ≡ take size (drop place bytes.now))) }
{
    let (_, rest) = bytes.split_at(place);
    if rest.len() < size {
        return None;
    }
    let (front, _) = rest.split_at(size);
    Some(front)
}

// The number in the two bytes at the place, the first the greater, and the place behind them. The
// fault is at the place, where fewer are there.
pub(crate) fn u16_here(bytes: &[u8], place: usize) -> Result<(u16, usize), CodecFault>
    requires { place ≤ length bytes.now }
    ensures exact { Gives result (number_at w16 bytes.now place) }
    ensures next { IfOk result (λ x. x.1 ≤ length bytes.now) }
    ensures fault { IfErr result (IsFaultWithin (length bytes.now)) }
    ensures free { IfErr result IsBad }
{
    let Some(front) = front(bytes, place, 2) else {
        return Err(bad(place));
    };
    let number = u16::from_be_bytes([front[0], front[1]]);
    Ok((number, place + 2))
}

// The number in the four bytes at the place, the first the greatest, and the place behind them.
// The fault is at the place, where fewer are there.
pub(crate) fn u32_here(bytes: &[u8], place: usize) -> Result<(u32, usize), CodecFault>
    requires { place ≤ length bytes.now }
    ensures exact { Gives result (number_at w32 bytes.now place) }
    ensures next { IfOk result (λ x. x.1 ≤ length bytes.now) }
    ensures fault { IfErr result (IsFaultWithin (length bytes.now)) }
    ensures free { IfErr result IsBad }
{
    let Some(front) = front(bytes, place, 4) else {
        return Err(bad(place));
    };
    let number = u32::from_be_bytes([front[0], front[1], front[2], front[3]]);
    Ok((number, place + 4))
}

// The number in the eight bytes at the place, the first the greatest, and the place behind them.
// The fault is at the place, where fewer are there.
pub(crate) fn u64_here(bytes: &[u8], place: usize) -> Result<(u64, usize), CodecFault>
    requires { place ≤ length bytes.now }
    ensures exact { Gives result (number_at w64 bytes.now place) }
    ensures next { IfOk result (λ x. x.1 ≤ length bytes.now) }
    ensures fault { IfErr result (IsFaultWithin (length bytes.now)) }
    ensures free { IfErr result IsBad }
{
    let Some(front) = front(bytes, place, 8) else {
        return Err(bad(place));
    };
    let number = u64::from_be_bytes([
        front[0], front[1], front[2], front[3], front[4], front[5], front[6], front[7],
    ]);
    Ok((number, place + 8))
}

// The bytes as text, where they are UTF-8.
fn utf8_of(bytes: &[u8]) -> Option<&str>
    ensures { MatchOption result (is_utf8 bytes.now ≡ false)
        (λ s. (s.now ≡ bytes.now) × (is_utf8 bytes.now ≡ true)) }
{
    match str::from_utf8(bytes) {
        Ok(text) => Some(text),
        Err(_) => None,
    }
}

// The text of so many bytes from the start on, which belongs to the field at the place.
fn sized_text(
    alloc: Global,
    bytes: &[u8],
    place: usize,
    limit: usize,
    size: usize,
    start: usize,
) -> Result<(Text, usize), CodecFault>
    requires place { place ≤ length bytes.now }
    requires start { start ≤ length bytes.now }
    ensures exact { Gives result (sized_at limit bytes.now place size start) }
    ensures next { IfOk result (λ x. x.1 ≤ length bytes.now) }
    ensures fault { IfErr result (IsFaultWithin (length bytes.now)) }
{
    if limit < size {
        return Err(bad(place));
    }
    let Some(front) = front(bytes, start, size) else {
        return Err(bad(place));
    };
    let Some(text) = utf8_of(front) else {
        return Err(bad(place));
    };
    let text = String::from_str(alloc, text)?;
    Ok((Text::from_string(text), start + size))
}

// The text at the place, behind its length in four bytes, and the place behind it. The fault is at
// the place, where the bytes end before the text does, or it has more bytes than the limit or is
// no UTF-8. An empty text is one.
#[tactic(auto, unfolding(crate::specs::Readers::text_at))]
pub(crate) fn text_here(
    alloc: Global,
    bytes: &[u8],
    place: usize,
    limit: usize,
) -> Result<(Text, usize), CodecFault>
    requires { place ≤ length bytes.now }
    ensures exact { Gives result (text_at limit bytes.now place) }
    ensures next { IfOk result (λ x. x.1 ≤ length bytes.now) }
    ensures fault { IfErr result (IsFaultWithin (length bytes.now)) }
{
    let (size, start) = u32_here(bytes, place)?;
    sized_text(alloc, bytes, place, limit, size as usize, start)
}

// The key at the place, its four parts as texts of at most 240 and 64 bytes, and the place behind
// it. The fault is that of the first part that cannot be read.
#[tactic(auto, unfolding(crate::specs::Readers::key_at))]
pub(crate) fn key_here(
    alloc: Global,
    bytes: &[u8],
    place: usize,
) -> Result<(Key, usize), CodecFault>
    requires { place ≤ length bytes.now }
    ensures exact { Gives result (key_at bytes.now place) }
    ensures next { IfOk result (λ x. x.1 ≤ length bytes.now) }
    ensures fault { IfErr result (IsFaultWithin (length bytes.now)) }
{
    let (name, next) = text_here(alloc, bytes, place, NAME_LIMIT)?;
    let (token, next) = text_here(alloc, bytes, next, IDENTITY_PART_LIMIT)?;
    let (language, next) = text_here(alloc, bytes, next, IDENTITY_PART_LIMIT)?;
    let (architecture, next) = text_here(alloc, bytes, next, IDENTITY_PART_LIMIT)?;
    let key = Key {
        name,
        token,
        language,
        architecture,
    };
    Ok((key, next))
}

// The version at the place, its four numbers in two bytes each, and the place behind it. The fault
// is that of the first number that the bytes end before.
#[tactic(auto, unfolding(crate::specs::Readers::version_at))]
pub(crate) fn version_here(bytes: &[u8], place: usize) -> Result<(Version, usize), CodecFault>
    requires { place ≤ length bytes.now }
    ensures exact { Gives result (version_at bytes.now place) }
    ensures next { IfOk result (λ x. x.1 ≤ length bytes.now) }
    ensures fault { IfErr result (IsFaultWithin (length bytes.now)) }
    ensures free { IfErr result IsBad }
{
    let (a, next) = u16_here(bytes, place)?;
    let (b, next) = u16_here(bytes, next)?;
    let (c, next) = u16_here(bytes, next)?;
    let (d, next) = u16_here(bytes, next)?;
    Ok((Version { a, b, c, d }, next))
}
