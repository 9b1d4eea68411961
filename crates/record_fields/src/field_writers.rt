// Writing into room that is there. A writer leaves all bytes but those of its field.
ghost use Rattle.std.specs.Prelude.{◌≡◌, ◌+◌, ◌<◌, ◌≤◌, ◌^◌, [], ◌∷◌, length};
ghost use Rattle.std.specs.Int.{w16, w32, w64, to_be_bytes};
ghost use Rattle.small_types.specs.Name.{IsName};
ghost use Rattle.identity.specs.Key.{IsShortKey};
ghost use Rattle.record_fields.specs.Fields.{text_field, key_field, version_field};
ghost use Rattle.record_fields.specs.Places.{WritesField};

use identity::{Key, Version};
use small_types::{Name, Text};

// Writes the bytes at the place, leaves all others, and answers the place behind them.
pub(crate) fn put(out: &mut [u8], place: usize, bytes: &[u8]) -> usize
    requires { place + length bytes.now ≤ length out.old }
    ensures { WritesField out.old place bytes.now out.new result }
{
    let end = place + bytes.len();
    out[place..end].copy_from_slice(bytes);
    end
}

/// Writes the byte at the place, and answers the place behind it.
pub fn write_u8(out: &mut [u8], place: usize, byte: u8) -> usize
    requires { place < length out.old }
    ensures { WritesField out.old place (byte ∷ []) out.new result }
{
    put(out, place, &[byte])
}

/// Writes the number at the place in two bytes, the first the greater, and answers the place behind
/// them.
pub fn write_u16(out: &mut [u8], place: usize, number: u16) -> usize
    requires { place + 2 ≤ length out.old }
    ensures { WritesField out.old place (to_be_bytes w16 number) out.new result }
{
    put(out, place, &number.to_be_bytes())
}

/// Writes the number at the place in four bytes, the first the greatest, and answers the place
/// behind them.
pub fn write_u32(out: &mut [u8], place: usize, number: u32) -> usize
    requires { place + 4 ≤ length out.old }
    ensures { WritesField out.old place (to_be_bytes w32 number) out.new result }
{
    put(out, place, &number.to_be_bytes())
}

/// Writes the number at the place in eight bytes, the first the greatest, and answers the place
/// behind them.
pub fn write_u64(out: &mut [u8], place: usize, number: u64) -> usize
    requires { place + 8 ≤ length out.old }
    ensures { WritesField out.old place (to_be_bytes w64 number) out.new result }
{
    put(out, place, &number.to_be_bytes())
}

/// Writes bytes at the place, behind their number in four bytes, and answers the place behind them.
pub fn write_bytes(out: &mut [u8], place: usize, bytes: &[u8]) -> usize
    requires size { length bytes.now < 2 ^ 32 }
    requires room { place + 4 + length bytes.now ≤ length out.old }
    ensures { WritesField out.old place (text_field bytes.now) out.new result }
{
    let start = write_u32(out, place, bytes.len() as u32);
    put(out, start, bytes)
}

/// Writes the text at the place, behind its length in four bytes, and answers the place behind it.
pub fn write_text(out: &mut [u8], place: usize, text: &Text) -> usize
    requires size { length text.now < 2 ^ 32 }
    requires room { place + 4 + length text.now ≤ length out.old }
    ensures { WritesField out.old place (text_field text.now) out.new result }
{
    write_bytes(out, place, text.as_bytes())
}

/// Writes the name at the place, as its text, and answers the place behind it.
pub fn write_name(out: &mut [u8], place: usize, name: &Name) -> usize
    requires name { IsName name.now }
    requires room { place + 4 + length name.now ≤ length out.old }
    ensures { WritesField out.old place (text_field name.now) out.new result }
{
    write_bytes(out, place, name.as_bytes())
}

/// Writes the key at the place, its four parts as texts, and answers the place behind it.
#[tactic(auto, unfolding(crate::specs::Fields::key_field, crate::specs::Fields::text_field))]
pub fn write_key(out: &mut [u8], place: usize, key: &Key) -> usize
    requires key { IsShortKey key.now }
    requires room { place + length (key_field key.now) ≤ length out.old }
    ensures { WritesField out.old place (key_field key.now) out.new result }
{
    let next = write_text(out, place, &key.name);
    let next = write_text(out, next, &key.token);
    let next = write_text(out, next, &key.language);
    write_text(out, next, &key.architecture)
}

/// Writes the version at the place, its four numbers in two bytes each, and answers the place
/// behind it.
pub fn write_version(out: &mut [u8], place: usize, version: Version) -> usize
    requires { place + 8 ≤ length out.old }
    ensures { WritesField out.old place (version_field version) out.new result }
{
    let next = write_u16(out, place, version.a);
    let next = write_u16(out, next, version.b);
    let next = write_u16(out, next, version.c);
    write_u16(out, next, version.d)
}
