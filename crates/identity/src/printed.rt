// How a printed part compares with what stands at the front of a text, without memory.
ghost use Rattle.std.specs.Prelude.{[], ◌∷◌};
ghost use Rattle.identity.specs.Key.{part_text};
ghost use Rattle.identity.specs.Printed.{Follows};

use crate::escapes::PART_ESCAPES;
use percent_encoding::percent_encode;
use small_types::Text;
use std::cmp::Ordering;

// What stands behind the byte, or how a text that begins with it compares.
pub(crate) fn past_byte(byte: u8, text: &[u8]) -> Result<&[u8], Ordering>
    ensures { Follows (byte ∷ []) text.now result }
{
    let Some((first, rest)) = text.split_first() else {
        return Err(Ordering::Greater);
    };
    match byte.cmp(first) {
        Ordering::Equal => Ok(rest),
        order => Err(order),
    }
}

// The same of bytes.
fn past_bytes<'a>(bytes: &[u8], text: &'a [u8]) -> Result<&'a [u8], Ordering>
    ensures { Follows bytes.now text.now result }
{
    let mut rest = text;
    for byte in bytes {
        match past_byte(*byte, rest) {
            Ok(after) => rest = after,
            Err(order) => return Err(order),
        }
    }
    Ok(rest)
}

// The same of a part as it is printed.
pub(crate) fn past_part<'a>(part: &Text, text: &'a [u8]) -> Result<&'a [u8], Ordering>
    ensures { Follows (part_text part.now) text.now result }
{
    let mut rest = text;
    for piece in percent_encode(part.as_bytes(), PART_ESCAPES) {
        match past_bytes(piece.as_bytes(), rest) {
            Ok(after) => rest = after,
            Err(order) => return Err(order),
        }
    }
    Ok(rest)
}

// The same of a comma and a part.
pub(crate) fn past_next<'a>(part: &Text, text: &'a [u8]) -> Result<&'a [u8], Ordering>
    ensures { Follows (44 ∷ part_text part.now) text.now result }
{
    match past_byte(b',', text) {
        Ok(after) => past_part(part, after),
        Err(order) => Err(order),
    }
}
