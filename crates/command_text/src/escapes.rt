// Texts written word-escaped. None takes memory.
ghost use Rattle.percent_encoding.specs.Percent as percent;
ghost use Rattle.identity.specs.Key.{part_text, word_text};
ghost use Rattle.command_text.specs.Pieces.{WritesText};

use crate::raw::print_bytes;
use outside::{Failed, Sink};
use percent_encoding::{AsciiSet, NON_ALPHANUMERIC, ascii_set, percent_encode};

// What a part of a key escapes: each byte but letters, digits, `-`, `.`, `_` and `~`.
const PART_ESCAPES: AsciiSet = ascii_set!(
    NON_ALPHANUMERIC
        .remove(b'-')
        .remove(b'.')
        .remove(b'_')
        .remove(b'~')
);

// What another word escapes: it keeps `/` too.
const WORD_ESCAPES: AsciiSet = ascii_set!(PART_ESCAPES.remove(b'/'));

// Writes the text with the bytes of the set escaped, as many bytes at a time as need no escape.
fn print_escaped<K: Sink>(text: &[u8], set: AsciiSet, sink: &mut K) -> Result<(), Failed>
    ensures { WritesText K.Sink sink.old sink.new (percent.percent_encode set text.now) result }
{
    for piece in percent_encode(text, set) {
        print_bytes(piece.as_bytes(), sink)?;
    }
    Ok(())
}

/// Writes a part of a key.
pub(crate) fn print_part<K: Sink>(part: &[u8], sink: &mut K) -> Result<(), Failed>
    ensures { WritesText K.Sink sink.old sink.new (part_text part.now) result }
{
    print_escaped(part, PART_ESCAPES, sink)
}

/// Writes a word-escaped text.
pub(crate) fn print_word<K: Sink>(word: &[u8], sink: &mut K) -> Result<(), Failed>
    ensures { WritesText K.Sink sink.old sink.new (word_text word.now) result }
{
    print_escaped(word, WORD_ESCAPES, sink)
}
