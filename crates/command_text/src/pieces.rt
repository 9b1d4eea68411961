// The pieces of a reply, and how they are written. None takes memory.
ghost use Rattle.std.specs.Prelude.{decimal};
ghost use Rattle.identity.specs.Version.{version_text};
ghost use Rattle.command_text.specs.Pieces.{WritesText, piece_text, pieces_text};

use crate::escapes::{print_part, print_word};
use crate::raw::print_hex;
use identity::Version;
use itoa::Buffer;
use outside::{Failed, Sink, write_all};
use small_types::Limit;

/// A piece of a reply.
#[derive(Clone, Copy)]
pub(crate) enum Piece<'a> {
    Bytes(&'a [u8]),
    /// A number, in decimal digits.
    Number(u64),
    Version(Version),
    Limit(Limit),
    /// A part of a key, word-escaped.
    Part(&'a [u8]),
    /// Another text, word-escaped.
    Word(&'a [u8]),
    /// Bytes, in lower-case hexadecimal.
    Hex(&'a [u8]),
}

// Writes a number, in decimal digits.
fn print_number<K: Sink>(number: u64, sink: &mut K) -> Result<(), Failed>
    ensures { WritesText K.Sink sink.old sink.new (decimal number) result }
{
    let mut buffer = Buffer::new();
    write_all(sink, buffer.format(number).as_bytes())
}

// Writes a version.
fn print_version<K: Sink>(version: Version, sink: &mut K) -> Result<(), Failed>
    ensures { WritesText K.Sink sink.old sink.new (version_text version) result }
{
    let mut buffer = [0; 23];
    let end = version.write(&mut buffer);
    write_all(sink, &buffer[..end])
}

// Writes a piece.
fn print_piece<K: Sink>(piece: Piece, sink: &mut K) -> Result<(), Failed>
    ensures { WritesText K.Sink sink.old sink.new (piece_text piece.entry) result }
{
    match piece {
        Piece::Bytes(bytes) => write_all(sink, bytes),
        Piece::Number(number) => print_number(number, sink),
        Piece::Version(version) => print_version(version, sink),
        Piece::Limit(what) => write_all(sink, what.word()),
        Piece::Part(part) => print_part(part, sink),
        Piece::Word(word) => print_word(word, sink),
        Piece::Hex(bytes) => print_hex(bytes, sink),
    }
}

/// Writes the pieces, one behind the other. It takes no memory.
pub(crate) fn print_pieces<K: Sink>(pieces: &[Piece], sink: &mut K) -> Result<(), Failed>
    ensures { WritesText K.Sink sink.old sink.new (pieces_text pieces.now) result }
{
    for piece in pieces {
        print_piece(*piece, sink)?;
    }
    Ok(())
}
