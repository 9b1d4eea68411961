// Why links did not serve. None takes memory.
ghost use Rattle.std.specs.Prelude.{◌++◌};
ghost use Rattle.command_text.specs.Lines.{reason_text, reasons_text};
ghost use Rattle.command_text.specs.Pieces.{WritesText};

use crate::pieces::{Piece, print_pieces};
use causes::Cause;
use digest_list::Difference;
use outside::{Failed, Sink};

// Writes the bytes, and then why one link did not serve.
fn print_reason<'a, K: Sink>(before: &'a [u8], cause: &'a Cause, sink: &mut K) -> Result<(), Failed>
    ensures { WritesText K.Sink sink.old sink.new (before.now ++ reason_text cause.now) result }
{
    let before = Piece::Bytes(before);
    let colon = Piece::Bytes(b":");
    match cause {
        Cause::Down => print_pieces(&[before, Piece::Bytes(b"down")], sink),
        Cause::Missing => print_pieces(&[before, Piece::Bytes(b"missing")], sink),
        Cause::TooLong { length, limit } => {
            let word = Piece::Bytes(b"too-long:");
            let (length, limit) = (Piece::Number(*length), Piece::Number(*limit));
            print_pieces(&[before, word, length, colon, limit], sink)
        }
        Cause::Differs(Difference::Size { listed, found }) => {
            let word = Piece::Bytes(b"size:");
            let (listed, found) = (Piece::Number(*listed), Piece::Number(*found));
            print_pieces(&[before, word, listed, colon, found], sink)
        }
        Cause::Differs(
            Difference::Digest {
                algorithm,
                listed,
                found,
            },
        ) => {
            let word = Piece::Bytes(b"differs:");
            let name = Piece::Bytes(algorithm.name().as_bytes());
            let (listed, found) = (Piece::Hex(listed.as_slice()), Piece::Hex(found.as_slice()));
            print_pieces(&[before, word, name, colon, listed, colon, found], sink)
        }
    }
}

/// Writes why each link did not serve, with commas between them.
pub(crate) fn print_reasons<K: Sink>(causes: &[Cause], sink: &mut K) -> Result<(), Failed>
    ensures { WritesText K.Sink sink.old sink.new (reasons_text causes.now) result }
{
    let mut before = b"".as_slice();
    for cause in causes {
        print_reason(before, cause, sink)?;
        before = b",";
    }
    Ok(())
}
