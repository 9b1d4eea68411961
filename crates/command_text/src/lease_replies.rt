// What a launch and a read answer. None takes memory.
ghost use Rattle.std.specs.Prelude.{◌≡◌};
ghost use Rattle.command_text.specs.Lines.{lease_text, note_text, read_text, shown_text};
ghost use Rattle.command_text.specs.Pieces.{WritesText, piece_text};

use crate::pieces::{Piece, print_pieces};
use identity::Version;
use outside::{Failed, Sink};

// Whether the time for the next check has come.
fn note(check_due: bool) -> &'static [u8]
    ensures { result.now ≡ note_text check_due }
{
    if check_due { b"check-due" } else { b"-" }
}

/// Writes a lease, the version that it is on, and the note.
pub(crate) fn print_lease<K: Sink>(
    lease: u64,
    version: Version,
    check_due: bool,
    sink: &mut K,
) -> Result<(), Failed>
    ensures { WritesText K.Sink sink.old sink.new (lease_text lease version check_due) result }
{
    print_pieces(
        &[
            Piece::Bytes(b"ok lease "),
            Piece::Number(lease),
            Piece::Bytes(b" "),
            Piece::Version(version),
            Piece::Bytes(b" "),
            Piece::Bytes(note(check_due)),
            Piece::Bytes(b"\n"),
        ],
        sink,
    )
}

// The bytes as a reply shows them.
fn shown(bytes: &[u8]) -> Piece<'_>
    ensures { piece_text result ≡ shown_text bytes.now }
{
    if bytes.is_empty() {
        Piece::Bytes(b"-")
    } else {
        Piece::Hex(bytes)
    }
}

/// Writes the length of a file, and the bytes of it that were asked for.
pub(crate) fn print_read<K: Sink>(length: u64, bytes: &[u8], sink: &mut K) -> Result<(), Failed>
    ensures { WritesText K.Sink sink.old sink.new (read_text length bytes.now) result }
{
    print_pieces(
        &[
            Piece::Bytes(b"ok bytes "),
            Piece::Number(length),
            Piece::Bytes(b" "),
            shown(bytes),
            Piece::Bytes(b"\n"),
        ],
        sink,
    )
}
