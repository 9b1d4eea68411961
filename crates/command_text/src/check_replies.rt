// What a check answers. It takes no memory.
ghost use Rattle.command_text.specs.Lines.{checked_text};
ghost use Rattle.command_text.specs.Pieces.{WritesText};

use crate::app_replies::shown_version;
use crate::pieces::{Piece, print_pieces};
use identity::Version;
use outside::{Failed, Sink};

/// Writes what is offered, and the minimum.
pub(crate) fn print_checked<K: Sink>(
    offer: Option<Version>,
    minimum: Option<Version>,
    sink: &mut K,
) -> Result<(), Failed>
    ensures { WritesText K.Sink sink.old sink.new (checked_text offer minimum) result }
{
    print_pieces(
        &[
            Piece::Bytes(b"ok checked "),
            shown_version(offer),
            Piece::Bytes(b" "),
            shown_version(minimum),
            Piece::Bytes(b"\n"),
        ],
        sink,
    )
}
