// What a list and a show answer. None takes memory.
ghost use Rattle.std.specs.Prelude.{◌≡◌, [], ◌∷◌, ◌++◌, codes};
ghost use Rattle.addresses.specs.Join.{target_text};
ghost use Rattle.identity.specs.Key.{key_text};
ghost use Rattle.command_text.specs.Applications.{list_text, optional_number, optional_target, optional_text, optional_word, row_text, rows_text, show_text, state_text, truth_text, versions_text};
ghost use Rattle.command_text.specs.Pieces.{WritesText, piece_text};

use crate::pieces::{Piece, print_pieces};
use identity::{Key, Version};
use machine::{ListRow, ShowRow};
use outside::{Failed, Sink};
use small_types::Target;

/// The version, or a dash where there is none.
pub(crate) fn shown_version(version: Option<Version>) -> Piece<'static>
    ensures { piece_text result ≡ optional_text version }
{
    match version {
        Some(version) => Piece::Version(version),
        None => Piece::Bytes(b"-"),
    }
}

// The number, or a dash where there is none.
fn shown_number(number: Option<u64>) -> Piece<'static>
    ensures { piece_text result ≡ optional_number number }
{
    match number {
        Some(number) => Piece::Number(number),
        None => Piece::Bytes(b"-"),
    }
}

// The file that the application starts, or a dash where there is none.
fn shown_entry(row: &ShowRow) -> Piece<'_>
    ensures { piece_text result ≡ optional_word row.now.entry }
{
    match &row.entry {
        Some(entry) => Piece::Word(entry.as_bytes()),
        None => Piece::Bytes(b"-"),
    }
}

// Whether it is so.
fn truth(is: bool) -> &'static [u8]
    ensures { result.now ≡ truth_text is }
{
    if is { b"yes" } else { b"no" }
}

// Writes an application and its current version, on a line of their own.
fn print_row<K: Sink>(row: &ListRow, sink: &mut K) -> Result<(), Failed>
    ensures { WritesText K.Sink sink.old sink.new (row_text row.now) result }
{
    let comma = Piece::Bytes(b",");
    let line_feed = Piece::Bytes(b"\n");
    print_pieces(
        &[
            Piece::Part(row.key.name.as_bytes()),
            comma,
            Piece::Part(row.key.token.as_bytes()),
            comma,
            Piece::Part(row.key.language.as_bytes()),
            comma,
            Piece::Part(row.key.architecture.as_bytes()),
            Piece::Bytes(b" "),
            shown_version(row.current),
            line_feed,
        ],
        sink,
    )
}

// Writes a line for each application.
fn print_rows<K: Sink>(rows: &[ListRow], sink: &mut K) -> Result<(), Failed>
    ensures { WritesText K.Sink sink.old sink.new (rows_text rows.now) result }
{
    for row in rows {
        print_row(row, sink)?;
    }
    Ok(())
}

/// Writes how many applications there are, and then a line for each.
pub(crate) fn print_list<K: Sink>(rows: &[ListRow], sink: &mut K) -> Result<(), Failed>
    ensures { WritesText K.Sink sink.old sink.new (list_text rows.now) result }
{
    print_pieces(
        &[
            Piece::Bytes(b"ok list "),
            Piece::Number(rows.len() as u64),
            Piece::Bytes(b"\n"),
        ],
        sink,
    )?;
    print_rows(rows, sink)
}

// Writes which application is shown.
fn print_key<K: Sink>(key: &Key, sink: &mut K) -> Result<(), Failed>
    ensures { WritesText K.Sink sink.old sink.new
        (codes "ok show " ++ (key_text key.now ++ codes " ")) result }
{
    let comma = Piece::Bytes(b",");
    print_pieces(
        &[
            Piece::Bytes(b"ok show "),
            Piece::Part(key.name.as_bytes()),
            comma,
            Piece::Part(key.token.as_bytes()),
            comma,
            Piece::Part(key.language.as_bytes()),
            comma,
            Piece::Part(key.architecture.as_bytes()),
            Piece::Bytes(b" "),
        ],
        sink,
    )
}

// Writes its versions.
fn print_versions<K: Sink>(row: &ShowRow, sink: &mut K) -> Result<(), Failed>
    ensures { WritesText K.Sink sink.old sink.new (versions_text row.now) result }
{
    print_pieces(
        &[
            shown_version(row.current),
            Piece::Bytes(b" "),
            shown_version(row.previous),
            Piece::Bytes(b" "),
            shown_version(row.minimum),
            Piece::Bytes(b" "),
            shown_version(row.offer),
            Piece::Bytes(b" "),
            shown_version(row.skipped),
            Piece::Bytes(b" "),
            shown_version(row.excluded),
            Piece::Bytes(b" "),
        ],
        sink,
    )
}

// Writes its last check, and the file that it starts.
fn print_state<K: Sink>(row: &ShowRow, sink: &mut K) -> Result<(), Failed>
    ensures { WritesText K.Sink sink.old sink.new (state_text row.now) result }
{
    print_pieces(
        &[
            shown_number(row.last_check),
            Piece::Bytes(b" "),
            Piece::Bytes(truth(row.checked)),
            Piece::Bytes(b" "),
            shown_entry(row),
            Piece::Bytes(b" "),
        ],
        sink,
    )
}

// Writes an address, and the end of the line.
fn print_address<K: Sink>(target: &Target, sink: &mut K) -> Result<(), Failed>
    ensures { WritesText K.Sink sink.old sink.new (target_text target.now ++ 10 ∷ []) result }
{
    print_pieces(
        &[
            Piece::Bytes(b"http://"),
            Piece::Bytes(target.host.as_bytes()),
            Piece::Bytes(b":"),
            Piece::Number(target.port as u64),
            Piece::Bytes(target.path.as_bytes()),
            Piece::Bytes(b"\n"),
        ],
        sink,
    )
}

// Writes where its updates come from, and the end of the line.
fn print_provider<K: Sink>(row: &ShowRow, sink: &mut K) -> Result<(), Failed>
    ensures { WritesText K.Sink sink.old sink.new
        (optional_target row.now.provider ++ 10 ∷ []) result }
{
    match &row.provider {
        Some(target) => print_address(target, sink),
        None => print_pieces(&[Piece::Bytes(b"-\n")], sink),
    }
}

/// Writes what is known of an application, in one line.
pub(crate) fn print_show<K: Sink>(row: &ShowRow, sink: &mut K) -> Result<(), Failed>
    ensures { WritesText K.Sink sink.old sink.new (show_text row.now) result }
{
    print_key(&row.key, sink)?;
    print_versions(row, sink)?;
    print_state(row, sink)?;
    print_provider(row, sink)
}
