// The lines that say why a manifest or a release is refused. None takes memory.
ghost use Rattle.std.specs.Prelude.{◌≡◌, [], ◌∷◌, ◌++◌};
ghost use Rattle.identity.specs.Key.{word_text};
ghost use Rattle.identity.specs.Version.{version_text};
ghost use Rattle.manifest_parts.specs.declared.fault.ManifestFault.TheVariants.{Tree};
ghost use Rattle.manifest_text.specs.Lines.{kind_text, refusal_text, two};
ghost use Rattle.command_text.specs.Lines.{identities_text, identity_text, release_text};
ghost use Rattle.command_text.specs.Pieces.{WritesText};

use crate::pieces::{Piece, print_pieces};
use identity::{Key, Version};
use manifest_parts::ManifestFault;
use manifest_tree::{TreeFault, TreeKind};
use manifests::ReleaseFault;
use outside::{Failed, Sink};
use small_types::Text;

// The word for what is wrong with a text.
fn kind_word(kind: TreeKind) -> &'static [u8]
    ensures { result.now ≡ kind_text kind }
{
    match kind {
        TreeKind::NotUtf8 => b"not-utf8",
        TreeKind::Syntax => b"syntax",
        TreeKind::Entity => b"entity",
        TreeKind::TagMismatch => b"tag",
        TreeKind::AttributeTwice => b"attribute-twice",
        TreeKind::TooDeep => b"too-deep",
        TreeKind::TooLong => b"too-long",
    }
}

// Writes a line about a word.
fn print_about<'a, K: Sink>(front: &'a [u8], what: &'a Text, sink: &mut K) -> Result<(), Failed>
    ensures { WritesText K.Sink sink.old sink.new
        (front.now ++ (word_text what.now ++ 10 ∷ [])) result }
{
    print_pieces(
        &[
            Piece::Bytes(front),
            Piece::Word(what.as_bytes()),
            Piece::Bytes(b"\n"),
        ],
        sink,
    )
}

// Writes a line about two versions.
fn print_versions<K: Sink>(
    front: &[u8],
    first: Version,
    second: Version,
    sink: &mut K,
) -> Result<(), Failed>
    ensures { WritesText K.Sink sink.old sink.new
        (front.now ++ (two (version_text first) (version_text second) ++ 10 ∷ [])) result }
{
    print_pieces(
        &[
            Piece::Bytes(front),
            Piece::Version(first),
            Piece::Bytes(b" "),
            Piece::Version(second),
            Piece::Bytes(b"\n"),
        ],
        sink,
    )
}

// Writes what is wrong with a text, and where.
fn print_tree<K: Sink>(fault: TreeFault, sink: &mut K) -> Result<(), Failed>
    ensures { WritesText K.Sink sink.old sink.new (refusal_text (Tree fault)) result }
{
    print_pieces(
        &[
            Piece::Bytes(b"no manifest tree "),
            Piece::Bytes(kind_word(fault.kind)),
            Piece::Bytes(b" "),
            Piece::Number(fault.place),
            Piece::Bytes(b"\n"),
        ],
        sink,
    )
}

/// Writes why a manifest is refused.
pub(crate) fn print_manifest<K: Sink>(fault: &ManifestFault, sink: &mut K) -> Result<(), Failed>
    ensures { WritesText K.Sink sink.old sink.new (refusal_text fault.now) result }
{
    match fault {
        ManifestFault::Tree(fault) => print_tree(*fault, sink),
        ManifestFault::Missing { what } => print_about(b"no manifest missing ", what, sink),
        ManifestFault::Twice { what } => print_about(b"no manifest twice ", what, sink),
        ManifestFault::BadValue { what } => print_about(b"no manifest bad-value ", what, sink),
        ManifestFault::Signed => print_pieces(&[Piece::Bytes(b"no manifest signed\n")], sink),
        ManifestFault::NoDigest { file } => print_about(b"no manifest no-digest ", file, sink),
        ManifestFault::BadName { file } => print_about(b"no manifest bad-name ", file, sink),
        ManifestFault::TwiceNamed { file } => print_about(b"no manifest twice-named ", file, sink),
        ManifestFault::MinimumAboveVersion { minimum, version } => {
            print_versions(b"no manifest minimum-above ", *minimum, *version, sink)
        }
        ManifestFault::OnlineOnly => {
            print_pieces(&[Piece::Bytes(b"no manifest online-only\n")], sink)
        }
        ManifestFault::TooMany { what } => print_pieces(
            &[
                Piece::Bytes(b"no manifest too-many "),
                Piece::Limit(*what),
                Piece::Bytes(b"\n"),
            ],
            sink,
        ),
        ManifestFault::Memory => print_pieces(&[Piece::Bytes(b"no manifest memory\n")], sink),
    }
}

// Writes the line of two keys.
fn print_identities<'a, K: Sink>(
    listed: &'a Key,
    found: &'a Key,
    sink: &mut K,
) -> Result<(), Failed>
    ensures { WritesText K.Sink sink.old sink.new (identities_text listed.now found.now) result }
{
    let comma = Piece::Bytes(b",");
    print_pieces(
        &[
            Piece::Bytes(b"no release identity "),
            Piece::Part(listed.name.as_bytes()),
            comma,
            Piece::Part(listed.token.as_bytes()),
            comma,
            Piece::Part(listed.language.as_bytes()),
            comma,
            Piece::Part(listed.architecture.as_bytes()),
            Piece::Bytes(b" "),
            Piece::Part(found.name.as_bytes()),
            comma,
            Piece::Part(found.token.as_bytes()),
            comma,
            Piece::Part(found.language.as_bytes()),
            comma,
            Piece::Part(found.architecture.as_bytes()),
            Piece::Bytes(b"\n"),
        ],
        sink,
    )
}

/// Writes the key that was found in place of the one that was asked for.
pub(crate) fn print_identity<K: Sink>(found: &Key, sink: &mut K) -> Result<(), Failed>
    ensures { WritesText K.Sink sink.old sink.new (identity_text found.now) result }
{
    let comma = Piece::Bytes(b",");
    print_pieces(
        &[
            Piece::Bytes(b"no identity "),
            Piece::Part(found.name.as_bytes()),
            comma,
            Piece::Part(found.token.as_bytes()),
            comma,
            Piece::Part(found.language.as_bytes()),
            comma,
            Piece::Part(found.architecture.as_bytes()),
            Piece::Bytes(b"\n"),
        ],
        sink,
    )
}

/// Writes why two manifests are not those of one release.
pub(crate) fn print_release<K: Sink>(fault: &ReleaseFault, sink: &mut K) -> Result<(), Failed>
    ensures { WritesText K.Sink sink.old sink.new (release_text fault.now) result }
{
    match fault {
        ReleaseFault::IdentityDiffers { listed, found } => print_identities(listed, found, sink),
        ReleaseFault::VersionDiffers { listed, found } => {
            print_versions(b"no release version ", *listed, *found, sink)
        }
        ReleaseFault::Mismatch { .. } => {
            print_pieces(&[Piece::Bytes(b"no release mismatch\n")], sink)
        }
        ReleaseFault::Memory => print_pieces(&[Piece::Bytes(b"no memory\n")], sink),
    }
}
