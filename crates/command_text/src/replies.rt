// The bytes of a reply.
ghost use Rattle.std.specs.Prelude.{[], ◌∷◌, ◌++◌, decimal, OnOk, OnErr};
ghost use Rattle.identity.specs.Version.{version_text};
ghost use Rattle.outside.specs.Streams.{Appends, AppendsPart, Causes};
ghost use Rattle.command_text.specs.Lines.{fault_text, installed_text, lacking_text, links_text, reply_text};
ghost use Rattle.command_text.specs.Pieces.{WritesText};

use crate::app_replies::{print_list, print_show};
use crate::check_replies::print_checked;
use crate::lease_replies::{print_lease, print_read};
use crate::pieces::{Piece, print_pieces};
use crate::raw::print_bytes;
use crate::reasons::print_reasons;
use crate::refusals::{print_identity, print_manifest, print_release};
use causes::Cause;
use identity::{Key, Version};
use machine::{LineFault, Reply};
use outside::{Failed, Sink};
use small_types::Target;
use small_types::limits::LEASE_LIMIT;

// Writes the reply of a line that is no command.
fn print_fault<K: Sink>(fault: LineFault, sink: &mut K) -> Result<(), Failed>
    ensures { WritesText K.Sink sink.old sink.new (fault_text fault) result }
{
    match fault {
        LineFault::LineTooLong => print_pieces(&[Piece::Bytes(b"no line too-long\n")], sink),
        LineFault::NoSuchCommand => print_pieces(&[Piece::Bytes(b"no line command\n")], sink),
        LineFault::WordCount => print_pieces(&[Piece::Bytes(b"no line words\n")], sink),
        LineFault::BadWord { place } => print_pieces(
            &[
                Piece::Bytes(b"no line word "),
                Piece::Number(place as u64),
                Piece::Bytes(b"\n"),
            ],
            sink,
        ),
        LineFault::Memory => print_pieces(&[Piece::Bytes(b"no memory\n")], sink),
    }
}

// Writes what is installed.
fn print_installed<K: Sink>(
    key: &Key,
    version: Version,
    view: u64,
    sink: &mut K,
) -> Result<(), Failed>
    ensures { WritesText K.Sink sink.old sink.new (installed_text key.now version view) result }
{
    let comma = Piece::Bytes(b",");
    print_pieces(
        &[
            Piece::Bytes(b"ok installed "),
            Piece::Part(key.name.as_bytes()),
            comma,
            Piece::Part(key.token.as_bytes()),
            comma,
            Piece::Part(key.language.as_bytes()),
            comma,
            Piece::Part(key.architecture.as_bytes()),
            Piece::Bytes(b" "),
            Piece::Version(version),
            Piece::Bytes(b" "),
            Piece::Number(view),
            Piece::Bytes(b"\n"),
        ],
        sink,
    )
}

// Writes what no link gave, up to the causes.
fn print_target<K: Sink>(target: &Target, sink: &mut K) -> Result<(), Failed>
    ensures { WritesText K.Sink sink.old sink.new (lacking_text target.now) result }
{
    print_pieces(
        &[
            Piece::Bytes(b"no links http://"),
            Piece::Bytes(target.host.as_bytes()),
            Piece::Bytes(b":"),
            Piece::Number(target.port as u64),
            Piece::Bytes(target.path.as_bytes()),
            Piece::Bytes(b" "),
        ],
        sink,
    )
}

// Writes what no link gave, and why.
fn print_links<K: Sink>(target: &Target, causes: &[Cause], sink: &mut K) -> Result<(), Failed>
    ensures { WritesText K.Sink sink.old sink.new (links_text target.now causes.now) result }
{
    print_target(target, sink)?;
    print_reasons(causes, sink)?;
    print_pieces(&[Piece::Bytes(b"\n")], sink)
}

// Writes the line that shows a number.
fn print_number_line<K: Sink>(front: &[u8], number: u64, sink: &mut K) -> Result<(), Failed>
    ensures { WritesText K.Sink sink.old sink.new (front.now ++ (decimal number ++ 10 ∷ []))
        result }
{
    print_pieces(
        &[
            Piece::Bytes(front),
            Piece::Number(number),
            Piece::Bytes(b"\n"),
        ],
        sink,
    )
}

// Writes the line that shows a version.
fn print_version_line<K: Sink>(front: &[u8], shown: Version, sink: &mut K) -> Result<(), Failed>
    ensures { WritesText K.Sink sink.old sink.new
        (front.now ++ (version_text shown ++ 10 ∷ [])) result }
{
    print_pieces(
        &[
            Piece::Bytes(front),
            Piece::Version(shown),
            Piece::Bytes(b"\n"),
        ],
        sink,
    )
}

// Writes the reply, by its kind.
#[tactic(auto, unfolding(crate::specs::Lines::reply_text))]
fn print_line<K: Sink>(reply: &Reply, sink: &mut K) -> Result<(), Failed>
    ensures { WritesText K.Sink sink.old sink.new (reply_text reply.now) result }
{
    match reply {
        Reply::At { now } => print_number_line(b"ok at ", *now, sink),
        Reply::Minimum { version } => print_version_line(b"ok minimum ", *version, sink),
        Reply::TooMany { what, limit } => print_pieces(
            &[
                Piece::Bytes(b"no too-many "),
                Piece::Limit(*what),
                Piece::Bytes(b" "),
                Piece::Number(*limit),
                Piece::Bytes(b"\n"),
            ],
            sink,
        ),
        Reply::Installed { key, version, view } => print_installed(key, *version, *view, sink),
        Reply::Checked { offer, minimum } => print_checked(*offer, *minimum, sink),
        Reply::Skipped { version } => print_version_line(b"ok skipped ", *version, sink),
        Reply::Current { version } => print_version_line(b"ok current ", *version, sink),
        Reply::Lease {
            lease,
            version,
            check_due,
        } => print_lease(*lease, *version, *check_due, sink),
        Reply::Read { length, bytes } => print_read(*length, bytes.as_slice(), sink),
        Reply::Put => print_bytes(b"ok put\n", sink),
        Reply::Removed => print_bytes(b"ok removed\n", sink),
        Reply::Group { files } => print_number_line(b"ok group ", *files, sink),
        Reply::Finished { lease } => print_number_line(b"ok finished ", *lease, sink),
        Reply::Cleaned { views } => print_number_line(b"ok cleaned ", *views, sink),
        Reply::Listed { rows } => print_list(rows.as_slice(), sink),
        Reply::Shown { row } => print_show(row, sink),
        Reply::NotInstalled => print_bytes(b"no not-installed\n", sink),
        Reply::NoLease => print_bytes(b"no no-lease\n", sink),
        Reply::NoGroup => print_bytes(b"no no-group\n", sink),
        Reply::NoPrevious => print_bytes(b"no no-previous\n", sink),
        Reply::NothingOffered => print_bytes(b"no nothing-offered\n", sink),
        Reply::NoFile => print_bytes(b"no no-file\n", sink),
        Reply::BadName => print_bytes(b"no bad-name\n", sink),
        Reply::CheckFirst => print_bytes(b"no check-first\n", sink),
        Reply::Required { minimum } => print_version_line(b"no required ", *minimum, sink),
        Reply::Offered { version } => print_version_line(b"no offered ", *version, sink),
        Reply::LeasesFull => print_number_line(b"no leases-full ", LEASE_LIMIT as u64, sink),
        Reply::NotNewer { have } => print_version_line(b"no not-newer ", *have, sink),
        Reply::BelowMinimum { minimum } => print_version_line(b"no below-minimum ", *minimum, sink),
        Reply::Spent { next } => print_number_line(b"no spent ", *next, sink),
        Reply::Full { need, free } => print_pieces(
            &[
                Piece::Bytes(b"no full "),
                Piece::Number(*need),
                Piece::Bytes(b" "),
                Piece::Number(*free),
                Piece::Bytes(b"\n"),
            ],
            sink,
        ),
        Reply::TableFull { weight, room } => print_pieces(
            &[
                Piece::Bytes(b"no table-full "),
                Piece::Number(*weight),
                Piece::Bytes(b" "),
                Piece::Number(*room),
                Piece::Bytes(b"\n"),
            ],
            sink,
        ),
        Reply::AllLinks { target, causes } => print_links(target, causes.as_slice(), sink),
        Reply::Manifest { fault } => print_manifest(fault, sink),
        Reply::Release { fault } => print_release(fault, sink),
        Reply::IdentityDiffers { found } => print_identity(found, sink),
        Reply::BadUrl => print_bytes(b"no bad-url\n", sink),
        Reply::NotHttp => print_bytes(b"no not-http\n", sink),
        Reply::Line { fault } => print_fault(*fault, sink),
        Reply::Memory => print_bytes(b"no memory\n", sink),
    }
}

/// Writes the reply to the sink, each of its lines with its line feed, piece by piece: no memory is taken, and nothing
/// bounds how long a reply may be. Where it fails the sink has taken a first part of the reply, and not all.
pub fn print_reply<K: Sink>(reply: &Reply, sink: &mut K) -> Result<(), Failed>
    ensures bytes { K.tells
        → OnOk result (Appends (K.taken sink.old) (K.taken sink.new) (reply_text reply.now)) }
    ensures part { K.tells
        → OnErr result (AppendsPart (K.taken sink.old) (K.taken sink.new) (reply_text reply.now)) }
    ensures cause { Causes (K.count sink.old) (K.count sink.new) result }
{
    print_line(reply, sink)
}
