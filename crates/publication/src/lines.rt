// The line that says how a publish ended.
ghost use Rattle.std.specs.Prelude.{◌≡◌, IfOk, codes, decimal};
ghost use Rattle.identity.specs.Key.{word_text};
ghost use Rattle.manifest_text.specs.Lines as text;
ghost use Rattle.publication.specs.Lines.{published_line, cause_text, refusal_line, line_of, end_of_publish, end_of_fault};

use crate::publication::PublishEnd;
use itoa::Buffer;
use manifest_text::{about, line, two};
use publisher::{PublishFault, Published};
use small_types::{Bytes, PrintFault};
use std::alloc::Global;

// The line of what was published.
#[tactic(auto, unfolding(crate::specs::Lines::published_line))]
fn write_published(alloc: Global, published: &Published) -> Result<Bytes, PrintFault>
    ensures { IfOk result (λ b. b ≡ published_line published.now) }
{
    let key = published.key.print(alloc)?;
    let version = published.version.print(alloc)?;
    let mut buffer = Buffer::new();
    let counted = two(
        alloc,
        version.as_bytes(),
        buffer.format(published.files).as_bytes(),
    )?;
    let said = two(alloc, key.as_bytes(), counted.as_slice())?;
    let mut out = Bytes::from_vec(Vec::new(alloc));
    line(&mut out, b"published", said.as_slice())?;
    Ok(out)
}

// A word and a number.
fn number(alloc: Global, word: &[u8], number: u64) -> Result<Bytes, PrintFault>
    ensures { IfOk result (λ b. b ≡ text.two word.now (decimal number)) }
{
    let mut buffer = Buffer::new();
    two(alloc, word, buffer.format(number).as_bytes())
}

// A file that is too long.
fn too_long(alloc: Global, file: &[u8], length: u64) -> Result<Bytes, PrintFault>
    ensures { IfOk result (λ b. b
        ≡ text.two (codes "file-too-long") (text.two (word_text file.now) (decimal length))) }
{
    let named = about(alloc, b"file-too-long", file)?;
    number(alloc, named.as_slice(), length)
}

// Why it is refused. A failing folder and want of memory are no refusals, and have no text.
#[tactic(auto, unfolding(crate::specs::Lines::cause_text))]
fn cause(alloc: Global, fault: &PublishFault) -> Result<Bytes, PrintFault>
    ensures { IfOk result (λ b. b ≡ cause_text fault.now) }
{
    match fault {
        PublishFault::BadName { word } => about(alloc, b"bad-name", word.as_bytes()),
        PublishFault::MinimumAbove { minimum } => {
            let minimum = minimum.print(alloc)?;
            two(alloc, b"minimum-above", minimum.as_bytes())
        }
        PublishFault::VersionExists { file } => about(alloc, b"version-exists", file.as_bytes()),
        PublishFault::EmptyInput => Ok(Bytes::from_slice(alloc, b"empty-input")?),
        PublishFault::BadInput { file } => about(alloc, b"bad-input", file.as_bytes()),
        PublishFault::TooMany { what } => two(alloc, b"too-many", what.word()),
        PublishFault::NoEntryPoint => Ok(Bytes::from_slice(alloc, b"no-entry-point")?),
        PublishFault::BadMark { file } => about(alloc, b"bad-mark", file.as_bytes()),
        PublishFault::FileTooLong { file, length } => too_long(alloc, file.as_bytes(), *length),
        PublishFault::ManifestTooLong { length } => number(alloc, b"manifest-too-long", *length),
        PublishFault::Changed { file, .. } => about(alloc, b"changed", file.as_bytes()),
        PublishFault::ReadFault | PublishFault::WriteFault | PublishFault::Memory => {
            Ok(Bytes::from_vec(Vec::new(alloc)))
        }
    }
}

// The line of a refusal.
fn write_refusal(alloc: Global, fault: &PublishFault) -> Result<Bytes, PrintFault>
    ensures { IfOk result (λ b. b ≡ refusal_line fault.now) }
{
    let said = cause(alloc, fault)?;
    let mut out = Bytes::from_vec(Vec::new(alloc));
    line(&mut out, b"no publish", said.as_slice())?;
    Ok(out)
}

/// The line of what came of a publish, where it was done or is refused. It fails only for want of
/// memory.
pub(crate) fn line_of(
    alloc: Global,
    done: &Result<Published, PublishFault>,
) -> Result<Bytes, PrintFault>
    ensures { IfOk result (λ line. line ≡ line_of done.now) }
{
    match done {
        Ok(published) => write_published(alloc, published),
        Err(fault) => write_refusal(alloc, fault),
    }
}

// How the call ends after a fault.
fn end_of_fault(fault: &PublishFault) -> PublishEnd
    ensures { result ≡ end_of_fault fault.now }
{
    match fault {
        PublishFault::ReadFault => PublishEnd::ReadFault,
        PublishFault::WriteFault => PublishEnd::WriteFault,
        PublishFault::Memory => PublishEnd::Memory,
        PublishFault::BadName { .. }
        | PublishFault::MinimumAbove { .. }
        | PublishFault::VersionExists { .. }
        | PublishFault::EmptyInput
        | PublishFault::BadInput { .. }
        | PublishFault::TooMany { .. }
        | PublishFault::NoEntryPoint
        | PublishFault::BadMark { .. }
        | PublishFault::FileTooLong { .. }
        | PublishFault::ManifestTooLong { .. }
        | PublishFault::Changed { .. } => PublishEnd::Refused,
    }
}

/// How the call ends after a publish with this result, once its line is written, if it has one.
pub(crate) fn end_of_publish(done: &Result<Published, PublishFault>) -> PublishEnd
    ensures { result ≡ end_of_publish done.now }
{
    match done {
        Ok(_) => PublishEnd::Done,
        Err(fault) => end_of_fault(fault),
    }
}
