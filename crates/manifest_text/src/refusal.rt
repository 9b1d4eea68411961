// Why a manifest is refused.
ghost use Rattle.std.specs.Prelude.{◌≡◌, ◌++◌, IfOk, OnOk};
ghost use Rattle.std.specs.Prelude.{codes, decimal};
ghost use Rattle.identity.specs.Key.{word_text};
ghost use Rattle.identity.specs.Version.{version_text};
ghost use Rattle.manifest_text.specs.Lines as spec;

use crate::lines::{line, two};
use identity::{Version, word_escape};
use itoa::Buffer;
use manifest_parts::ManifestFault;
use manifest_tree::{TreeFault, TreeKind};
use small_types::{Bytes, PrintFault};
use std::alloc::Global;

fn kind_text(kind: TreeKind) -> &'static [u8]
    ensures { result.now ≡ spec.kind_text kind }
{
    match kind {
        TreeKind::NotUtf8 => b"not-utf8",
        TreeKind::Syntax => b"syntax",
        TreeKind::Entity => b"entity",
        TreeKind::TagMismatch => b"tag",
        TreeKind::AttributeTwice => b"attribute-twice",
        TreeKind::TooDeep => b"too-deep",
        TreeKind::TooLong => b"too-long",
    }
}

// A word of a refusal that says no more.
fn word(alloc: Global, text: &[u8]) -> Result<Bytes, PrintFault>
    ensures { IfOk result (λ b. b ≡ text.now) }
{
    let mut out = Bytes::from_vec(Vec::new(alloc));
    out.extend(text)?;
    Ok(out)
}

/// A word, and the escaped text that it is about. It fails only for want of memory.
pub fn about(alloc: Global, text: &[u8], what: &[u8]) -> Result<Bytes, PrintFault>
    ensures { IfOk result (λ b. b ≡ spec.two text.now (word_text what.now)) }
{
    let escaped = word_escape(alloc, what)?;
    two(alloc, text, escaped.as_bytes())
}

fn tree(alloc: Global, fault: TreeFault) -> Result<Bytes, PrintFault>
    ensures { IfOk result (λ b. b
        ≡ spec.two (codes "tree") (spec.two (spec.kind_text fault.kind) (decimal fault.place))) }
{
    let mut buffer = Buffer::new();
    let said = two(
        alloc,
        kind_text(fault.kind),
        buffer.format(fault.place).as_bytes(),
    )?;
    two(alloc, b"tree", said.as_slice())
}

fn minimum_above(alloc: Global, minimum: Version, version: Version) -> Result<Bytes, PrintFault>
    ensures { IfOk result (λ b. b
        ≡ spec.two (codes "minimum-above")
        (spec.two (version_text minimum) (version_text version))) }
{
    let minimum = minimum.print(alloc)?;
    let version = version.print(alloc)?;
    let said = two(alloc, minimum.as_bytes(), version.as_bytes())?;
    two(alloc, b"minimum-above", said.as_slice())
}

fn cause(alloc: Global, fault: &ManifestFault) -> Result<Bytes, PrintFault>
    ensures { IfOk result (λ b. b ≡ spec.cause_text fault.now) }
{
    match fault {
        ManifestFault::Tree(error) => tree(alloc, *error),
        ManifestFault::Missing { what } => about(alloc, b"missing", what.as_bytes()),
        ManifestFault::Twice { what } => about(alloc, b"twice", what.as_bytes()),
        ManifestFault::BadValue { what } => about(alloc, b"bad-value", what.as_bytes()),
        ManifestFault::Signed => word(alloc, b"signed"),
        ManifestFault::NoDigest { file } => about(alloc, b"no-digest", file.as_bytes()),
        ManifestFault::BadName { file } => about(alloc, b"bad-name", file.as_bytes()),
        ManifestFault::TwiceNamed { file } => about(alloc, b"twice-named", file.as_bytes()),
        ManifestFault::MinimumAboveVersion { minimum, version } => {
            minimum_above(alloc, *minimum, *version)
        }
        ManifestFault::OnlineOnly => word(alloc, b"online-only"),
        ManifestFault::TooMany { what } => two(alloc, b"too-many", what.word()),
        ManifestFault::Memory => word(alloc, b"memory"),
    }
}

/// Adds the line of a refusal. It fails only for want of memory.
pub fn write_refusal(
    alloc: Global,
    out: &mut Bytes,
    fault: &ManifestFault,
) -> Result<(), PrintFault>
    ensures { OnOk result (out.new ≡ out.old ++ spec.refusal_text fault.now) }
{
    let said = cause(alloc, fault)?;
    line(out, b"no manifest", said.as_slice())?;
    Ok(())
}
