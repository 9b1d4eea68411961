// Lines, and the words in them.
ghost use Rattle.std.specs.Prelude.{◌≡◌, [], ◌∷◌, ◌++◌, IfOk, OnOk};
ghost use Rattle.std.specs.List.{flat_map};
ghost use Rattle.std.specs.Prelude.{codes, decimal};
ghost use Rattle.identity.specs.Key.{word_text};
ghost use Rattle.identity.specs.Version.{version_text};
ghost use Rattle.manifest_text.specs.Lines as spec;

use digest_list::Digest;
use identity::{Identity, Version, word_escape};
use itoa::Buffer;
use small_types::{Bytes, PrintFault};
use std::alloc::Global;

/// Adds a line: a word, a space, what is said, and a line feed. It fails only for want of memory.
pub fn line(out: &mut Bytes, word: &[u8], said: &[u8]) -> Result<(), PrintFault>
    ensures { OnOk result (out.new ≡ out.old ++ spec.line word.now said.now) }
{
    out.extend(word)?;
    out.push(b' ')?;
    out.extend(said)?;
    out.push(b'\n')?;
    Ok(())
}

/// Two words with a space between them. It fails only for want of memory.
pub fn two(alloc: Global, first: &[u8], second: &[u8]) -> Result<Bytes, PrintFault>
    ensures { IfOk result (λ b. b ≡ spec.two first.now second.now) }
{
    let mut out = Bytes::from_vec(Vec::new(alloc));
    out.extend(first)?;
    out.push(b' ')?;
    out.extend(second)?;
    Ok(out)
}

// Adds a word and the space behind it.
pub(crate) fn begin(out: &mut Bytes, word: &[u8]) -> Result<(), PrintFault>
    ensures { OnOk result (out.new ≡ out.old ++ (word.now ++ 32 ∷ [])) }
{
    out.extend(word)?;
    out.push(b' ')?;
    Ok(())
}

// Ends a line.
pub(crate) fn end(out: &mut Bytes) -> Result<(), PrintFault>
    ensures { OnOk result (out.new ≡ out.old ++ 10 ∷ []) }
{
    out.push(b'\n')?;
    Ok(())
}

// Adds a number.
pub(crate) fn push_number(out: &mut Bytes, number: u64) -> Result<(), PrintFault>
    ensures { OnOk result (out.new ≡ out.old ++ decimal number) }
{
    let mut buffer = Buffer::new();
    out.extend(buffer.format(number).as_bytes())?;
    Ok(())
}

// Adds a version.
pub(crate) fn push_version(out: &mut Bytes, version: Version) -> Result<(), PrintFault>
    ensures { OnOk result (out.new ≡ out.old ++ version_text version) }
{
    let mut text = [0; 23];
    let length = version.write(&mut text);
    out.extend(&text[..length])?;
    Ok(())
}

// Adds an escaped text.
pub(crate) fn push_escaped(alloc: Global, out: &mut Bytes, text: &[u8]) -> Result<(), PrintFault>
    ensures { OnOk result (out.new ≡ out.old ++ word_text text.now) }
{
    let escaped = word_escape(alloc, text)?;
    out.extend(escaped.as_bytes())?;
    Ok(())
}

// Adds a line of a word and a number.
pub(crate) fn number_line(out: &mut Bytes, word: &[u8], number: u64) -> Result<(), PrintFault>
    ensures { OnOk result (out.new ≡ out.old ++ spec.line word.now (decimal number)) }
{
    begin(out, word)?;
    push_number(out, number)?;
    end(out)
}

// Adds a line of a word and an escaped text.
pub(crate) fn text_line(
    alloc: Global,
    out: &mut Bytes,
    word: &[u8],
    text: &[u8],
) -> Result<(), PrintFault>
    ensures { OnOk result (out.new ≡ out.old ++ spec.line word.now (word_text text.now)) }
{
    begin(out, word)?;
    push_escaped(alloc, out, text)?;
    end(out)
}

// Adds a line of a word, a key and a version.
pub(crate) fn identity_line(
    alloc: Global,
    out: &mut Bytes,
    word: &[u8],
    identity: &Identity,
) -> Result<(), PrintFault>
    ensures { OnOk result
        (out.new ≡ out.old ++ spec.line word.now (spec.identity_text identity.now)) }
{
    let key = identity.key.print(alloc)?;
    begin(out, word)?;
    begin(out, key.as_bytes())?;
    push_version(out, identity.version)?;
    end(out)
}

// Adds the line of a digest.
fn digest_line(alloc: Global, out: &mut Bytes, digest: &Digest) -> Result<(), PrintFault>
    ensures { OnOk result (out.new ≡ out.old ++ spec.digest_line digest.now) }
{
    let value = digest.print(alloc)?;
    begin(out, b"digest")?;
    begin(out, digest.algorithm.name().as_bytes())?;
    out.extend(value.as_bytes())?;
    end(out)
}

// Adds the lines of digests.
pub(crate) fn digest_lines(
    alloc: Global,
    out: &mut Bytes,
    digests: &[Digest],
) -> Result<(), PrintFault>
    ensures { OnOk result (out.new ≡ out.old ++ flat_map spec.digest_line digests.now) }
{
    for digest in digests {
        digest_line(alloc, out, digest)?;
    }
    Ok(())
}
