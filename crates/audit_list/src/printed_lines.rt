// Lines as they are written.
ghost use Rattle.std.specs.Prelude.{◌≡◌, [], ◌∷◌, ◌++◌, OnOk, codes, decimal};
ghost use Rattle.std.specs.List.{flat_map};
ghost use Rattle.hex.specs.Hex.{encode_lower};
ghost use Rattle.digest_list.specs.Algorithm.{name_of};
ghost use Rattle.audit_list.specs.Text.{cause_text, ended, head_text, line_text};

use crate::{AuditLine, Verdict};
use digest_list::{Algorithm, Difference};
use itoa::Buffer;
use small_types::{Bytes, PrintFault};
use std::alloc::Global;

// Adds a number.
fn print_number(out: &mut Bytes, number: u64) -> Result<(), PrintFault>
    ensures { OnOk result (out.new ≡ out.old ++ decimal number) }
{
    let mut buffer = Buffer::new();
    out.extend(buffer.format(number).as_bytes())?;
    Ok(())
}

// Adds a digest in hexadecimal digits, behind a colon.
fn print_value(alloc: Global, out: &mut Bytes, value: &[u8]) -> Result<(), PrintFault>
    ensures { OnOk result (out.new ≡ out.old ++ (58 ∷ encode_lower value.now)) }
{
    let digits = hex::encode(alloc, value)?;
    out.push(b':')?;
    out.extend(digits.as_bytes())?;
    Ok(())
}

// Adds another size.
fn print_sizes(out: &mut Bytes, listed: u64, found: u64) -> Result<(), PrintFault>
    ensures { OnOk result
        (out.new ≡ out.old ++ (codes "size:" ++ (decimal listed ++ (58 ∷ decimal found)))) }
{
    out.extend(b"size:")?;
    print_number(out, listed)?;
    out.push(b':')?;
    print_number(out, found)
}

// Adds another digest.
fn print_values(
    alloc: Global,
    out: &mut Bytes,
    algorithm: Algorithm,
    listed: &[u8],
    found: &[u8],
) -> Result<(), PrintFault>
    ensures { OnOk result
        (out.new ≡ out.old ++ (codes "differs:" ++ (name_of algorithm
        ++ ((58 ∷ encode_lower listed.now) ++ (58 ∷ encode_lower found.now))))) }
{
    out.extend(b"differs:")?;
    out.extend(algorithm.name().as_bytes())?;
    print_value(alloc, out, listed)?;
    print_value(alloc, out, found)
}

// Adds how bytes differ.
fn print_cause(alloc: Global, out: &mut Bytes, cause: &Difference) -> Result<(), PrintFault>
    ensures { OnOk result (out.new ≡ out.old ++ cause_text cause.now) }
{
    match cause {
        Difference::Size { listed, found } => print_sizes(out, *listed, *found),
        Difference::Digest {
            algorithm,
            listed,
            found,
        } => print_values(alloc, out, *algorithm, listed.as_slice(), found.as_slice()),
    }
}

// Adds the word of a verdict, a place and a size.
fn print_words(out: &mut Bytes, word: &[u8], index: u32, size: u64) -> Result<(), PrintFault>
    ensures { OnOk result
        (out.new ≡ out.old ++ (word.now ++ (32 ∷ (decimal index ++ (32 ∷ decimal size))))) }
{
    out.extend(word)?;
    out.push(b' ')?;
    print_number(out, u64::from(index))?;
    out.push(b' ')?;
    print_number(out, size)
}

// Adds a line without its line feed.
fn print_line(alloc: Global, out: &mut Bytes, line: &AuditLine) -> Result<(), PrintFault>
    ensures { OnOk result (out.new ≡ out.old ++ line_text line.now) }
{
    match &line.verdict {
        Verdict::Good => print_words(out, b"good", line.index, line.size),
        Verdict::Bad { difference } => {
            print_words(out, b"bad", line.index, line.size)?;
            out.push(b' ')?;
            print_cause(alloc, out, difference)
        }
    }
}

/// Adds the first line: how many follow.
pub(crate) fn print_head(out: &mut Bytes, count: u64) -> Result<(), PrintFault>
    ensures { OnOk result (out.new ≡ out.old ++ ended (head_text count)) }
{
    out.extend(b"audit ")?;
    print_number(out, count)?;
    out.push(b'\n')?;
    Ok(())
}

/// Adds the lines.
pub(crate) fn print_lines(
    alloc: Global,
    out: &mut Bytes,
    lines: &[AuditLine],
) -> Result<(), PrintFault>
    ensures { OnOk result
        (out.new ≡ out.old ++ flat_map (λ line. ended (line_text line)) lines.now) }
{
    for line in lines {
        print_line(alloc, out, line)?;
        out.push(b'\n')?;
    }
    Ok(())
}
