// Values and texts as they are written.
ghost use Rattle.std.specs.Prelude.{◌≡◌, ◌+◌, ◌++◌, length, OnOk};
ghost use Rattle.std.specs.Option.{option_copied};
ghost use Rattle.manifest_tree.specs.WrittenText.{reference_for, escape, escaped, counted};

use small_types::Bytes;
use std::alloc::AllocError;

// The reference that stands for a byte that is not written as it is.
#[tactic(auto, unfolding(crate::specs::WrittenText::reference_for))]
fn reference_to(byte: u8) -> Option<&'static [u8]>
    ensures { option_copied result ≡ reference_for byte }
{
    match byte {
        b'&' => Some(b"&amp;"),
        b'<' => Some(b"&lt;"),
        b'>' => Some(b"&gt;"),
        b'"' => Some(b"&quot;"),
        b'\t' => Some(b"&#9;"),
        b'\n' => Some(b"&#10;"),
        b'\r' => Some(b"&#13;"),
        _ => None,
    }
}

// How many bytes a byte is written as.
fn escape_length(byte: u8) -> u64
    ensures { result ≡ length (escape byte) }
{
    match reference_to(byte) {
        Some(reference) => reference.len() as u64,
        None => 1,
    }
}

// Adds a byte as it is written.
fn push_escape(out: &mut Bytes, byte: u8) -> Result<(), AllocError>
    ensures { OnOk result (out.new ≡ out.old ++ escape byte) }
{
    match reference_to(byte) {
        Some(reference) => out.extend(reference),
        None => out.push(byte),
    }
}

// How long these bytes are as they are written, behind so many others.
pub(super) fn count_escaped(total: u64, bytes: &[u8]) -> u64
    ensures { result ≡ counted (total + length (escaped bytes.now)) }
{
    let mut count = total;
    for byte in bytes {
        count = count.saturating_add(escape_length(*byte));
    }
    count
}

// Adds these bytes as they are written.
pub(super) fn push_escaped(out: &mut Bytes, bytes: &[u8]) -> Result<(), AllocError>
    ensures { OnOk result (out.new ≡ out.old ++ escaped bytes.now) }
{
    for byte in bytes {
        push_escape(out, *byte)?;
    }
    Ok(())
}
