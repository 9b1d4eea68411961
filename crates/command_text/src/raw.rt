// Bytes, and their hexadecimal digits. None takes memory.
ghost use Rattle.std.specs.Prelude.{◌≡◌, ◌*◌, ◌≤◌, length};
ghost use Rattle.hex.specs.Hex.{encode_lower};
ghost use Rattle.command_text.specs.Pieces.{WritesText};

use hex::encode_to_slice;
use outside::{Failed, Sink, write_all};

/// Writes the bytes.
pub(crate) fn print_bytes<K: Sink>(bytes: &[u8], sink: &mut K) -> Result<(), Failed>
    ensures { WritesText K.Sink sink.old sink.new bytes.now result }
{
    write_all(sink, bytes)
}

// As many bytes are written at a time, each as two digits.
const BYTES_AT_ONCE: usize = 2_048;

// Room for their digits.
fn room() -> [u8; 4_096]
    ensures { length result ≡ 2 * BYTES_AT_ONCE }
{
    [0; 4_096]
}

// Writes so few bytes that there is room for their digits.
fn print_few<K: Sink>(bytes: &[u8], sink: &mut K) -> Result<(), Failed>
    requires { length bytes.now ≤ BYTES_AT_ONCE }
    ensures { WritesText K.Sink sink.old sink.new (encode_lower bytes.now) result }
{
    let mut room = room();
    let digits = &mut room[..2 * bytes.len()];
    if encode_to_slice(bytes, digits).is_err() {
        unreachable!();
    }
    print_bytes(digits, sink)
}

/// Writes the bytes in hexadecimal digits, two for each.
pub(crate) fn print_hex<K: Sink>(bytes: &[u8], sink: &mut K) -> Result<(), Failed>
    ensures { WritesText K.Sink sink.old sink.new (encode_lower bytes.now) result }
{
    let mut rest = bytes;
    while !rest.is_empty() {
        let (few, more) = rest.split_at(rest.len().min(BYTES_AT_ONCE));
        print_few(few, sink)?;
        rest = more;
    }
    Ok(())
}
