ghost use Rattle.std.specs.Prelude.{◌≡◌, ◌≢◌, ◌<◌, ◌≤◌, Ok, Err, List, ℕ, false, length, take, IfOk, IfSome, IfNone, IsOk, IsTrue};
ghost use Rattle.base64.specs.Engines.{standard};
ghost use Rattle.base64.specs.GeneralPurpose.{decode_of, encode_of, IsBytes};
ghost use Rattle.hex.specs.Hex.{encode_lower};
ghost use Rattle.digest_list.specs.declared.digest.DigestFault.TheVariants.{Memory};
ghost use Rattle.digest_list.specs.Algorithm.{size_of};
ghost use Rattle.digest_list.specs.Digest.{IsSized, Gives, digest_of, is_space, without_space};

use crate::Algorithm;
use arrayvec::ArrayVec;
use base64::engine::general_purpose::STANDARD;
use small_types::{Bytes, CopyFault, Duplicate, PrintFault, Text};
use std::alloc::{AllocError, Global};
use std::error::Error;
use std::fmt;

// The length of the base64 of the longest digest.
const TEXT_LIMIT: usize = 88;

// The bytes that so much base64 stands for at most.
const ROOM: usize = 66;

/// A digest under an algorithm. What is read has just the algorithm's length.
#[derive(Drop, Debug, PartialEq, Eq)]
pub struct Digest {
    pub algorithm: Algorithm,
    pub value: Bytes,
}

/// Why a text is no digest.
#[derive(Clone, Copy, Debug, PartialEq, Eq)]
pub enum DigestFault {
    /// Without its white space the text is not the base64 of a value of the algorithm's length.
    Bad,
    /// There was no memory for the digest.
    Memory,
}

impl fmt::Display for DigestFault {
    fn fmt<W: fmt::Write>(&self, f: &mut fmt::Formatter<W>) -> fmt::Result {
        match self {
            DigestFault::Bad => write!(f, "no digest"),
            DigestFault::Memory => write!(f, "out of memory"),
        }
    }
}

impl Error for DigestFault {}

impl From<AllocError> for DigestFault {
    ghost from_gives = { λ _ e. e ≡ Memory };

    fn from(_: AllocError) -> DigestFault {
        DigestFault::Memory
    }
}

// Whether the byte is a space, a tab, a line feed or a carriage return.
fn is_white(byte: u8) -> bool
    ensures { result ≡ is_space byte }
{
    byte == b' ' || byte == b'\t' || byte == b'\n' || byte == b'\r'
}

// The text without its white space, where that is no longer than the base64 of a digest.
fn dense_text(text: &[u8]) -> Option<ArrayVec<u8, TEXT_LIMIT>>
    ensures dense { IfSome result (λ kept. kept.items ≡ without_space text.now) }
    ensures long { IfNone result (88 < length (without_space text.now)) }
{
    let mut kept = ArrayVec::new();
    for byte in text {
        if !is_white(*byte) {
            if kept.is_full() {
                return None;
            }
            kept.push(*byte);
        }
    }
    Some(kept)
}

// The value of that length that the base64 stands for, at the front of the buffer.
fn decode_here(size: usize, text: &[u8], out: &mut [u8]) -> bool
    requires short { length text.now ≤ 88 }
    requires room { length out.old ≡ 66 }
    requires small { size ≤ 64 }
    ensures value { IsTrue result → decode_of standard text.now ≡ Ok (take size out.new) }
    ensures other { result ≡ false
        → IfOk (decode_of standard text.now) (λ value. length value ≢ size) }
    ensures room { length out.new ≡ 66 }
{
    match STANDARD.decode_slice_unchecked(text, out) {
        Ok(count) => count == size,
        Err(_) => false,
    }
}

impl Digest {
    /// The digest that the text spells: without spaces, tabs, line feeds and carriage returns it is the standard
    /// base64 (RFC 4648, section 4) of a value of the algorithm's length, with its padding and with zeros for the
    /// bits left over. `Bad` comes exactly where it is not. `Memory` may come at any text that spells a digest.
    pub fn read(alloc: Global, algorithm: Algorithm, text: &[u8]) -> Result<Digest, DigestFault>
        ensures exact { Gives result (digest_of algorithm text.now) }
        ensures sized { IfOk result IsSized }
        ensures spelled { IfOk result (λ d. without_space text.now ≡ encode_of standard d.value) }
        ensures refused { result ≡ Err DigestFault.Bad
            → (b : List ℕ) → IsBytes b → length b ≡ size_of algorithm
            → without_space text.now ≢ encode_of standard b }
        ensures memory { result ≡ Err DigestFault.Memory → IsOk (digest_of algorithm text.now) }
    {
        let Some(kept) = dense_text(text) else {
            return Err(DigestFault::Bad);
        };
        let size = algorithm.size();
        let mut room = [0; ROOM];
        if !decode_here(size, &kept, &mut room) {
            return Err(DigestFault::Bad);
        }
        let value = Vec::from_slice(alloc, &room[..size])?;
        Ok(Digest {
            algorithm,
            value: Bytes::from_vec(value),
        })
    }

    /// Its value in lower-case hexadecimal, two digits a byte. It fails only for want of memory.
    pub fn print(&self, alloc: Global) -> Result<Text, PrintFault>
        ensures { IfOk result (λ t. t ≡ encode_lower self.now.value) }
    {
        let text = hex::encode(alloc, self.value.as_slice())?;
        Ok(Text::from_string(text))
    }

    /// Its value in standard base64 with padding. Where the value has the algorithm's length, the text is read back
    /// as this digest. It fails only for want of memory.
    pub fn to_base64(&self, alloc: Global) -> Result<Text, PrintFault>
        ensures text { IfOk result (λ t. t ≡ encode_of standard self.now.value) }
        ensures again { IsSized self.now
            → IfOk result (λ t. digest_of self.now.algorithm t ≡ Ok self.now) }
    {
        let text = STANDARD.encode(alloc, self.value.as_slice())?;
        Ok(Text::from_string(text))
    }
}

impl Duplicate for Digest {
    fn copy(&self, alloc: Global) -> Result<Self, CopyFault> {
        Ok(Digest {
            algorithm: self.algorithm,
            value: self.value.copy(alloc)?,
        })
    }
}
