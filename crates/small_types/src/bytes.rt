ghost use Rattle.std.specs.Prelude.{◌≡◌, ◌==◌, ◌+◌, ◌-◌, ◌≤◌, ◌<◌, ◌^◌, min, [], ◌∷◌, ◌++◌, length, take, drop, replicate, IfOk, OnOk, OnErr};
ghost use Rattle.std.proofs.Common.{rules};
ghost use Rattle.std.specs.Cmp.Rules.{comparing};
ghost use Rattle.small_types.specs.Bytes.{put, fill};
ghost use lib.Pointwise.{pointwise};

use crate::{CopyFault, Duplicate};
use std::alloc::{AllocError, Global};
use std::marker::Model;

/// Bytes on the heap. Contracts see them as a list of numbers.
#[derive(Drop, Debug)]
pub struct Bytes {
    held: Vec<u8>,
}

impl Model for Bytes {
    ghost use Rattle.std.specs.Prelude.{ℕ, List};

    ghost Value = { List ℕ };

    ghost view = { λ b. b.held.items };
}

impl Bytes {
    /// These bytes. It takes no memory.
    pub fn from_vec(bytes: Vec<u8>) -> Bytes
        ensures { result ≡ bytes.items }
    {
        Bytes { held: bytes }
    }

    /// The bytes, to be read.
    pub fn as_slice(&self) -> &[u8]
        ensures { result.now ≡ self.now }
    {
        self.held.as_slice()
    }

    /// The vector that holds them.
    pub fn into_vec(self) -> Vec<u8>
        ensures { result.items ≡ self }
    {
        let Bytes { held } = self;
        held
    }

    /// Adds a byte at the end. An `Err` changes nothing.
    pub fn push(&mut self, byte: u8) -> Result<(), AllocError>
        ensures ok { OnOk result (self.new ≡ self.old ++ byte ∷ []) }
        ensures err { OnErr result (self.new ≡ self.old) }
    {
        self.held.push(byte)?;
        Ok(())
    }

    /// A copy of these bytes.
    pub fn from_slice(alloc: Global, bytes: &[u8]) -> Result<Bytes, AllocError>
        ensures { IfOk result (λ made. made ≡ bytes.now) }
    {
        Ok(Bytes {
            held: bytes.to_vec(alloc)?,
        })
    }

    /// Adds bytes at the end. An `Err` changes nothing.
    pub fn extend(&mut self, bytes: &[u8]) -> Result<(), AllocError>
        ensures ok { OnOk result (self.new ≡ self.old ++ bytes.now) }
        ensures err { OnErr result (self.new ≡ self.old) }
    {
        self.held.extend_from_slice(bytes)?;
        Ok(())
    }
}

// Lengthens to at least a length, with zeros. An `Err` changes nothing.
fn lengthen(held: &mut Vec<u8>, end: usize) -> Result<(), AllocError>
    ensures ok { OnOk result
        (held.new.items ≡ held.old.items ++ replicate (end - length held.old.items) 0) }
    ensures err { OnErr result (held.new.items ≡ held.old.items) }
{
    if end > held.len() {
        held.resize(end, 0)?;
    }
    Ok(())
}

// Writes over the bytes that stand at a place.
fn overwrite(held: &mut Vec<u8>, place: usize, piece: &[u8])
    requires { place + length piece.now ≤ length held.old.items }
    ensures { held.new.items
        ≡ take place held.old.items
        ++ (piece.now ++ drop (place + length piece.now) held.old.items) }
{
    held[place..place + piece.len()].copy_from_slice(piece);
}

// Writes one byte over a range.
fn fill_range(bytes: &mut [u8], from: usize, to: usize, byte: u8)
    requires start { from ≤ to }
    requires end { to ≤ length bytes.old }
    ensures { bytes.new ≡ take from bytes.old ++ (replicate (to - from) byte ++ drop to bytes.old) }
{
    bytes[from..to].fill(byte);
}

impl Bytes {
    /// Puts bytes at a place, with zeros in a gap before them. An `Err` changes nothing.
    pub fn put(&mut self, place: usize, piece: &[u8]) -> Result<(), AllocError>
        requires { place + length piece.now < 2 ^ 64 }
        ensures ok { OnOk result (self.new ≡ put place piece.now self.old) }
        ensures err { OnErr result (self.new ≡ self.old) }
    {
        lengthen(&mut self.held, place + piece.len())?;
        overwrite(&mut self.held, place, piece);
        Ok(())
    }

    /// Fills a range with one byte, past the end too. An `Err` changes nothing.
    pub fn fill(&mut self, place: usize, count: usize, byte: u8) -> Result<(), AllocError>
        requires { place + count < 2 ^ 64 }
        ensures ok { OnOk result (self.new ≡ fill place count byte self.old) }
        ensures err { OnErr result (self.new ≡ self.old) }
    {
        let end = place + count;
        let kept = place.min(self.held.len());
        if end > self.held.len() {
            self.held.resize(end, byte)?;
        }
        fill_range(self.held.as_mut_slice(), kept, end, byte);
        Ok(())
    }

    /// Drops what stands from a length on.
    pub fn shorten(&mut self, length: u64)
        ensures { self.new ≡ take length self.old }
    {
        self.held.truncate(length as usize);
    }

    /// Fills what stands from a place on with one byte.
    pub fn fill_from(&mut self, place: u64, byte: u8)
        ensures { self.new ≡ take place self.old ++ replicate (length self.old - place) byte }
    {
        let end = self.held.len();
        let kept = (place as usize).min(end);
        fill_range(self.held.as_mut_slice(), kept, end, byte);
    }
}

impl PartialEq for Bytes {
    ghost eq = { pointwise ◌==◌ };

    ghost laws = { Prim.search (comparing, rules) };

    fn eq(&self, other: &Bytes) -> bool {
        self.held == other.held
    }
}

impl Eq for Bytes {
    ghost laws = { Prim.search (comparing, rules) };
}

impl Duplicate for Bytes {
    fn copy(&self, alloc: Global) -> Result<Self, CopyFault> {
        Ok(Bytes {
            held: self.held.to_vec(alloc)?,
        })
    }
}
