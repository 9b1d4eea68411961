// The head block of a journal.
ghost use Rattle.std.specs.Prelude.{◌≡◌, ◌↔◌, IsTrue, ◌<◌, ◌≤◌, ◌+◌, ◌^◌, ℕ, List, ◌++◌, length, drop, IfOk, IfSome, IfNone, OnOk};
ghost use Rattle.journal.specs.Layout.{head_of, head_with, zeros, AreLimits};

use crate::form::{HEAD_GATE, SIGN};
use small_types::limits::{BLOCK_LIMIT, HALF_LEAST, HALF_LIMIT, HALF_STEP, HEAD_BLOCK_SIZE};
use std::alloc::{AllocError, Global};

fn push_zeros(bytes: &mut Vec<u8>, count: usize) -> Result<(), AllocError>
    requires { count < 2 ^ 32 }
    ensures { OnOk result (bytes.new.items ≡ bytes.old.items ++ zeros count) }
{
    let end = bytes.len() + count;
    bytes.resize(end, 0)?;
    Ok(())
}

// The head block for this number of blocks and this half length, with this byte as its gate.
pub(crate) fn head_bytes(
    alloc: Global,
    blocks: u64,
    half: u64,
    gate: u8,
) -> Result<Vec<u8>, AllocError>
    ensures { IfOk result (λ head. head.items ≡ head_with blocks half gate) }
{
    let mut head = SIGN.to_vec(alloc)?;
    head.extend_from_slice(&blocks.to_be_bytes())?;
    head.extend_from_slice(&half.to_be_bytes())?;
    push_zeros(&mut head, HEAD_GATE - 24)?;
    head.push(gate)?;
    push_zeros(&mut head, HEAD_BLOCK_SIZE - (HEAD_GATE + 1))?;
    Ok(head)
}

fn is_same(a: &[u8], b: &[u8]) -> bool
    ensures { IsTrue result ↔ (a.now ≡ b.now) }
{
    a == b
}

/// Whether a journal may have this number of blocks and this half length.
pub fn are_limits(blocks: u64, half: u64) -> bool
    ensures { IsTrue result ↔ AreLimits blocks half }
{
    1 <= blocks
        && blocks <= BLOCK_LIMIT
        && HALF_LEAST <= half
        && half <= HALF_LIMIT
        && half % HALF_STEP == 0
}

// The number of blocks and the half length, where the bytes are the head block of a journal.
pub(crate) fn read_head(alloc: Global, bytes: &[u8]) -> Result<Option<(u64, u64)>, AllocError>
    ensures found { IfOk result (λ o. IfSome o (λ head. AreLimits head.0 head.1
        × (bytes.now ≡ head_of head.0 head.1))) }
    ensures none { IfOk result (λ o. IfNone o ((blocks half : ℕ) → AreLimits blocks half
        → bytes.now ≡ head_of blocks half → ⊥)) }
{
    if bytes.len() != HEAD_BLOCK_SIZE {
        return Ok(None);
    }
    let blocks = u64::from_be_bytes([
        bytes[8], bytes[9], bytes[10], bytes[11], bytes[12], bytes[13], bytes[14], bytes[15],
    ]);
    let half = u64::from_be_bytes([
        bytes[16], bytes[17], bytes[18], bytes[19], bytes[20], bytes[21], bytes[22], bytes[23],
    ]);
    if !are_limits(blocks, half) {
        return Ok(None);
    }
    let head = head_bytes(alloc, blocks, half, 1)?;
    if is_same(bytes, head.as_slice()) {
        Ok(Some((blocks, half)))
    } else {
        Ok(None)
    }
}
