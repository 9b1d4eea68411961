// Reading addresses and identities, from the left.
ghost use Rattle.std.specs.Prelude.{◌≤◌, length, IfOk, IfErr};
ghost use Rattle.record_fields.specs.Readers.{Gives, IsFaultWithin};
ghost use Rattle.record_fields.specs.Parts.{identity_at, target_at};

use crate::CodecFault;
use crate::field_readers::{key_here, text_here, u16_here, version_here};
use identity::Identity;
use small_types::Target;
use small_types::limits::{IDENTITY_PART_LIMIT, URL_LIMIT};
use std::alloc::Global;

// The address at the place, its host, its port and its path, and the place behind it.
#[tactic(auto, unfolding(crate::specs::Parts::target_at))]
pub(crate) fn target_here(
    alloc: Global,
    bytes: &[u8],
    place: usize,
) -> Result<(Target, usize), CodecFault>
    requires { place ≤ length bytes.now }
    ensures exact { Gives result (target_at bytes.now place) }
    ensures next { IfOk result (λ x. x.1 ≤ length bytes.now) }
    ensures fault { IfErr result (IsFaultWithin (length bytes.now)) }
{
    let (host, next) = text_here(alloc, bytes, place, URL_LIMIT)?;
    let (port, next) = u16_here(bytes, next)?;
    let (path, next) = text_here(alloc, bytes, next, URL_LIMIT)?;
    let target = Target { host, port, path };
    Ok((target, next))
}

// The identity at the place, and the place behind it. The fault is that of the first field that
// cannot be read.
#[tactic(auto, unfolding(crate::specs::Parts::identity_at))]
pub(crate) fn identity_here(
    alloc: Global,
    bytes: &[u8],
    place: usize,
) -> Result<(Identity, usize), CodecFault>
    requires { place ≤ length bytes.now }
    ensures exact { Gives result (identity_at bytes.now place) }
    ensures next { IfOk result (λ x. x.1 ≤ length bytes.now) }
    ensures fault { IfErr result (IsFaultWithin (length bytes.now)) }
{
    let (key, next) = key_here(alloc, bytes, place)?;
    let (version, next) = version_here(bytes, next)?;
    let (kind, next) = text_here(alloc, bytes, next, IDENTITY_PART_LIMIT)?;
    let identity = Identity { key, version, kind };
    Ok((identity, next))
}
