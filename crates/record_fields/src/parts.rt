// Small fields. What is read at a place is within its limits, and stands there as it is spelled; a
// value within its limits that stands there is read, unless memory runs out.
ghost use Rattle.std.specs.Prelude.{◌<◌, ◌≤◌, ◌^◌, ℕ, Bool, List, [], ◌∷◌, length, Ok, IfOk, IfErr};
ghost use Rattle.std.specs.Int.{w16, w32, w64, to_be_bytes};
ghost use Rattle.small_types.specs.declared.target.Target.{Target};
ghost use Rattle.small_types.specs.Name.{IsName};
ghost use Rattle.small_types.specs.Short.{IsShort, IsTarget};
ghost use Rattle.identity.specs.declared.identity.Identity.{Identity};
ghost use Rattle.identity.specs.declared.key.Key.{Key};
ghost use Rattle.identity.specs.declared.version.Version.{Version};
ghost use Rattle.identity.specs.Key.{IsShortKey};
ghost use Rattle.identity.specs.Version.{IsVersion};
ghost use Rattle.manifests.specs.declared.facts.Rule.{Rule};
ghost use Rattle.record_fields.specs.Fields.{key_field, text_field, version_field};
ghost use Rattle.record_fields.specs.Places.{Stands};
ghost use Rattle.record_fields.specs.Spelled.{identity_field, rule_field, target_field, truth_field};
ghost use Rattle.record_fields.specs.Values.{IsEncodableLength, IsEncodableIdentity, IsEncodableRule};
ghost use Rattle.record_fields.specs.Readers.{Gives, IsBad, IsFaultWithin, key_at, number_at, text_at, version_at};
ghost use Rattle.record_fields.specs.Parts.{byte_at, bytes_at, identity_at, name_at, rule_at, target_at, truth_at};

use crate::CodecFault;
use crate::byte_readers::{bytes_here, name_here};
use crate::field_readers::{key_here, text_here, u16_here, u32_here, u64_here, version_here};
use crate::form_readers::{byte_here, rule_here, truth_here};
use crate::part_readers::{identity_here, target_here};
use identity::{Identity, Key, Version};
use manifests::Rule;
use small_types::{Bytes, Name, Target, Text};
use std::alloc::Global;

/// The byte at the place, and the place behind it.
/// The fault is at the place, where none is there.
pub fn read_u8(bytes: &[u8], place: usize) -> Result<(u8, usize), CodecFault>
    requires { place ≤ length bytes.now }
    ensures found { IfOk result (λ x. Stands bytes.now place (x.0 ∷ []) x.1) }
    ensures only { (x next : ℕ) → x < 256 → Stands bytes.now place (x ∷ []) next
        → Gives result (Ok (x, next)) }
    ensures exact { Gives result (byte_at bytes.now place) }
    ensures next { IfOk result (λ x. x.1 ≤ length bytes.now) }
    ensures fault { IfErr result (IsFaultWithin (length bytes.now)) }
    ensures free { IfErr result IsBad }
{
    byte_here(bytes, place)
}

/// The number in the two bytes at the place, the first the greater, and the place behind them.
/// The fault is at the place, where fewer are there.
pub fn read_u16(bytes: &[u8], place: usize) -> Result<(u16, usize), CodecFault>
    requires { place ≤ length bytes.now }
    ensures found { IfOk result (λ x. Stands bytes.now place (to_be_bytes w16 x.0) x.1) }
    ensures only { (x next : ℕ) → x < 2 ^ 16 → Stands bytes.now place (to_be_bytes w16 x) next
        → Gives result (Ok (x, next)) }
    ensures exact { Gives result (number_at w16 bytes.now place) }
    ensures next { IfOk result (λ x. x.1 ≤ length bytes.now) }
    ensures fault { IfErr result (IsFaultWithin (length bytes.now)) }
    ensures free { IfErr result IsBad }
{
    u16_here(bytes, place)
}

/// The number in the four bytes at the place, the first the greatest, and the place behind them.
/// The fault is at the place, where fewer are there.
pub fn read_u32(bytes: &[u8], place: usize) -> Result<(u32, usize), CodecFault>
    requires { place ≤ length bytes.now }
    ensures found { IfOk result (λ x. Stands bytes.now place (to_be_bytes w32 x.0) x.1) }
    ensures only { (x next : ℕ) → x < 2 ^ 32 → Stands bytes.now place (to_be_bytes w32 x) next
        → Gives result (Ok (x, next)) }
    ensures exact { Gives result (number_at w32 bytes.now place) }
    ensures next { IfOk result (λ x. x.1 ≤ length bytes.now) }
    ensures fault { IfErr result (IsFaultWithin (length bytes.now)) }
    ensures free { IfErr result IsBad }
{
    u32_here(bytes, place)
}

/// The number in the eight bytes at the place, the first the greatest, and the place behind them.
/// The fault is at the place, where fewer are there.
pub fn read_u64(bytes: &[u8], place: usize) -> Result<(u64, usize), CodecFault>
    requires { place ≤ length bytes.now }
    ensures found { IfOk result (λ x. Stands bytes.now place (to_be_bytes w64 x.0) x.1) }
    ensures only { (x next : ℕ) → x < 2 ^ 64 → Stands bytes.now place (to_be_bytes w64 x) next
        → Gives result (Ok (x, next)) }
    ensures exact { Gives result (number_at w64 bytes.now place) }
    ensures next { IfOk result (λ x. x.1 ≤ length bytes.now) }
    ensures fault { IfErr result (IsFaultWithin (length bytes.now)) }
    ensures free { IfErr result IsBad }
{
    u64_here(bytes, place)
}

/// The version at the place, its four numbers in two bytes each, and the place behind it.
/// The fault is that of the first number that the bytes end before.
pub fn read_version(bytes: &[u8], place: usize) -> Result<(Version, usize), CodecFault>
    requires { place ≤ length bytes.now }
    ensures found { IfOk result (λ x. Stands bytes.now place (version_field x.0) x.1
        × IsVersion x.0) }
    ensures only { (x : Version) (next : ℕ) → IsVersion x
        → Stands bytes.now place (version_field x) next → Gives result (Ok (x, next)) }
    ensures exact { Gives result (version_at bytes.now place) }
    ensures next { IfOk result (λ x. x.1 ≤ length bytes.now) }
    ensures fault { IfErr result (IsFaultWithin (length bytes.now)) }
    ensures free { IfErr result IsBad }
{
    version_here(bytes, place)
}

/// The truth value at the place, a byte, and the place behind it.
/// The fault is at the place.
pub fn read_truth(bytes: &[u8], place: usize) -> Result<(bool, usize), CodecFault>
    requires { place ≤ length bytes.now }
    ensures found { IfOk result (λ x. Stands bytes.now place (truth_field x.0) x.1) }
    ensures only { (x : Bool) (next : ℕ) → Stands bytes.now place (truth_field x) next
        → Gives result (Ok (x, next)) }
    ensures exact { Gives result (truth_at bytes.now place) }
    ensures next { IfOk result (λ x. x.1 ≤ length bytes.now) }
    ensures fault { IfErr result (IsFaultWithin (length bytes.now)) }
    ensures free { IfErr result IsBad }
{
    truth_here(bytes, place)
}

/// The rule at the place, the number of its variant and its field, and the place behind it.
/// The fault is at the place, where no variant has the number, or at the field.
pub fn read_rule(bytes: &[u8], place: usize) -> Result<(Rule, usize), CodecFault>
    requires { place ≤ length bytes.now }
    ensures found { IfOk result
        (λ x. Stands bytes.now place (rule_field x.0) x.1 × IsEncodableRule x.0) }
    ensures only { (x : Rule) (next : ℕ) → IsEncodableRule x
        → Stands bytes.now place (rule_field x) next
        → Gives result (Ok (x, next)) }
    ensures exact { Gives result (rule_at bytes.now place) }
    ensures next { IfOk result (λ x. x.1 ≤ length bytes.now) }
    ensures fault { IfErr result (IsFaultWithin (length bytes.now)) }
    ensures free { IfErr result IsBad }
{
    rule_here(bytes, place)
}

/// The bytes at the place, behind their number in four bytes, and the place behind them.
/// The fault is at the place, where fewer are there, or more are said than the limit.
pub fn read_bytes(
    alloc: Global,
    bytes: &[u8],
    place: usize,
    limit: usize,
) -> Result<(Bytes, usize), CodecFault>
    requires { place ≤ length bytes.now }
    ensures found { IfOk result
        (λ x. Stands bytes.now place (text_field x.0) x.1 × IsEncodableLength limit x.0) }
    ensures only { (x : List ℕ) (next : ℕ) → IsEncodableLength limit x
        → Stands bytes.now place (text_field x) next → Gives result (Ok (x, next)) }
    ensures exact { Gives result (bytes_at limit bytes.now place) }
    ensures next { IfOk result (λ x. x.1 ≤ length bytes.now) }
    ensures fault { IfErr result (IsFaultWithin (length bytes.now)) }
{
    bytes_here(alloc, bytes, place, limit)
}

/// The name at the place, as its text, and the place behind it. A backslash is in no name.
/// The fault is at the place, where the text that stands there is no name as it stands.
pub fn read_name(alloc: Global, bytes: &[u8], place: usize) -> Result<(Name, usize), CodecFault>
    requires { place ≤ length bytes.now }
    ensures found { IfOk result (λ x. Stands bytes.now place (text_field x.0) x.1 × IsName x.0) }
    ensures only { (x : List ℕ) (next : ℕ) → IsName x → Stands bytes.now place (text_field x) next
        → Gives result (Ok (x, next)) }
    ensures exact { Gives result (name_at bytes.now place) }
    ensures next { IfOk result (λ x. x.1 ≤ length bytes.now) }
    ensures fault { IfErr result (IsFaultWithin (length bytes.now)) }
{
    name_here(alloc, bytes, place)
}

/// The text at the place, behind its length in four bytes, and the place behind it. An empty text is
/// one.
/// The fault is at the place, where the bytes end before the text does, or it has more bytes than the
/// limit or is no UTF-8.
pub fn read_text(
    alloc: Global,
    bytes: &[u8],
    place: usize,
    limit: usize,
) -> Result<(Text, usize), CodecFault>
    requires { place ≤ length bytes.now }
    ensures found { IfOk result (λ x. Stands bytes.now place (text_field x.0) x.1
        × (IsShort limit x.0 × (length x.0 < 2 ^ 32))) }
    ensures only { (x : List ℕ) (next : ℕ) → IsShort limit x × (length x < 2 ^ 32)
        → Stands bytes.now place (text_field x) next → Gives result (Ok (x, next)) }
    ensures exact { Gives result (text_at limit bytes.now place) }
    ensures next { IfOk result (λ x. x.1 ≤ length bytes.now) }
    ensures fault { IfErr result (IsFaultWithin (length bytes.now)) }
{
    text_here(alloc, bytes, place, limit)
}

/// The key at the place, its four parts as texts of at most 240 and 64 bytes, and the place behind
/// it.
/// The fault is that of the first part that cannot be read.
pub fn read_key(alloc: Global, bytes: &[u8], place: usize) -> Result<(Key, usize), CodecFault>
    requires { place ≤ length bytes.now }
    ensures found { IfOk result (λ x. Stands bytes.now place (key_field x.0) x.1 × IsShortKey x.0) }
    ensures only { (x : Key) (next : ℕ) → IsShortKey x → Stands bytes.now place (key_field x) next
        → Gives result (Ok (x, next)) }
    ensures exact { Gives result (key_at bytes.now place) }
    ensures next { IfOk result (λ x. x.1 ≤ length bytes.now) }
    ensures fault { IfErr result (IsFaultWithin (length bytes.now)) }
{
    key_here(alloc, bytes, place)
}

/// The identity at the place, and the place behind it.
/// The fault is that of the first field that cannot be read.
pub fn read_identity(
    alloc: Global,
    bytes: &[u8],
    place: usize,
) -> Result<(Identity, usize), CodecFault>
    requires { place ≤ length bytes.now }
    ensures found { IfOk result
        (λ x. Stands bytes.now place (identity_field x.0) x.1 × IsEncodableIdentity x.0) }
    ensures only { (x : Identity) (next : ℕ) → IsEncodableIdentity x
        → Stands bytes.now place (identity_field x) next → Gives result (Ok (x, next)) }
    ensures exact { Gives result (identity_at bytes.now place) }
    ensures next { IfOk result (λ x. x.1 ≤ length bytes.now) }
    ensures fault { IfErr result (IsFaultWithin (length bytes.now)) }
{
    identity_here(alloc, bytes, place)
}

/// The address at the place, its host, its port and its path, and the place behind it.
/// The fault is that of the first field that cannot be read.
pub fn read_target(alloc: Global, bytes: &[u8], place: usize) -> Result<(Target, usize), CodecFault>
    requires { place ≤ length bytes.now }
    ensures found { IfOk result
        (λ x. Stands bytes.now place (target_field x.0) x.1 × IsTarget x.0) }
    ensures only { (x : Target) (next : ℕ) → IsTarget x
        → Stands bytes.now place (target_field x) next → Gives result (Ok (x, next)) }
    ensures exact { Gives result (target_at bytes.now place) }
    ensures next { IfOk result (λ x. x.1 ≤ length bytes.now) }
    ensures fault { IfErr result (IsFaultWithin (length bytes.now)) }
{
    target_here(alloc, bytes, place)
}
