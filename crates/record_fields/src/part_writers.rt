// Writing truth values, addresses, identities and rules.
ghost use Rattle.std.specs.Prelude.{◌≡◌, ◌+◌, ◌<◌, ◌≤◌, ◌^◌, length};
ghost use Rattle.small_types.specs.Short.{IsTarget};
ghost use Rattle.record_fields.specs.Fields.{text_field};
ghost use Rattle.record_fields.specs.Places.{WritesField};
ghost use Rattle.record_fields.specs.Spelled.{identity_field, rule_field, target_field, truth_field};
ghost use Rattle.record_fields.specs.Values.{IsEncodableIdentity, IsEncodableRule};

use crate::field_writers::{write_key, write_text, write_u8, write_u16, write_u64, write_version};
use crate::numbers::{AGE_RULE, BEFORE_RULE, FALSE_BYTE, NEVER_RULE, TRUE_BYTE};
use identity::Identity;
use manifests::Rule;
use small_types::Target;

/// Writes the truth value at the place, a byte, and answers the place behind it.
pub fn write_truth(out: &mut [u8], place: usize, truth: bool) -> usize
    requires { place < length out.old }
    ensures { WritesField out.old place (truth_field truth) out.new result }
{
    if truth {
        write_u8(out, place, TRUE_BYTE)
    } else {
        write_u8(out, place, FALSE_BYTE)
    }
}

/// Writes the address at the place, its host, its port in two bytes and its path, and answers the
/// place behind it.
#[tactic(auto, using(crate::proofs::Long::lengths), unfolding(crate::specs::Spelled::target_field))]
pub fn write_target(out: &mut [u8], place: usize, target: &Target) -> usize
    requires target { IsTarget target.now }
    requires room { place + length (target_field target.now) ≤ length out.old }
    ensures { WritesField out.old place (target_field target.now) out.new result }
{
    let next = write_text(out, place, &target.host);
    let next = write_u16(out, next, target.port);
    write_text(out, next, &target.path)
}

/// Writes the identity at the place, its key, its version and its kind, and answers the place
/// behind it.
#[tactic(auto, using(crate::proofs::Long::lengths), unfolding(crate::specs::Spelled::identity_field))]
pub fn write_identity(out: &mut [u8], place: usize, identity: &Identity) -> usize
    requires identity { IsEncodableIdentity identity.now }
    requires room { place + length (identity_field identity.now) ≤ length out.old }
    ensures { WritesField out.old place (identity_field identity.now) out.new result }
{
    let next = write_key(out, place, &identity.key);
    let next = write_version(out, next, identity.version);
    write_text(out, next, &identity.kind)
}

/// Writes the rule at the place, the number of its variant and its field, and answers the place
/// behind it.
#[tactic(auto, using(crate::proofs::Long::lengths), unfolding(crate::specs::Spelled::rule_field))]
pub fn write_rule(out: &mut [u8], place: usize, rule: Rule) -> usize
    requires rule { IsEncodableRule rule }
    requires room { place + length (rule_field rule) ≤ length out.old }
    ensures { WritesField out.old place (rule_field rule) out.new result }
{
    match rule {
        Rule::Never => write_u8(out, place, NEVER_RULE),
        Rule::Before => write_u8(out, place, BEFORE_RULE),
        Rule::Age { seconds } => {
            let next = write_u8(out, place, AGE_RULE);
            write_u64(out, next, seconds)
        }
    }
}
