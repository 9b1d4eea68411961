// How many bytes values take.
ghost use Rattle.std.specs.Prelude.{◌≡◌, ◌<◌, ◌^◌, length};
ghost use Rattle.record_fields.specs.Fields.{key_field, text_field};
ghost use Rattle.record_fields.specs.Spelled.{application_field, deployment_field, digest_field, entry_field, identity_field, list_field, listed_field, rule_field, target_field, terms_field};

use crate::item::{list_length, option_length};
use crate::item_values::{DigestField, EntryField, TextField, VersionField};
use digest_list::{Digest, DigestList};
use identity::{Identity, Key};
use manifests::{Application, Deployment, FileEntry, Rule};
use small_types::{Name, Target, Text};

/// How many bytes bytes take, behind their number.
#[tactic(auto, using(crate::proofs::Long::lengths), unfolding(crate::specs::Fields::text_field))]
pub fn bytes_length(bytes: &[u8]) -> u64
    requires { length (text_field bytes.now) < 2 ^ 63 }
    ensures { result ≡ length (text_field bytes.now) }
{
    4 + bytes.len() as u64
}

/// How many bytes a text takes.
pub fn text_length(text: &Text) -> u64
    requires { length (text_field text.now) < 2 ^ 63 }
    ensures { result ≡ length (text_field text.now) }
{
    bytes_length(text.as_bytes())
}

/// How many bytes a name takes.
pub fn name_length(name: &Name) -> u64
    requires { length (text_field name.now) < 2 ^ 63 }
    ensures { result ≡ length (text_field name.now) }
{
    bytes_length(name.as_bytes())
}

/// How many bytes a key takes.
#[tactic(auto, using(crate::proofs::Long::lengths), unfolding(crate::specs::Fields::key_field))]
pub fn key_length(key: &Key) -> u64
    requires { length (key_field key.now) < 2 ^ 63 }
    ensures { result ≡ length (key_field key.now) }
{
    text_length(&key.name)
        + text_length(&key.token)
        + text_length(&key.language)
        + text_length(&key.architecture)
}

/// How many bytes an address takes.
#[tactic(auto, using(crate::proofs::Long::lengths), unfolding(crate::specs::Spelled::target_field))]
pub fn target_length(target: &Target) -> u64
    requires { length (target_field target.now) < 2 ^ 63 }
    ensures { result ≡ length (target_field target.now) }
{
    text_length(&target.host) + 2 + text_length(&target.path)
}

/// How many bytes an identity takes.
#[tactic(auto, using(crate::proofs::Long::lengths), unfolding(crate::specs::Spelled::identity_field))]
pub fn identity_length(identity: &Identity) -> u64
    requires { length (identity_field identity.now) < 2 ^ 63 }
    ensures { result ≡ length (identity_field identity.now) }
{
    key_length(&identity.key) + 8 + text_length(&identity.kind)
}

/// How many bytes a rule takes.
#[tactic(auto, using(crate::proofs::Long::lengths), unfolding(crate::specs::Spelled::rule_field))]
pub fn rule_length(rule: Rule) -> u64
    ensures { result ≡ length (rule_field rule) }
{
    match rule {
        Rule::Never | Rule::Before => 1,
        Rule::Age { .. } => 9,
    }
}

/// How many bytes a digest takes.
#[tactic(auto, using(crate::proofs::Long::lengths), unfolding(crate::specs::Spelled::digest_field))]
pub fn digest_length(digest: &Digest) -> u64
    requires { length (digest_field digest.now) < 2 ^ 63 }
    ensures { result ≡ length (digest_field digest.now) }
{
    1 + bytes_length(digest.value.as_slice())
}

/// How many bytes digests take, behind their number.
pub fn digests_length(digests: &DigestList) -> u64
    requires { length (list_field digest_field digests.now) < 2 ^ 63 }
    ensures { result ≡ length (list_field digest_field digests.now) }
{
    list_length::<DigestField>(digests.as_slice())
}

/// How many bytes a listed file takes.
#[tactic(auto, using(crate::proofs::Long::lengths), unfolding(crate::specs::Spelled::entry_field))]
pub fn entry_length(entry: &FileEntry) -> u64
    requires { length (entry_field entry.now) < 2 ^ 63 }
    ensures { result ≡ length (entry_field entry.now) }
{
    name_length(&entry.name)
        + 8
        + digests_length(&entry.list)
        + option_length::<TextField>(&entry.group)
        + 1
}

#[tactic(auto, using(crate::proofs::Long::lengths), unfolding(crate::specs::Spelled::terms_field))]
fn terms_length(deployment: &Deployment) -> u64
    requires { length (terms_field deployment.now) < 2 ^ 63 }
    ensures { result ≡ length (terms_field deployment.now) }
{
    identity_length(&deployment.identity)
        + 1
        + option_length::<VersionField>(&deployment.minimum)
        + 1
        + rule_length(deployment.rule)
        + option_length::<TextField>(&deployment.provider)
}

#[tactic(auto, using(crate::proofs::Long::lengths), unfolding(crate::specs::Spelled::listed_field))]
fn listed_length(deployment: &Deployment) -> u64
    requires { length (listed_field deployment.now) < 2 ^ 63 }
    ensures { result ≡ length (listed_field deployment.now) }
{
    text_length(&deployment.codebase)
        + identity_length(&deployment.app)
        + 8
        + digests_length(&deployment.app_list)
}

/// How many bytes what a deployment manifest says takes.
#[tactic(auto, using(crate::proofs::Long::lengths), unfolding(crate::specs::Spelled::deployment_field))]
pub fn deployment_length(deployment: &Deployment) -> u64
    requires { length (deployment_field deployment.now) < 2 ^ 63 }
    ensures { result ≡ length (deployment_field deployment.now) }
{
    terms_length(deployment) + listed_length(deployment)
}

/// How many bytes what an application manifest says takes.
#[tactic(auto, using(crate::proofs::Long::lengths), unfolding(crate::specs::Spelled::application_field))]
pub fn application_length(application: &Application) -> u64
    requires { length (application_field application.now) < 2 ^ 63 }
    ensures { result ≡ length (application_field application.now) }
{
    identity_length(&application.identity)
        + text_length(&application.entry)
        + text_length(&application.parameters)
        + list_length::<EntryField>(application.files.as_slice())
}
