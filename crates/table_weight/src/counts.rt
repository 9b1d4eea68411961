// How much single things weigh, as far as a number goes.
ghost use Rattle.std.specs.Prelude.{◌≡◌, ◌*◌, ◌-◌, ◌^◌, ℕ, length, min};
ghost use Rattle.machine.specs.Blocks.{blocks_of};
ghost use Rattle.machine.specs.Weight.{application_bytes, counted, deployment_bytes, digests_weight, identity_bytes, key_bytes, target_bytes};

use digest_list::DigestList;
use identity::{Identity, Key};
use machine::{BLOCK_WEIGHT, DIGEST_WEIGHT};
use manifests::{Application, Deployment};
use small_types::limits::BLOCK_SIZE;
use small_types::{Target, Text};

// ---- the bytes of texts

pub(crate) fn count_text(text: &Text) -> u64
    ensures { result ≡ length text.now }
{
    text.as_bytes().len() as u64
}

pub(crate) fn count_some_text(text: &Option<Text>) -> u64
    ensures { result ≡ counted (length {A = ℕ}) text.now }
{
    match text {
        Some(text) => count_text(text),
        None => 0,
    }
}

#[tactic(auto, unfolding(machine::specs::Weight::key_bytes))]
pub(crate) fn count_key(key: &Key) -> u64
    ensures { result ≡ min (key_bytes key.now) (2 ^ 64 - 1) }
{
    count_text(&key.name)
        .saturating_add(count_text(&key.token))
        .saturating_add(count_text(&key.language))
        .saturating_add(count_text(&key.architecture))
}

#[tactic(auto, unfolding(machine::specs::Weight::target_bytes))]
pub(crate) fn count_target(target: &Target) -> u64
    ensures { result ≡ min (target_bytes target.now) (2 ^ 64 - 1) }
{
    count_text(&target.host).saturating_add(count_text(&target.path))
}

pub(crate) fn count_some_target(target: &Option<Target>) -> u64
    ensures { result ≡ min (counted target_bytes target.now) (2 ^ 64 - 1) }
{
    match target {
        Some(target) => count_target(target),
        None => 0,
    }
}

#[tactic(auto, unfolding(machine::specs::Weight::identity_bytes))]
fn count_identity(identity: &Identity) -> u64
    ensures { result ≡ min (identity_bytes identity.now) (2 ^ 64 - 1) }
{
    count_key(&identity.key).saturating_add(count_text(&identity.kind))
}

#[tactic(auto, unfolding(machine::specs::Weight::deployment_bytes))]
pub(crate) fn count_deployment(d: &Deployment) -> u64
    ensures { result ≡ min (deployment_bytes d.now) (2 ^ 64 - 1) }
{
    count_identity(&d.identity)
        .saturating_add(count_some_text(&d.provider))
        .saturating_add(count_text(&d.codebase))
        .saturating_add(count_identity(&d.app))
}

#[tactic(auto, unfolding(machine::specs::Weight::application_bytes))]
pub(crate) fn count_application(a: &Application) -> u64
    ensures { result ≡ min (application_bytes a.now) (2 ^ 64 - 1) }
{
    count_identity(&a.identity)
        .saturating_add(count_text(&a.entry))
        .saturating_add(count_text(&a.parameters))
}

// ---- the weight of parts

pub(crate) fn weigh_digests(list: &DigestList) -> u64
    ensures { result ≡ min (digests_weight list.now) (2 ^ 64 - 1) }
{
    DIGEST_WEIGHT.saturating_mul(list.as_slice().len() as u64)
}

// How many blocks so many bytes take.
fn blocks_of(bytes: u64) -> u64
    ensures { result ≡ blocks_of bytes }
{
    let block = BLOCK_SIZE as u64;
    if bytes % block == 0 {
        bytes / block
    } else {
        bytes / block + 1
    }
}

// What the blocks of so many bytes weigh.
pub(crate) fn weigh_blocks(bytes: u64) -> u64
    ensures { result ≡ min (BLOCK_WEIGHT * blocks_of bytes) (2 ^ 64 - 1) }
{
    BLOCK_WEIGHT.saturating_mul(blocks_of(bytes))
}
