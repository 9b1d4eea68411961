// The deployment manifest that an application's provider offers.
ghost use Rattle.std.specs.Prelude.{◌≡◌, ◌⊎◌, ◌↔◌, IfErr, IfOk, IsTrue};
ghost use Rattle.machine.specs.declared.reply.Reply.TheVariants as says;
ghost use Rattle.install_plan.specs.Offers.{IsNoOffer, IsOffer};

use crate::texts::hear_deployment;
use identity::Key;
use links::Links;
use machine::{Heard, Reply};
use manifests::Deployment;
use small_types::{CopyFault, Duplicate, Target};
use std::alloc::Global;

// The refusal of a manifest of another key.
fn other_key(alloc: Global, found: &Key) -> Reply
    ensures { (result ≡ says.Memory) ⊎ (result ≡ says.IdentityDiffers found.now) }
{
    match found.copy(alloc) {
        Ok(found) => Reply::IdentityDiffers { found },
        Err(CopyFault::Memory) => Reply::Memory,
    }
}

// Whether the keys are equal.
fn is_key(key: &Key, other: &Key) -> bool
    ensures { IsTrue result ↔ key.now ≡ other.now }
{
    key == other
}

// Hears the deployment manifest at the provider of the key, which is to be of that key.
pub(crate) fn hear_offer<L: Links>(
    alloc: Global,
    links: &mut L,
    key: &Key,
    provider: &Target,
    heard: &mut Heard,
) -> Result<Deployment, Reply>
    ensures told { IfOk result (IsOffer key.now provider.now heard.old.texts heard.new.texts
        (L.links links.old) (L.links links.new)) }
    ensures refused { IfErr result (IsNoOffer key.now provider.now heard.old.texts heard.new.texts
        (L.links links.old) (L.links links.new)) }
{
    let deployment = match hear_deployment(alloc, links, provider, heard) {
        Ok(deployment) => deployment,
        Err(reply) => return Err(reply),
    };
    if !is_key(&deployment.identity.key, key) {
        let reply = other_key(alloc, &deployment.identity.key);
        drop(deployment);
        return Err(reply);
    }
    Ok(deployment)
}
