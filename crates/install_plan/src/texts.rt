// One manifest after the other.
ghost use Rattle.std.specs.Prelude.{◌≡◌, ◌<◌, ◌^◌, IfErr, IfOk, List, ℕ};
ghost use Rattle.digest_list.specs.Matches.{Matches};
ghost use Rattle.fetcher.specs.Causes.{IsFileCause, IsTextCause};
ghost use Rattle.fetcher.specs.Fetched.{IsThis, KeptAll, KeptBut};
ghost use Rattle.fetcher.specs.Given.{FitsText};
ghost use Rattle.manifest_parts.specs.Elements.{Read};
ghost use Rattle.manifest_tree.specs.Tree.{Tree};
ghost use Rattle.manifests.specs.declared.facts.Application.{Application};
ghost use Rattle.manifests.specs.Applications.{application_of};
ghost use Rattle.manifests.specs.Deployments.{deployment_of};
ghost use Rattle.small_types.specs.declared.limits.TheConstants as limits;
ghost use Rattle.install_plan.specs.Stages.{HearsOne, IsGot, StopsOne};

use crate::basket::ByteBasket;
use crate::replies::{fetch_reply, manifest_reply};
use fetcher::{fetch_file, fetch_text};
use links::Links;
use machine::{Heard, Reply};
use manifests::{Application, Deployment, read_application, read_deployment};
use small_types::limits::MANIFEST_LIMIT;
use small_types::{Bytes, Target};
use std::alloc::{AllocFailed, Global};

// Hears the deployment manifest at the target.
pub(crate) fn hear_deployment<L: Links>(
    alloc: Global,
    links: &mut L,
    target: &Target,
    heard: &mut Heard,
) -> Result<Deployment, Reply>
    ensures told { IfOk result (HearsOne deployment_of (FitsText limits.MANIFEST_LIMIT) target.now
        (L.links links.old) (L.links links.new) heard.old.texts heard.new.texts) }
    ensures stopped { IfErr result (StopsOne deployment_of
        (IsTextCause limits.MANIFEST_LIMIT target.now)
        (FitsText limits.MANIFEST_LIMIT) target.now (L.links links.old) (L.links links.new)
        heard.old.texts heard.new.texts) }
    ensures kept { KeptAll (L.links links.old) (L.links links.new) }
{
    let text = match fetch_text(alloc, links, target, MANIFEST_LIMIT as u64) {
        Ok(text) => text,
        Err(fault) => return Err(fetch_reply(fault)),
    };
    let read = read_deployment(alloc, text.as_slice());
    if let Err(AllocFailed { .. }) = heard.texts.push(text) {
        drop(read);
        return Err(Reply::Memory);
    }
    match read {
        Ok(deployment) => Ok(deployment),
        Err(fault) => Err(manifest_reply(fault)),
    }
}

// The bytes of the application manifest that the deployment lists, at the base.
fn fetch_listed<L: Links>(
    alloc: Global,
    links: &mut L,
    base: &Target,
    d: &Deployment,
) -> Result<Bytes, Reply>
    requires below { d.now.app_size < 2 ^ 61 }
    ensures got { IfOk result (IsGot (Matches d.now.app_list d.now.app_size) base.now
        (L.links links.old) (L.links links.new)) }
    ensures stopped { (facts : Tree → Read Application) (texts : List (List ℕ))
        → IfErr result (StopsOne facts (IsFileCause d.now.app_list d.now.app_size base.now)
        (Matches d.now.app_list d.now.app_size) base.now (L.links links.old) (L.links links.new)
        texts texts) }
    ensures kept { KeptBut (IsThis base.now d.now.app_list d.now.app_size)
        (L.links links.old) (L.links links.new) }
{
    let mut basket = ByteBasket::new(alloc, d.app_size);
    match fetch_file(alloc, links, base, d.app_size, &d.app_list, &mut basket) {
        Ok(()) => Ok(Bytes::from_vec(basket.bytes)),
        Err(fault) => Err(fetch_reply(fault)),
    }
}

// Hears the application manifest that the deployment lists, at the base.
pub(crate) fn hear_application<L: Links>(
    alloc: Global,
    links: &mut L,
    base: &Target,
    d: &Deployment,
    heard: &mut Heard,
) -> Result<Application, Reply>
    requires below { d.now.app_size < 2 ^ 61 }
    ensures told { IfOk result (HearsOne application_of
        (Matches d.now.app_list d.now.app_size) base.now
        (L.links links.old) (L.links links.new) heard.old.texts heard.new.texts) }
    ensures stopped { IfErr result (StopsOne application_of
        (IsFileCause d.now.app_list d.now.app_size base.now)
        (Matches d.now.app_list d.now.app_size) base.now (L.links links.old) (L.links links.new)
        heard.old.texts heard.new.texts) }
    ensures kept { KeptBut (IsThis base.now d.now.app_list d.now.app_size)
        (L.links links.old) (L.links links.new) }
{
    let text = match fetch_listed(alloc, links, base, d) {
        Ok(text) => text,
        Err(reply) => return Err(reply),
    };
    let read = read_application(alloc, text.as_slice());
    if let Err(AllocFailed { .. }) = heard.texts.push(text) {
        drop(read);
        return Err(Reply::Memory);
    }
    match read {
        Ok(application) => Ok(application),
        Err(fault) => Err(manifest_reply(fault)),
    }
}
