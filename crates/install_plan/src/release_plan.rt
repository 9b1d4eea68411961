// The manifests of an install.
ghost use Rattle.std.specs.Prelude.{◌≡◌, ℕ, List, [], IfErr, IfOk, IfSome, Ok, Some, map, slice_get};
ghost use Rattle.addresses.specs.Address.{target_of_text};
ghost use Rattle.addresses.specs.Join.{app_target_of, file_target_of};
ghost use Rattle.manifests.specs.Facts.{IsProvider};
ghost use Rattle.addresses.specs.declared.fault.UrlFault.TheVariants as no_address;
ghost use Rattle.machine.specs.Fields.{IsApplication};
ghost use Rattle.machine.specs.Installed.{IsProvidedBy};
ghost use Rattle.machine.specs.Wanted.{wanted};
ghost use Rattle.install_plan.specs.Plans.{IsPlanned, IsRefused};
ghost use Rattle.store_state.specs.Tables.{bare_row, table_shape};
ghost use Rattle.install_plan.specs.Judges.{Judges, release_checks};

use crate::deployment::{given_address, judge_deployment};
use crate::release::{judge_places, judge_tables};
use crate::texts::{hear_application, hear_deployment};
use crate::{InstallPlan, WantedFile};
use addresses::{UrlFault, target_of};
use links::Links;
use machine::{Heard, Reply};
use manifests::{Application, Deployment};
use small_types::{Bytes, CopyFault, Duplicate, List, Room, Target};
use std::alloc::Global;
use store_state::StoreState;

// The reply where only want of memory can be the fault.
fn memory_reply(fault: UrlFault) -> Reply
    requires { fault ≡ no_address.Memory }
    ensures { result ≡ Reply.Memory }
{
    match fault {
        UrlFault::Memory => Reply::Memory,
        UrlFault::BadUrl | UrlFault::NotHttp { .. } => unreachable!(),
    }
}

// The address that updates come from: the manifest's, or the given one where the manifest gives
// none. What a manifest gives was read as an address.
fn provider_of(alloc: Global, target: &Target, d: &Deployment) -> Result<Target, Reply>
    requires read { IfSome d.now.provider IsProvider }
    ensures provided { IfOk result (IsProvidedBy target.now d.now.provider) }
    ensures memory { IfErr result (λ reply. reply ≡ Reply.Memory) }
{
    let Some(text) = &d.provider else {
        return match target.copy(alloc) {
            Ok(provider) => Ok(provider),
            Err(CopyFault::Memory) => Err(Reply::Memory),
        };
    };
    match target_of(alloc, text.as_bytes()) {
        Ok(provider) => Ok(provider),
        Err(fault) => Err(memory_reply(fault)),
    }
}

// What is fetched of a release that passes, and where updates of it come from.
#[derive(Drop)]
struct Judged {
    wanted: List<WantedFile>,
    provider: Target,
}

// Judges the release that was heard, and answers the files that are wanted, and the provider.
fn judge_heard(
    alloc: Global,
    state: &StoreState,
    room: Room,
    target: &Target,
    base: &Target,
    d: &Deployment,
    a: &Application,
) -> Result<Judged, Reply>
    requires read { IfSome d.now.provider IsProvider }
    ensures provided { IfOk result (λ j. IsProvidedBy target.now d.now.provider j.provider) }
    ensures places { IfOk result (λ j.
        map (λ file. slice_get a.now.files file.place) j.wanted
        ≡ map Some (wanted (map bare_row state.now.views) a.now)) }
    ensures targets { IfOk result (λ j.
        map (λ entry. file_target_of base.now d.now.mapped entry.name)
        (wanted (map bare_row state.now.views) a.now) ≡ map (λ file. Ok file.target) j.wanted) }
    ensures judged { (url : List ℕ) → target_of_text url ≡ Ok target.now
        → app_target_of target.now d.now.codebase ≡ Ok base.now → IsApplication a.now
        → Judges (release_checks url (table_shape room state.now) d.now a.now) result }
{
    let wants = match judge_places(alloc, state, room, base, d, a) {
        Ok(wants) => wants,
        Err(reply) => return Err(reply),
    };
    let provider = match provider_of(alloc, target, d) {
        Ok(provider) => provider,
        Err(reply) => return Err(reply),
    };
    match judge_tables(
        alloc,
        state,
        room,
        &provider,
        base,
        d,
        a,
        wants.places.as_slice(),
    ) {
        Ok(()) => Ok(Judged {
            wanted: wants.files,
            provider,
        }),
        Err(reply) => Err(reply),
    }
}

// What was heard at the address of a plan.
#[derive(Drop)]
struct Told {
    deployment: Deployment,
    application: Application,
    base: Target,
    judged: Judged,
}

// Hears the manifests of the release at the target, and judges them.
fn hear_at<L: Links>(
    alloc: Global,
    state: &StoreState,
    room: Room,
    links: &mut L,
    target: &Target,
    heard: &mut Heard,
) -> Result<Told, Reply>
    requires empty { heard.old.texts ≡ [] }
    ensures plan { (url : List ℕ) → target_of_text url ≡ Ok target.now
        → IfOk result (λ told. IsPlanned (table_shape room state.now) url heard.new.texts
        (L.links links.old) (L.links links.new) (record {
          deployment = told.deployment;
          application = told.application;
          url = target.now;
          base = told.base;
          provider = told.judged.provider;
          wanted = told.judged.wanted;
        })) }
    ensures refused { (url : List ℕ) → target_of_text url ≡ Ok target.now
        → IfErr result (IsRefused (table_shape room state.now) url heard.new.texts
        (L.links links.old) (L.links links.new)) }
{
    let deployment = match hear_deployment(alloc, links, target, heard) {
        Ok(deployment) => deployment,
        Err(reply) => return Err(reply),
    };
    let base = match judge_deployment(alloc, state, target, &deployment) {
        Ok(base) => base,
        Err(reply) => {
            drop(deployment);
            return Err(reply);
        }
    };
    let application = match hear_application(alloc, links, &base, &deployment, heard) {
        Ok(application) => application,
        Err(reply) => {
            drop(base);
            drop(deployment);
            return Err(reply);
        }
    };
    match judge_heard(alloc, state, room, target, &base, &deployment, &application) {
        Ok(judged) => Ok(Told {
            deployment,
            application,
            base,
            judged,
        }),
        Err(reply) => {
            drop(application);
            drop(base);
            drop(deployment);
            Err(reply)
        }
    }
}

/// Hears the manifests of the release at the address, and judges them. The deployment manifest is
/// asked for where the address is one, and the application manifest where the deployment is not
/// refused; nothing else is asked for. The texts that were heard are added. An `Err` is the reply.
pub fn hear<L: Links>(
    alloc: Global,
    state: &StoreState,
    room: Room,
    links: &mut L,
    url: &Bytes,
    heard: &mut Heard,
) -> Result<InstallPlan, Reply>
    requires empty { heard.old.texts ≡ [] }
    ensures plan { IfOk result (IsPlanned (table_shape room state.now) url.now heard.new.texts
        (L.links links.old) (L.links links.new)) }
    ensures refused { IfErr result (IsRefused (table_shape room state.now) url.now heard.new.texts
        (L.links links.old) (L.links links.new)) }
{
    let target = match given_address(alloc, url) {
        Ok(target) => target,
        Err(reply) => return Err(reply),
    };
    match hear_at(alloc, state, room, links, &target, heard) {
        Ok(told) => Ok(InstallPlan {
            deployment: told.deployment,
            application: told.application,
            url: target,
            base: told.base,
            provider: told.judged.provider,
            wanted: told.judged.wanted,
        }),
        Err(reply) => Err(reply),
    }
}
