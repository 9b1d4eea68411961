// Whether the version of a deployment may come, and where its application manifest lies.
ghost use Rattle.std.specs.Prelude.{◌≡◌, ◌↔◌, ℕ, IfOk, IsTrue, Ok};
ghost use Rattle.small_types.specs.declared.room.Room.{Room};
ghost use Rattle.addresses.specs.Address.{target_of_text};
ghost use Rattle.addresses.specs.Join.{app_target_of};
ghost use Rattle.manifests.specs.declared.facts.Deployment.{Deployment};
ghost use Rattle.machine.specs.InstallRow.{LacksEntry};
ghost use Rattle.machine.specs.Current.{current_version};
ghost use Rattle.machine.specs.Minimums.{minimum_of};
ghost use Rattle.store_state.specs.Tables.{table_shape};
ghost use Rattle.install_plan.specs.Judges.{Judges, address_checks, count_checks, deployment_checks, version_checks};

use crate::replies::url_reply;
use addresses::{app_target, target_of};
use identity::{Key, Version};
use machine::Reply;
use manifests::Deployment;
use small_types::limits::{APPLICATION_LIMIT, NUMBER_LIMIT, VIEW_LIMIT};
use small_types::{Bytes, Limit, Target};
use std::alloc::Global;
use store_state::StoreState;

// The address that was given.
pub(crate) fn given_address(alloc: Global, url: &Bytes) -> Result<Target, Reply>
    ensures read { IfOk result (λ target. target_of_text url.now ≡ Ok target) }
    ensures judged { Judges (address_checks (target_of_text url.now)) result }
{
    match target_of(alloc, url.as_slice()) {
        Ok(target) => Ok(target),
        Err(fault) => Err(url_reply(fault)),
    }
}

// The address of the application manifest.
pub(crate) fn application_address(
    alloc: Global,
    target: &Target,
    d: &Deployment,
) -> Result<Target, Reply>
    ensures joined { IfOk result (λ base. app_target_of target.now d.now.codebase ≡ Ok base) }
    ensures judged { Judges (address_checks (app_target_of target.now d.now.codebase)) result }
{
    match app_target(alloc, target, &d.codebase) {
        Ok(base) => Ok(base),
        Err(fault) => Err(url_reply(fault)),
    }
}

// The version that is current for the key.
fn version_of(state: &StoreState, key: &Key) -> Option<Version>
    ensures { (room : Room) → result ≡ current_version key.now (table_shape room state.now) }
{
    match state.current(key) {
        Some(view) => Some(view.deployment.identity.version),
        None => None,
    }
}

// The minimum of the key.
fn minimum_for(state: &StoreState, key: &Key) -> Option<Version>
    ensures { result ≡ minimum_of key.now state.now.apps }
{
    match state.entry(key) {
        Some(app) => app.minimum,
        None => None,
    }
}

// Whether the version may come.
pub(crate) fn judge_version(state: &StoreState, d: &Deployment) -> Result<(), Reply>
    ensures { (room : Room) → Judges (version_checks (table_shape room state.now) d.now) result }
{
    let version = d.identity.version;
    if let Some(have) = version_of(state, &d.identity.key) {
        if !have.is_below(&version) {
            return Err(Reply::NotNewer { have });
        }
    }
    if let Some(minimum) = minimum_for(state, &d.identity.key) {
        if version.is_below(&minimum) {
            return Err(Reply::BelowMinimum { minimum });
        }
    }
    Ok(())
}

// Whether the application lacks an entry, and none can be made.
fn lacks_entry(state: &StoreState, key: &Key) -> bool
    ensures { (room : Room) (d : Deployment) → d.identity.key ≡ key.now
        → (IsTrue result ↔ LacksEntry (table_shape room state.now) d) }
{
    state.entry(key).is_none() && state.count() >= APPLICATION_LIMIT
}

// Whether there is a place for the view.
pub(crate) fn judge_counts(state: &StoreState, d: &Deployment) -> Result<(), Reply>
    ensures { (room : Room) → Judges (count_checks (table_shape room state.now) d.now) result }
{
    if lacks_entry(state, &d.identity.key) {
        return Err(Reply::TooMany {
            what: Limit::Applications,
            limit: APPLICATION_LIMIT as u64,
        });
    }
    if state.view_count() >= VIEW_LIMIT {
        return Err(Reply::TooMany {
            what: Limit::Views,
            limit: VIEW_LIMIT as u64,
        });
    }
    if state.next_view == NUMBER_LIMIT {
        return Err(Reply::Spent {
            next: state.next_view,
        });
    }
    Ok(())
}

// Judges the deployment that was heard, and answers the address of its application manifest.
pub(crate) fn judge_deployment(
    alloc: Global,
    state: &StoreState,
    target: &Target,
    d: &Deployment,
) -> Result<Target, Reply>
    ensures joined { IfOk result (λ base. app_target_of target.now d.now.codebase ≡ Ok base) }
    ensures judged { (room : Room) → Judges (deployment_checks (table_shape room state.now) d.now
        (app_target_of target.now d.now.codebase)) result }
{
    if let Err(reply) = judge_version(state, d) {
        return Err(reply);
    }
    if let Err(reply) = judge_counts(state, d) {
        return Err(reply);
    }
    match application_address(alloc, target, d) {
        Ok(base) => Ok(base),
        Err(reply) => Err(reply),
    }
}
