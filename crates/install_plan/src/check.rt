// The change that a check makes.
ghost use Rattle.std.specs.Prelude.{◌≡◌, ◌≤◌, ◌↔◌, ℕ, [], IsTrue, Some};
ghost use Rattle.small_types.specs.declared.room.Room.{Room};
ghost use Rattle.small_types.specs.declared.limits.TheConstants.{NUMBER_LIMIT};
ghost use Rattle.machine.specs.Installed.{above, raised_by};
ghost use Rattle.store_state.specs.declared.change.Change.TheVariants as change;
ghost use Rattle.install_plan.specs.Checks.{MissesTo, NotesTo, checked_of, heard_of, is_missing};
ghost use Rattle.install_plan.specs.Prepared.{IsCheckPrepared};

use crate::Prepared;
use crate::offers::hear_offer;
use identity::{Key, Version};
use links::Links;
use machine::{AppState, Heard, Reply};
use small_types::{CopyFault, Duplicate};
use std::alloc::Global;
use store_state::{Change, StoreState};

// What a check heard at a moment of an application, of which a version is current.
#[derive(Clone, Copy, Debug)]
pub(crate) struct Offered {
    pub(crate) have: Version,
    pub(crate) version: Version,
    pub(crate) minimum: Option<Version>,
    pub(crate) now: u64,
}

// The version that was heard, where it is above the current one.
fn offer_of(have: Version, version: Version) -> Option<Version>
    ensures { result ≡ above have (Some version) }
{
    if have.is_below(&version) {
        return Some(version);
    }
    None
}

// The greater of the old minimum and the heard one.
fn raised_by(heard: Option<Version>, old: Option<Version>) -> Option<Version>
    ensures { result ≡ raised_by heard old }
{
    let Some(heard) = heard else {
        return old;
    };
    match old {
        Some(old) => Some(old.greater(heard)),
        None => Some(heard),
    }
}

// Whether the moments are equal, where there are any.
fn is_moment(moment: Option<u64>, other: Option<u64>) -> bool
    ensures { IsTrue result ↔ moment ≡ other }
{
    moment == other
}

// Whether the versions are equal, where there are any.
fn is_version(version: Option<Version>, other: Option<Version>) -> bool
    ensures { IsTrue result ↔ version ≡ other }
{
    version == other
}

// Whether what was heard is what is known.
fn is_known(app: &AppState, offered: Offered) -> bool
    ensures { IsTrue result ↔ heard_of offered app.now ≡ app.now }
{
    if !app.checked {
        return false;
    }
    if !is_moment(app.last_check, Some(offered.now)) {
        return false;
    }
    if !is_version(app.offer, offer_of(offered.have, offered.version)) {
        return false;
    }
    is_version(app.minimum, raised_by(offered.minimum, app.minimum))
}

// The reply that shows what was heard.
fn checked_reply(app: &AppState, offered: Offered) -> Reply
    ensures { result ≡ checked_of offered app.now }
{
    Reply::Checked {
        offer: offer_of(offered.have, offered.version),
        minimum: raised_by(offered.minimum, app.minimum),
    }
}

// The change that notes what was heard, with the reply; or the reply alone, where it is known.
fn heard_change(alloc: Global, key: &Key, app: &AppState, offered: Offered) -> Prepared
    ensures { NotesTo (heard_of offered) app.now
        (change.Heard key.now offered.version offered.minimum offered.now)
        (checked_of offered app.now) result }
{
    if is_known(app, offered) {
        return Prepared::Reply {
            reply: checked_reply(app, offered),
        };
    }
    match key.copy(alloc) {
        Ok(key) => Prepared::Change {
            change: Change::Heard {
                key,
                version: offered.version,
                minimum: offered.minimum,
                now: offered.now,
            },
            reply: checked_reply(app, offered),
        },
        Err(CopyFault::Memory) => Prepared::Reply {
            reply: Reply::Memory,
        },
    }
}

// Whether the reply names a target that no link gave.
fn is_missing(reply: &Reply) -> bool
    ensures { result ≡ is_missing reply.now }
{
    matches!(reply, Reply::AllLinks { .. })
}

// The change that notes that no link gave the manifest, with the reply; or the reply alone, where
// that is noted, or where it says another thing.
fn unheard_change(alloc: Global, key: &Key, app: &AppState, reply: Reply) -> Prepared
    ensures { MissesTo key.now app.now reply result }
{
    if !is_missing(&reply) {
        return Prepared::Reply { reply };
    }
    if app.checked {
        return Prepared::Reply { reply };
    }
    match key.copy(alloc) {
        Ok(key) => Prepared::Change {
            change: Change::Unheard { key },
            reply,
        },
        Err(CopyFault::Memory) => {
            drop(reply);
            Prepared::Reply {
                reply: Reply::Memory,
            }
        }
    }
}

/// Hears what the application's provider offers. Where that is to be noted, it comes to the change
/// of the tables, which fits them, and the reply that is then due: also where no link gives the
/// manifest, since the check then counts as made.
pub fn prepare_check<L: Links>(
    alloc: Global,
    state: &StoreState,
    links: &mut L,
    now: u64,
    key: &Key,
    heard: &mut Heard,
) -> Prepared
    requires empty { heard.old.texts ≡ [] }
    requires moment { now ≤ NUMBER_LIMIT }
    ensures { (room : Room) → IsCheckPrepared room state.now key.now heard.new.texts
        (L.links links.old) (L.links links.new) now result }
{
    let Some(view) = state.current(key) else {
        return Prepared::Reply {
            reply: Reply::NotInstalled,
        };
    };
    let Some(app) = state.entry(key) else {
        return Prepared::Reply {
            reply: Reply::NotInstalled,
        };
    };
    let Some(provider) = &app.provider else {
        return Prepared::Reply {
            reply: Reply::NotInstalled,
        };
    };
    let d = match hear_offer(alloc, links, key, provider, heard) {
        Ok(d) => d,
        Err(reply) => return unheard_change(alloc, key, app, reply),
    };
    let offered = Offered {
        have: view.deployment.identity.version,
        version: d.identity.version,
        minimum: d.minimum,
        now,
    };
    drop(d);
    heard_change(alloc, key, app, offered)
}
