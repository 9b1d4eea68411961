// What an install does to the applications and the rows of the tables.
ghost use Rattle.std.specs.Prelude.{◌≡◌, ◌<◌, ◌≤◌, [], ◌∷◌, ◌++◌, length, slice_set, OnOk, OnErr};
ghost use Rattle.std.specs.List.{HoldsAt};
ghost use Rattle.machine.specs.Entries.{fresh, with_entry};
ghost use Rattle.machine.specs.Installed.{above, installed_app, raised_by};
ghost use Rattle.store_state.specs.Kept.{AreKept};

use crate::entries::{insert_both, place_of, raised_minimum};
use crate::{Content, StateFault, View};
use identity::{Key, Version};
use machine::AppState;
use manifests::Deployment;
use small_types::{Duplicate, List, Target, Text};
use std::alloc::{AllocError, AllocFailed, Global};
use std::mem::replace;

// The version, where it is above the installed one.
pub(crate) fn above(installed: Version, version: Option<Version>) -> Option<Version>
    ensures { result ≡ above installed version }
{
    match version {
        Some(version) => {
            if installed.is_below(&version) {
                Some(version)
            } else {
                None
            }
        }
        None => None,
    }
}

// The greater of the old minimum and the heard one.
pub(crate) fn raised_by(heard: Option<Version>, old: Option<Version>) -> Option<Version>
    ensures { result ≡ raised_by heard old }
{
    match heard {
        Some(heard) => Some(raised_minimum(old, heard)),
        None => old,
    }
}

// The view of that number becomes the current one of the application.
fn install_in(app: &mut AppState, number: u64, d: &Deployment, provider: Target, now: u64)
    ensures { app.new ≡ installed_app number d.now provider now app.old }
{
    let version = d.identity.version;
    app.provider = Some(provider);
    app.previous = app.current;
    app.current = Some(number);
    app.minimum = raised_by(d.minimum, app.minimum);
    app.offer = above(version, app.offer);
    app.skipped = above(version, app.skipped);
    app.excluded = above(version, app.excluded);
    app.last_check = Some(now);
    app.checked = true;
}

// It becomes that of the application at the place.
fn install_at(
    alloc: Global,
    apps: &mut List<AppState>,
    place: usize,
    view: &View,
    provider: Target,
    now: u64,
)
    requires { place < length apps.old }
    ensures { HoldsAt (λ app. apps.new ≡ slice_set apps.old place
        (installed_app view.now.number view.now.deployment provider now app)) apps.old place }
{
    let mut items = replace(apps, List::from_vec(Vec::new(alloc))).into_vec();
    install_in(
        &mut items[place],
        view.number,
        &view.deployment,
        provider,
        now,
    );
    *apps = List::from_vec(items);
}

// An entry of which nothing is known yet.
fn fresh_entry(key: Key) -> AppState
    ensures { result ≡ fresh key }
{
    AppState {
        key,
        provider: None,
        current: None,
        previous: None,
        minimum: None,
        offer: None,
        skipped: None,
        excluded: None,
        last_check: None,
        checked: false,
    }
}

// An entry of which the view is the current one.
fn installed_entry(key: Key, view: &View, provider: Target, now: u64) -> AppState
    ensures { result ≡ installed_app view.now.number view.now.deployment provider now (fresh key) }
{
    let mut app = fresh_entry(key);
    install_in(&mut app, view.number, &view.deployment, provider, now);
    app
}

// The view becomes the current one of its application, which gets an entry where it has none. An
// `Err` changes nothing.
fn install_app(
    alloc: Global,
    keys: &mut List<Text>,
    apps: &mut List<AppState>,
    view: &View,
    provider: Target,
    now: u64,
) -> Result<(), StateFault>
    requires { AreKept keys.old apps.old }
    ensures ok { OnOk result (apps.new ≡ with_entry view.now.deployment.identity.key
        (installed_app view.now.number view.now.deployment provider now) apps.old) }
    ensures kept { AreKept keys.new apps.new }
    ensures same_apps { OnErr result (apps.new ≡ apps.old) }
    ensures same_keys { OnErr result (keys.new ≡ keys.old) }
{
    let key = &view.deployment.identity.key;
    match place_of(keys.as_slice(), key) {
        Ok(place) => {
            install_at(alloc, apps, place, view, provider, now);
            Ok(())
        }
        Err(place) => {
            let text = key.print(alloc)?;
            let app = installed_entry(key.copy(alloc)?, view, provider, now);
            insert_both(alloc, keys, apps, place, text, app)?;
            Ok(())
        }
    }
}

// Adds the view and its index, both or neither.
fn add_view(
    views: &mut List<View>,
    names: &mut List<List<usize>>,
    view: View,
    index: List<usize>,
) -> Result<(), StateFault>
    ensures views { OnOk result (views.new ≡ views.old ++ view ∷ []) }
    ensures names { OnOk result (names.new ≡ names.old ++ index ∷ []) }
    ensures same_views { OnErr result (views.new ≡ views.old) }
    ensures same_names { OnErr result (names.new ≡ names.old) }
{
    let count = views.as_slice().len();
    views.push(view)?;
    match names.push(index) {
        Ok(()) => Ok(()),
        Err(AllocFailed { .. }) => {
            views.shorten(count);
            Err(StateFault::Memory)
        }
    }
}

// Adds the view with its index and the contents, all or nothing.
fn add_rows(
    views: &mut List<View>,
    names: &mut List<List<usize>>,
    contents: &mut List<Content>,
    view: View,
    index: List<usize>,
    new: List<Content>,
) -> Result<(), StateFault>
    requires { length names.old ≡ length views.old }
    ensures views { OnOk result (views.new ≡ views.old ++ view ∷ []) }
    ensures names { OnOk result (names.new ≡ names.old ++ index ∷ []) }
    ensures contents { OnOk result (contents.new ≡ contents.old ++ new) }
    ensures same_views { OnErr result (views.new ≡ views.old) }
    ensures same_names { OnErr result (names.new ≡ names.old) }
    ensures same_contents { OnErr result (contents.new ≡ contents.old) }
{
    let count = views.as_slice().len();
    add_view(views, names, view, index)?;
    match contents.append(new) {
        Ok(()) => Ok(()),
        Err(AllocError) => {
            views.shorten(count);
            names.shorten(count);
            Err(StateFault::Memory)
        }
    }
}

// Adds the view with its index and the contents, as the current one of its application, all or
// nothing.
pub(crate) fn add_installed(
    alloc: Global,
    views: &mut List<View>,
    names: &mut List<List<usize>>,
    contents: &mut List<Content>,
    keys: &mut List<Text>,
    apps: &mut List<AppState>,
    view: View,
    index: List<usize>,
    new: List<Content>,
    provider: Target,
    now: u64,
) -> Result<(), StateFault>
    requires long { length names.old ≡ length views.old }
    requires kept { AreKept keys.old apps.old }
    ensures views { OnOk result (views.new ≡ views.old ++ view ∷ []) }
    ensures names { OnOk result (names.new ≡ names.old ++ index ∷ []) }
    ensures contents { OnOk result (contents.new ≡ contents.old ++ new) }
    ensures apps { OnOk result (apps.new ≡ with_entry view.deployment.identity.key
        (installed_app view.number view.deployment provider now) apps.old) }
    ensures kept { AreKept keys.new apps.new }
    ensures same_views { OnErr result (views.new ≡ views.old) }
    ensures same_names { OnErr result (names.new ≡ names.old) }
    ensures same_contents { OnErr result (contents.new ≡ contents.old) }
    ensures same_apps { OnErr result (apps.new ≡ apps.old) }
{
    let count = views.as_slice().len();
    let held = contents.as_slice().len();
    add_rows(views, names, contents, view, index, new)?;
    let added = &views.as_slice()[count];
    match install_app(alloc, keys, apps, added, provider, now) {
        Ok(()) => Ok(()),
        Err(StateFault::Memory) => {
            views.shorten(count);
            names.shorten(count);
            contents.shorten(held);
            Err(StateFault::Memory)
        }
    }
}
