// The applications of the tables, with the printed keys by which one is found.
ghost use Rattle.std.specs.Prelude.{◌≡◌, ◌<◌, ◌≤◌, length, slice_set, OnOk, OnErr};
ghost use Rattle.std.specs.List.{insert, remove, HoldsAt};
ghost use Rattle.std.specs.List.Sorted.{IsBinarySearchResult, IsSearchInRange};
ghost use Rattle.identity.specs.Key.{key_text};
ghost use Rattle.identity.specs.Printed.{text_cmp};
ghost use Rattle.machine.specs.Entries.{fresh};
ghost use Rattle.machine.specs.Minimums.{raised, raised_app};

use crate::StateFault;
use identity::{Key, Version};
use machine::AppState;
use small_types::{List, Text};
use std::alloc::{AllocFailed, Global};
use std::cmp::Ordering;
use std::mem::replace;

// How a printed key compares with a key. It takes no memory.
pub(crate) fn text_order(text: &Text, key: &Key) -> Ordering
    ensures { result ≡ text_cmp text.now (key_text key.now) }
{
    key.cmp_printed(text.as_bytes()).reverse()
}

// Where the key stands among printed keys in order, or where it would go. It takes no memory.
pub(crate) fn place_of(keys: &[Text], key: &Key) -> Result<usize, usize>
    ensures range { IsSearchInRange result (length keys.now) }
    ensures found { IsBinarySearchResult (λ text. text_cmp text (key_text key.now)) keys.now
        result }
{
    keys.binary_search_by(|text| text_order(text, key))
}

// Puts the item at the place. An `Err` changes nothing.
pub(crate) fn insert_at<T: Drop>(
    alloc: Global,
    list: &mut List<T>,
    place: usize,
    item: T,
) -> Result<(), StateFault>
    requires { place ≤ length list.old }
    ensures ok { OnOk result (list.new ≡ insert list.old place item) }
    ensures err { OnErr result (list.new ≡ list.old) }
{
    let mut items = replace(list, List::from_vec(Vec::new(alloc))).into_vec();
    let done = items.insert(place, item);
    *list = List::from_vec(items);
    match done {
        Ok(()) => Ok(()),
        Err(AllocFailed { .. }) => Err(StateFault::Memory),
    }
}

// Takes the item at the place out.
pub(crate) fn remove_at<T: Drop>(alloc: Global, list: &mut List<T>, place: usize)
    requires { place < length list.old }
    ensures { list.new ≡ remove list.old place }
{
    let mut items = replace(list, List::from_vec(Vec::new(alloc))).into_vec();
    let _ = items.remove(place);
    *list = List::from_vec(items);
}

// The greater of the minimum that holds, where one does, and the version.
pub(crate) fn raised_minimum(minimum: Option<Version>, version: Version) -> Version
    ensures { result ≡ raised minimum version }
{
    match minimum {
        None => version,
        Some(minimum) => minimum.greater(version),
    }
}

// Raises the minimum of the application at the place.
pub(crate) fn raise_at(alloc: Global, apps: &mut List<AppState>, place: usize, version: Version)
    requires { place < length apps.old }
    ensures { HoldsAt (λ app. apps.new ≡ slice_set apps.old place (raised_app version app)) apps.old
        place }
{
    let mut items = replace(apps, List::from_vec(Vec::new(alloc))).into_vec();
    let app = &mut items[place];
    app.minimum = Some(raised_minimum(app.minimum, version));
    *apps = List::from_vec(items);
}

// Puts the key and the application at the place, both or neither.
pub(crate) fn insert_both(
    alloc: Global,
    keys: &mut List<Text>,
    apps: &mut List<AppState>,
    place: usize,
    text: Text,
    app: AppState,
) -> Result<(), StateFault>
    requires keys { place ≤ length keys.old }
    requires apps { place ≤ length apps.old }
    ensures keys { OnOk result (keys.new ≡ insert keys.old place text) }
    ensures apps { OnOk result (apps.new ≡ insert apps.old place app) }
    ensures same_keys { OnErr result (keys.new ≡ keys.old) }
    ensures same_apps { OnErr result (apps.new ≡ apps.old) }
{
    insert_at(alloc, keys, place, text)?;
    match insert_at(alloc, apps, place, app) {
        Ok(()) => Ok(()),
        Err(StateFault::Memory) => {
            remove_at(alloc, keys, place);
            Err(StateFault::Memory)
        }
    }
}

// An entry of which only the minimum is known.
pub(crate) fn new_entry(key: Key, version: Version) -> AppState
    ensures { result ≡ raised_app version (fresh key) }
{
    AppState {
        key,
        provider: None,
        current: None,
        previous: None,
        minimum: Some(version),
        offer: None,
        skipped: None,
        excluded: None,
        last_check: None,
        checked: false,
    }
}
