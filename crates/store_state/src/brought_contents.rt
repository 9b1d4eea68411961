// Whether contents are exactly those that files of a view lack.
ghost use Rattle.std.specs.Prelude.{◌≡◌, ◌≢◌, ◌↔◌, ◌⊎◌, ◌&&◌, not, map, All, AllPairs, Contains, IsTrue, IfOk};
ghost use Rattle.std.specs.List.Sorted.{IsSorted};
ghost use Rattle.std.specs.declared.cmp.Ordering.TheVariants.{Less};
ghost use Rattle.machine.specs.Groups.{group_files};
ghost use Rattle.machine.specs.Views.{ContentKey, content_key, standing_entries, stands_by};
ghost use Rattle.store_state.specs.ContentKeys.{Agree, content_key_cmp};
ghost use Rattle.store_state.specs.Contents.{held_key};

use crate::content_key::{ContentKey, has_key, key_order};
use crate::view::{is_in_group, is_one_of};
use crate::{Content, StateFault, StoreState, View};
use manifests::FileEntry;
use small_types::{Duplicate, Text};
use std::alloc::Global;

// ---- the files that stand

// Whether the group stands, where there is one.
fn stands_by(groups: &[Text], group: &Option<Text>) -> bool
    ensures { result ≡ stands_by groups.now group.now }
{
    match group {
        Some(group) => is_one_of(groups, group),
        None => true,
    }
}

// Whether the file is a program file that stands.
pub(crate) fn stands(groups: &[Text], entry: &FileEntry) -> bool
    ensures { result ≡ (not entry.now.local && stands_by groups.now entry.now.group) }
{
    !entry.local && stands_by(groups, &entry.group)
}

// The content key of a file.
fn key_of(alloc: Global, entry: &FileEntry) -> Result<ContentKey, StateFault>
    ensures { IfOk result (λ key. key ≡ content_key entry.now) }
{
    Ok(ContentKey {
        size: entry.size,
        list: entry.list.copy(alloc)?,
    })
}

// The content keys of the program files that stand in the view.
pub(crate) fn standing_keys(alloc: Global, view: &View) -> Result<Vec<ContentKey>, StateFault>
    ensures { IfOk result (λ keys. keys.items
        ≡ map content_key (standing_entries view.now.groups view.now.application)) }
{
    let groups = view.groups.as_slice();
    let mut keys = Vec::new(alloc);
    for entry in view.application.files.as_slice() {
        if stands(groups, entry) {
            keys.push(key_of(alloc, entry)?)?;
        }
    }
    Ok(keys)
}

// The content keys of the program files of the group that the view lists.
pub(crate) fn group_keys(
    alloc: Global,
    view: &View,
    group: &Text,
) -> Result<Vec<ContentKey>, StateFault>
    ensures { IfOk result (λ keys. keys.items
        ≡ map content_key (group_files group.now view.now.application)) }
{
    let mut keys = Vec::new(alloc);
    for entry in view.application.files.as_slice() {
        if is_in_group(entry, group) {
            keys.push(key_of(alloc, entry)?)?;
        }
    }
    Ok(keys)
}

// ---- content keys in order

// Whether the first is below the second.
fn is_below(a: &ContentKey, b: &ContentKey) -> bool
    ensures { IsTrue result ↔ content_key_cmp a.now b.now ≡ Less }
{
    key_order(a, b.size, b.list.as_slice()).is_lt()
}

// Whether no two are equal.
fn are_distinct(keys: &[ContentKey]) -> bool
    requires { IsSorted content_key_cmp keys.now }
    ensures { IsTrue result ↔ AllPairs (λ (a b : ContentKey). a ≢ b) keys.now }
{
    for place in 1..keys.len() {
        if !is_below(&keys[place - 1], &keys[place]) {
            return false;
        }
    }
    true
}

// Whether the key is among them.
fn is_among(keys: &[ContentKey], key: &ContentKey) -> bool
    requires { IsSorted content_key_cmp keys.now }
    ensures { IsTrue result ↔ Contains keys.now key.now }
{
    has_key(keys, key.size, key.list.as_slice())
}

// Whether a content of the tables has the key.
fn is_held(state: &StoreState, key: &ContentKey) -> bool
    ensures { IsTrue result ↔ Contains (map held_key state.now.contents) key.now }
{
    state.has_content(key.size, key.list.as_slice())
}

// Whether the key is held or brought.
fn is_held_or_brought(state: &StoreState, brought: &[ContentKey], key: &ContentKey) -> bool
    requires { IsSorted content_key_cmp brought.now }
    ensures { IsTrue result ↔ (Contains (map held_key state.now.contents) key.now
        ⊎ Contains brought.now key.now) }
{
    is_held(state, key) || is_among(brought, key)
}

// Whether each standing key is held or brought.
fn is_each(state: &StoreState, standing: &[ContentKey], brought: &[ContentKey]) -> bool
    requires { IsSorted content_key_cmp brought.now }
    ensures { IsTrue result ↔ All (λ key. Contains (map held_key state.now.contents) key
        ⊎ Contains brought.now key) standing.now }
{
    for key in standing {
        if !is_held_or_brought(state, brought, key) {
            return false;
        }
    }
    true
}

// Whether each key that is brought stands.
fn is_only(standing: &[ContentKey], brought: &[ContentKey]) -> bool
    requires { IsSorted content_key_cmp standing.now }
    ensures { IsTrue result ↔ All (λ key. Contains standing.now key) brought.now }
{
    for key in brought {
        if !is_among(standing, key) {
            return false;
        }
    }
    true
}

// Whether no key that is brought is held.
fn is_lacking(state: &StoreState, brought: &[ContentKey]) -> bool
    ensures { IsTrue result
        ↔ All (λ key. ¬ Contains (map held_key state.now.contents) key) brought.now }
{
    for key in brought {
        if is_held(state, key) {
            return false;
        }
    }
    true
}

// Whether exactly the keys are brought that stand and are not held, each once.
pub(crate) fn agree(state: &StoreState, standing: &[ContentKey], brought: &[ContentKey]) -> bool
    requires standing { IsSorted content_key_cmp standing.now }
    requires brought { IsSorted content_key_cmp brought.now }
    ensures { IsTrue result ↔ Agree (map held_key state.now.contents) standing.now brought.now }
{
    let once = are_distinct(brought);
    let each = is_each(state, standing, brought);
    let only = is_only(standing, brought);
    let lacking = is_lacking(state, brought);
    are_all(once, each, only, lacking)
}

// Whether all four hold.
fn are_all(once: bool, each: bool, only: bool, lacking: bool) -> bool
    ensures { result ≡ (once && each && only && lacking) }
{
    once && each && only && lacking
}
