// Content keys, by which contents are known, and the indexes in which contents are found.
ghost use Rattle.std.specs.Prelude.{◌≡◌, ◌↔◌, ◌+◌, ◌-◌, ◌<◌, ◌≤◌, ◌++◌, drop, length, map, slice_get, take, vec_capacity, vec_len, Contains, Some, IfOk, IfSome, IsTrue};
ghost use Rattle.std.specs.Cmp.Lexicographic.{slice_cmp};
ghost use Rattle.std.specs.List.{insert, range_with_len};
ghost use Rattle.std.specs.List.Sorted.{IsBinarySearchResult, IsPermutation, IsSearchInRange, IsSorted};
ghost use Rattle.std.specs.Option.{option_cmp};
ghost use Rattle.identity.specs.Printed.{text_cmp};
ghost use Rattle.store_state.specs.ContentKeys.{IsIndex, content_key_cmp, digest_cmp};
ghost use Rattle.store_state.specs.Contents.{held_key};
ghost use Rattle.store_state.specs.Places.{ArePlaces, AreSorted, IsPlaceOf};

use crate::numbers::push_numbers;
use crate::{Content, StateFault};
use digest_list::{Digest, DigestList};
use manifests::FileEntry;
use small_types::Duplicate;
use std::alloc::Global;
use std::cmp::Ordering;
use std::marker::Model;

/// The size and the digests of a content, by which it is known. Contracts see it as its content
/// key.
#[derive(Drop, Debug)]
pub struct ContentKey {
    pub size: u64,
    pub list: DigestList,
}

impl Model for ContentKey {
    ghost use Rattle.machine.specs.Views.{ContentKey};

    ghost Value = { ContentKey };

    ghost view = { λ k. record { size = k.size; list = k.list } };
}

// Places are few where they are at most this part of those in the index.
const FEW: usize = 16;

// How values compare. Those of known digests differ in their first bytes, but for one pair of 256.
fn values_order(a: &[u8], b: &[u8]) -> Ordering
    ensures { result ≡ text_cmp a.now b.now }
{
    if a.is_empty() || b.is_empty() || a[0] == b[0] {
        return a.cmp(b);
    }
    a[0].cmp(&b[0])
}

// How digests compare: by their algorithms, then by their values.
fn digest_order(a: &Digest, b: &Digest) -> Ordering
    ensures { result ≡ digest_cmp a.now b.now }
{
    if a.algorithm == b.algorithm {
        return values_order(a.value.as_slice(), b.value.as_slice());
    }
    match a.algorithm.name().cmp(b.algorithm.name()) {
        Ordering::Equal => a.value.as_slice().cmp(b.value.as_slice()),
        order => order,
    }
}

// How lists of digests compare, from the first.
fn digests_order(a: &[Digest], b: &[Digest]) -> Ordering
    ensures { result ≡ slice_cmp digest_cmp a.now b.now }
{
    let count = a.len().min(b.len());
    for place in 0..count {
        let order = digest_order(&a[place], &b[place]);
        if order != Ordering::Equal {
            return order;
        }
    }
    a.len().cmp(&b.len())
}

// How a size and digests compare with others.
fn parts_order(size: u64, list: &[Digest], other: u64, digests: &[Digest]) -> Ordering
    ensures { result ≡ content_key_cmp (record { size = size; list = list.now })
        (record { size = other; list = digests.now }) }
{
    match size.cmp(&other) {
        Ordering::Equal => digests_order(list, digests),
        order => order,
    }
}

/// How a content key compares with a size and digests.
pub fn key_order(key: &ContentKey, size: u64, list: &[Digest]) -> Ordering
    ensures { result ≡ content_key_cmp key.now (record { size = size; list = list.now }) }
{
    parts_order(key.size, key.list.as_slice(), size, list)
}

// Where the size and the digests stand among keys in order, or where they would go.
fn place_of_key(keys: &[ContentKey], size: u64, list: &[Digest]) -> Result<usize, usize>
    ensures range { IsSearchInRange result (length keys.now) }
    ensures found { IsBinarySearchResult (λ key. content_key_cmp key
        (record { size = size; list = list.now })) keys.now result }
{
    keys.binary_search_by(|key| key_order(key, size, list))
}

// Whether a key among them has the size and the digests.
pub(crate) fn has_key(keys: &[ContentKey], size: u64, list: &[Digest]) -> bool
    requires { IsSorted content_key_cmp keys.now }
    ensures { IsTrue result ↔ Contains keys.now (record { size = size; list = list.now }) }
{
    place_of_key(keys, size, list).is_ok()
}

// The key of a content.
fn key_of(alloc: Global, content: &Content) -> Result<ContentKey, StateFault>
    ensures { IfOk result (λ key. key ≡ held_key content.now) }
{
    Ok(ContentKey {
        size: content.size,
        list: content.list.copy(alloc)?,
    })
}

// The keys of contents, in their order.
pub(crate) fn keys_of(alloc: Global, contents: &[Content]) -> Result<Vec<ContentKey>, StateFault>
    ensures { IfOk result (λ keys. keys.items ≡ map held_key contents.now) }
{
    let mut keys = Vec::new(alloc);
    for content in contents {
        keys.push(key_of(alloc, content)?)?;
    }
    Ok(keys)
}

// The keys in order.
pub(crate) fn sort_keys(keys: &mut Vec<ContentKey>)
    ensures { IsIndex keys.old.items keys.new.items }
{
    keys.sort_unstable_by(|a, b| key_order(a, b.size, b.list.as_slice()));
}

// ---- the index of contents

// How the content at the place compares with a size and digests. Where there is no content, it is
// below.
fn content_order(contents: &[Content], place: usize, size: u64, list: &[Digest]) -> Ordering
    ensures { result ≡ option_cmp content_key_cmp (slice_get (map held_key contents.now) place)
        (Some (record { size = size; list = list.now })) }
{
    match contents.get(place) {
        Some(content) => parts_order(content.size, content.list.as_slice(), size, list),
        None => Ordering::Less,
    }
}

// How the contents at two places compare.
fn contents_order(contents: &[Content], a: usize, b: usize) -> Ordering
    ensures { result ≡ option_cmp content_key_cmp (slice_get (map held_key contents.now) a)
        (slice_get (map held_key contents.now) b) }
{
    match contents.get(b) {
        Some(content) => content_order(contents, a, content.size, content.list.as_slice()),
        None => {
            if a < contents.len() {
                Ordering::Greater
            } else {
                Ordering::Equal
            }
        }
    }
}

// The places in the order of the contents there.
fn sort_contents(contents: &[Content], places: &mut [usize])
    ensures sorted { AreSorted content_key_cmp (map held_key contents.now) places.new }
    ensures same { IsPermutation places.old places.new }
    ensures len { length places.new ≡ length places.old }
{
    places.sort_unstable_by(|a, b| contents_order(contents, *a, *b));
}

// Where the search for the content at the place in the index ends.
fn search_place(contents: &[Content], index: &[usize], place: usize) -> Result<usize, usize>
    ensures range { IsSearchInRange result (length index.now) }
    ensures found { IsBinarySearchResult (λ other. option_cmp content_key_cmp
        (slice_get (map held_key contents.now) other)
        (slice_get (map held_key contents.now) place)) index.now result }
{
    index.binary_search_by(|other| contents_order(contents, *other, place))
}

// Where the content at the place goes in the index.
fn slot_of(contents: &[Content], index: &[usize], place: usize) -> usize
    requires { AreSorted content_key_cmp (map held_key contents.now) index.now }
    ensures within { result ≤ length index.now }
    ensures sorted { AreSorted content_key_cmp (map held_key contents.now)
        (insert index.now result place) }
{
    match search_place(contents, index, place) {
        Ok(at) => at,
        Err(at) => at,
    }
}

// Brings the last new place to its slot among the places that are held. The new ones stand behind
// those, up to an end, and what is behind the end is merged. The held ones from the slot on go
// behind the new ones. Answers how many stay in front of them.
fn bring_last(contents: &[Content], places: &mut [usize], held: usize, end: usize) -> usize
    requires some { held < end }
    requires within { end ≤ length places.old }
    requires first { AreSorted content_key_cmp (map held_key contents.now)
        (take held places.old ++ drop end places.old) }
    requires last { AreSorted content_key_cmp (map held_key contents.now) (drop held places.old) }
    ensures fewer { result ≤ held }
    ensures first { AreSorted content_key_cmp (map held_key contents.now)
        (take result places.new ++ drop (result + (end - held - 1)) places.new) }
    ensures last { AreSorted content_key_cmp (map held_key contents.now)
        (drop result places.new) }
    ensures same { IsPermutation places.old places.new }
    ensures len { length places.new ≡ length places.old }
{
    let place = places[end - 1];
    let slot = slot_of(contents, &places[..held], place);
    places[slot..end].rotate_left(held - slot);
    slot
}

// Merges the new places, which stand behind those that are held, with those. Each that is held
// moves once at most.
fn merge_places(contents: &[Content], places: &mut [usize], held: usize)
    requires within { held ≤ length places.old }
    requires first { AreSorted content_key_cmp (map held_key contents.now)
        (take held places.old) }
    requires last { AreSorted content_key_cmp (map held_key contents.now) (drop held places.old) }
    ensures sorted { AreSorted content_key_cmp (map held_key contents.now) places.new }
    ensures same { IsPermutation places.old places.new }
{
    let added = places.len() - held;
    let mut left = held;
    for done in 0..added {
        left = bring_last(contents, places, left, left + (added - done));
    }
}

// Sorts the new places, which stand behind those that are held, and merges them with those.
fn sort_behind(contents: &[Content], places: &mut [usize], held: usize)
    requires within { held ≤ length places.old }
    requires first { AreSorted content_key_cmp (map held_key contents.now)
        (take held places.old) }
    ensures sorted { AreSorted content_key_cmp (map held_key contents.now) places.new }
    ensures same { IsPermutation places.old places.new }
{
    sort_contents(contents, &mut places[held..]);
    merge_places(contents, places, held);
}

// Adds the places of the contents behind the first ones to the index, and merges them with those
// that it has.
fn insert_places(contents: &[Content], index: &mut Vec<usize>, held: usize)
    requires order { held ≤ length contents.now }
    requires room { vec_len index.old + (length contents.now - held) ≤ vec_capacity index.old }
    requires sorted { AreSorted content_key_cmp (map held_key contents.now) index.old.items }
    ensures sorted { AreSorted content_key_cmp (map held_key contents.now) index.new.items }
    ensures same { IsPermutation (index.old.items
        ++ range_with_len held (length contents.now - held)) index.new.items }
{
    let count = index.len();
    push_numbers(index, held, contents.len());
    sort_behind(contents, index.as_mut_slice(), count);
}

// Adds the places of the contents behind the first ones to the index, and sorts it.
fn sort_places(contents: &[Content], index: &mut Vec<usize>, held: usize)
    requires order { held ≤ length contents.now }
    requires room { vec_len index.old + (length contents.now - held) ≤ vec_capacity index.old }
    ensures sorted { AreSorted content_key_cmp (map held_key contents.now) index.new.items }
    ensures same { IsPermutation (index.old.items
        ++ range_with_len held (length contents.now - held)) index.new.items }
{
    push_numbers(index, held, contents.len());
    sort_contents(contents, index.as_mut_slice());
}

// Adds the places of the contents behind the first ones to their index, which has room. Where they
// are few, they alone are sorted, and the index is not sorted anew.
pub(crate) fn add_places(contents: &[Content], index: &mut Vec<usize>, held: usize)
    requires order { held ≤ length contents.now }
    requires room { vec_len index.old + (length contents.now - held) ≤ vec_capacity index.old }
    requires sorted { AreSorted content_key_cmp (map held_key contents.now) index.old.items }
    ensures sorted { AreSorted content_key_cmp (map held_key contents.now) index.new.items }
    ensures same { IsPermutation (index.old.items
        ++ range_with_len held (length contents.now - held)) index.new.items }
{
    if contents.len() - held <= index.len() / FEW {
        insert_places(contents, index, held);
    } else {
        sort_places(contents, index, held);
    }
}

// Where the search for the size and the digests in the index ends.
fn search_content(
    contents: &[Content],
    index: &[usize],
    size: u64,
    list: &[Digest],
) -> Result<usize, usize>
    ensures range { IsSearchInRange result (length index.now) }
    ensures found { IsBinarySearchResult (λ place. option_cmp content_key_cmp
        (slice_get (map held_key contents.now) place)
        (Some (record { size = size; list = list.now }))) index.now result }
{
    index.binary_search_by(|place| content_order(contents, *place, size, list))
}

// The place of the content of that size and those digests.
pub(crate) fn place_of_content(
    contents: &[Content],
    index: &[usize],
    size: u64,
    list: &[Digest],
) -> Option<usize>
    requires { ArePlaces content_key_cmp (map held_key contents.now) index.now }
    ensures found { IsPlaceOf (map held_key contents.now)
        (record { size = size; list = list.now }) result }
    ensures within { IfSome result (λ place. place < length contents.now) }
{
    match search_content(contents, index, size, list) {
        Ok(at) => Some(index[at]),
        Err(_) => None,
    }
}
