// Tables as plain values, and the tables in memory that are made of them.
ghost use Rattle.std.specs.Prelude.{◌≡◌, ◌↔◌, ◌<◌, ◌≤◌, ℕ, List, [], map, length, All, AllPairs, IsTrue, IfOk, IfErr, OnOk};
ghost use Rattle.std.specs.List.Sorted.{IsSorted};
ghost use Rattle.std.specs.Ordering.{nat_cmp};
ghost use Rattle.std.specs.declared.cmp.Ordering.TheVariants.{Less};
ghost use Rattle.small_types.specs.declared.limits.TheConstants as limits;
ghost use Rattle.identity.specs.Key.{key_text};
ghost use Rattle.identity.specs.Printed.{text_cmp};
ghost use Rattle.machine.specs.Blocks.{standing_files};
ghost use Rattle.machine.specs.Entries.{AreInOrder};
ghost use Rattle.machine.specs.declared.app.AppState.{AppState};
ghost use Rattle.machine.specs.declared.lease.Lease.{Lease};
ghost use Rattle.machine.specs.Views.{content_key};
ghost use Rattle.store_state.specs.declared.view.View.{View};
ghost use Rattle.store_state.specs.Change.{IsRow};
ghost use Rattle.store_state.specs.ContentKeys.{Agree, content_key_cmp};
ghost use Rattle.store_state.specs.Contents.{AreContentsOf, held_key};
ghost use Rattle.store_state.specs.Kept.{AreTables};
ghost use Rattle.store_state.specs.Named.{AreNameIndexes};
ghost use Rattle.store_state.specs.Parts.{AreIndexes};
ghost use Rattle.store_state.specs.Places.{ArePlaces};
ghost use Rattle.store_state.specs.Rows.{listed_files};
ghost use Rattle.store_state.specs.Tables.{bare_row};

use crate::brought_contents::{agree, standing_keys};
use crate::content_key::{ContentKey, add_places, keys_of, sort_keys};
use crate::fields::is_row;
use crate::marks::MarkList;
use crate::names::index_names;
use crate::{Content, LeaseList, StateFault, StoreState, View};
use machine::{AppState, Lease};
use small_types::limits::{
    APPLICATION_LIMIT, FILE_COUNT_LIMIT, LEASE_LIMIT, NUMBER_LIMIT, VIEW_LIMIT,
};
use small_types::{CopyFault, List, Text};
use std::alloc::{AllocError, Global};
use std::marker::Model;

/// Tables as plain values, in whatever order they stand. Contracts see them as tables.
#[derive(Drop, Debug)]
pub struct TableParts {
    pub boot: u64,
    /// The number of the next view.
    pub next_view: u64,
    /// The number of the next lease.
    pub next_lease: u64,
    pub leases: List<Lease>,
    pub views: List<View>,
    pub apps: List<AppState>,
    pub contents: List<Content>,
}

impl Model for TableParts {
    ghost use Rattle.store_state.specs.Tables.{Tables};

    ghost Value = { Tables };

    ghost view = { λ s. record {
      boot = s.boot;
      next_view = s.next_view;
      next_lease = s.next_lease;
      leases = s.leases;
      views = s.views;
      apps = s.apps;
      contents = s.contents;
    } };
}

/// Why values are no tables.
#[derive(Clone, Copy, Debug, PartialEq, Eq)]
pub enum PartsFault {
    /// They are out of their order or over their limits, a view has what no install could bring, or
    /// the contents are not just those of the program files that stand in views.
    NoTables,
    /// There was no memory for it.
    Memory,
}

// ---- leases and views by their numbers

// Whether the number of the first is below that of the second.
fn is_lease_before(lease: &Lease, other: &Lease) -> bool
    ensures { IsTrue result ↔ nat_cmp lease.now.number other.now.number ≡ Less }
{
    lease.number.cmp(&other.number).is_lt()
}

// Whether each lease is before the next one.
fn leases_rise(leases: &[Lease]) -> bool
    ensures { IsTrue result
        ↔ AllPairs (λ (a b : Lease). nat_cmp a.number b.number ≡ Less) leases.now }
{
    for place in 1..leases.len() {
        if !is_lease_before(&leases[place - 1], &leases[place]) {
            return false;
        }
    }
    true
}

// Whether leases are few enough and in order of their numbers, which are below the next one.
fn have_leases(leases: &[Lease], next: u64) -> bool
    ensures { IsTrue result ↔ ((length leases.now ≤ limits.LEASE_LIMIT)
        × AllPairs (λ (a b : Lease). nat_cmp a.number b.number ≡ Less) leases.now
        × All (λ (lease : Lease). lease.number < next) leases.now
        × (next ≤ limits.NUMBER_LIMIT)) }
{
    leases.len() <= LEASE_LIMIT
        && leases_rise(leases)
        && leases.iter().all(|lease| lease.number < next)
        && next <= NUMBER_LIMIT
}

// Whether the number of the first is below that of the second.
fn is_view_before(view: &View, other: &View) -> bool
    ensures { IsTrue result ↔ nat_cmp view.now.number other.now.number ≡ Less }
{
    view.number.cmp(&other.number).is_lt()
}

// Whether each view is before the next one.
fn views_rise(views: &[View]) -> bool
    ensures { IsTrue result
        ↔ AllPairs (λ (a b : View). nat_cmp a.number b.number ≡ Less) views.now }
{
    for place in 1..views.len() {
        if !is_view_before(&views[place - 1], &views[place]) {
            return false;
        }
    }
    true
}

// Whether views are few enough and in order of their numbers, which are below the next one, and
// list few enough files.
fn have_views(views: &[View], next: u64) -> bool
    ensures { IsTrue result ↔ ((length views.now ≤ limits.VIEW_LIMIT)
        × AllPairs (λ (a b : View). nat_cmp a.number b.number ≡ Less) views.now
        × All (λ (view : View). view.number < next) views.now
        × (next ≤ limits.NUMBER_LIMIT)
        × (listed_files views.now ≤ limits.FILE_COUNT_LIMIT)) }
{
    views.len() <= VIEW_LIMIT
        && views_rise(views)
        && views.iter().all(|view| view.number < next)
        && next <= NUMBER_LIMIT
        && have_few_files(views)
}

// ---- applications by their printed keys

// The printed keys of applications.
fn printed_keys(alloc: Global, apps: &[AppState]) -> Result<List<Text>, StateFault>
    ensures { IfOk result (λ keys. keys ≡ map (λ (app : AppState). key_text app.key) apps.now) }
{
    let mut keys = Vec::new(alloc);
    for app in apps {
        keys.push(app.key.print(alloc)?)?;
    }
    Ok(List::from_vec(keys))
}

// Whether the first text is below the second.
fn is_text_below(text: &Text, other: &Text) -> bool
    ensures { IsTrue result ↔ text_cmp text.now other.now ≡ Less }
{
    text.as_bytes().cmp(other.as_bytes()).is_lt()
}

// Whether each text is below the next one.
fn texts_rise(texts: &[Text]) -> bool
    ensures { IsTrue result ↔ AllPairs (λ (a b : List ℕ). text_cmp a b ≡ Less) texts.now }
{
    for place in 1..texts.len() {
        if !is_text_below(&texts[place - 1], &texts[place]) {
            return false;
        }
    }
    true
}

// Whether the applications are in their order.
fn are_in_order(alloc: Global, apps: &[AppState]) -> Result<bool, StateFault>
    ensures { IfOk result (λ answer. IsTrue answer ↔ AreInOrder apps.now) }
{
    let keys = printed_keys(alloc, apps)?;
    Ok(texts_rise(keys.as_slice()))
}

// ---- views and contents

// Whether the views list few enough files.
fn have_few_files(views: &[View]) -> bool
    ensures { IsTrue result ↔ listed_files views.now ≤ limits.FILE_COUNT_LIMIT }
{
    let mut room = FILE_COUNT_LIMIT;
    for view in views {
        let count = view.application.files.as_slice().len();
        if room < count {
            return false;
        }
        room -= count;
    }
    true
}

// Whether each view has what an install could bring.
fn are_rows(alloc: Global, views: &[View]) -> Result<bool, CopyFault>
    ensures { IfOk result (λ answer. IsTrue answer ↔ All IsRow views.now) }
{
    for view in views {
        let is_one = is_row(alloc, view)?;
        if !is_one {
            return Ok(false);
        }
    }
    Ok(true)
}

// The content keys of the program files that stand in the views.
fn all_standing_keys(alloc: Global, views: &[View]) -> Result<Vec<ContentKey>, StateFault>
    ensures { IfOk result (λ keys. keys.items
        ≡ map content_key (standing_files (map bare_row views.now))) }
{
    let mut keys = Vec::new(alloc);
    for view in views {
        let mut more = standing_keys(alloc, view)?;
        keys.append(&mut more)?;
    }
    Ok(keys)
}

// Whether exactly the keys are there that stand, each once.
fn agree_alone(
    alloc: Global,
    standing: &[ContentKey],
    there: &[ContentKey],
) -> Result<bool, StateFault>
    requires standing { IsSorted content_key_cmp standing.now }
    requires there { IsSorted content_key_cmp there.now }
    ensures { IfOk result (λ answer. IsTrue answer ↔ Agree [] standing.now there.now) }
{
    let none = StoreState::empty(alloc)?;
    let answer = agree(&none, standing, there);
    drop(none);
    Ok(answer)
}

// Whether the contents are just those of the program files that stand in the views.
fn are_contents(alloc: Global, views: &[View], contents: &[Content]) -> Result<bool, StateFault>
    ensures { IfOk result (λ answer. IsTrue answer
        ↔ AreContentsOf (standing_files (map bare_row views.now)) contents.now) }
{
    let mut standing = all_standing_keys(alloc, views)?;
    sort_keys(&mut standing);
    let mut there = keys_of(alloc, contents)?;
    sort_keys(&mut there);
    agree_alone(alloc, standing.as_slice(), there.as_slice())
}

// ---- tables

// Whether all three hold.
fn are_three(ordered: bool, rows: bool, held: bool) -> bool
    ensures { IsTrue result ↔ (IsTrue ordered × IsTrue rows × IsTrue held) }
{
    ordered && rows && held
}

// Whether the values are tables.
fn are_tables(alloc: Global, parts: &TableParts) -> Result<bool, StateFault>
    ensures { IfOk result (λ answer. IsTrue answer ↔ AreTables parts.now) }
{
    let apps = parts.apps.as_slice();
    let views = parts.views.as_slice();
    if !have_leases(parts.leases.as_slice(), parts.next_lease) {
        return Ok(false);
    }
    if apps.len() > APPLICATION_LIMIT || !have_views(views, parts.next_view) {
        return Ok(false);
    }
    let ordered = are_in_order(alloc, apps)?;
    let rows = are_rows(alloc, views)?;
    let held = are_contents(alloc, views, parts.contents.as_slice())?;
    Ok(are_three(ordered, rows, held))
}

// ---- indexes

// The leases, with the room for all that there may be.
fn lease_list(alloc: Global, leases: &[Lease]) -> Result<LeaseList, AllocError>
    requires { length leases.now ≤ limits.LEASE_LIMIT }
    ensures { IfOk result (λ list. list ≡ leases.now) }
{
    let mut list = LeaseList::empty(alloc)?;
    for lease in leases {
        list.add(*lease);
    }
    Ok(list)
}

// The places of the contents in the order of their content keys.
fn content_index(alloc: Global, contents: &[Content]) -> Result<Vec<usize>, AllocError>
    ensures { IfOk result (λ index. ArePlaces content_key_cmp (map held_key contents.now)
        index.items) }
{
    let mut index = Vec::with_capacity(alloc, contents.len())?;
    add_places(contents, &mut index, 0);
    Ok(index)
}

// Of each view the places of its files in the order of their names.
fn name_indexes(alloc: Global, views: &[View]) -> Result<List<List<usize>>, StateFault>
    requires { All IsRow views.now }
    ensures { IfOk result (λ indexes. AreNameIndexes views.now indexes) }
{
    let mut indexes = Vec::new(alloc);
    for view in views {
        indexes.push(index_names(alloc, view.application.files.as_slice())?)?;
    }
    Ok(List::from_vec(indexes))
}

// What tables in memory have beside their values.
#[derive(Drop)]
struct Indexes {
    leases: LeaseList,
    keys: List<Text>,
    contents: Vec<usize>,
    names: List<List<usize>>,
    marks: MarkList,
}

fn indexes_of(alloc: Global, parts: &TableParts) -> Result<Indexes, StateFault>
    requires { AreTables parts.now }
    ensures { IfOk result (λ made. AreIndexes parts.now made.leases made.keys made.contents.items
        made.names) }
{
    let leases = lease_list(alloc, parts.leases.as_slice())?;
    let keys = printed_keys(alloc, parts.apps.as_slice())?;
    let contents = content_index(alloc, parts.contents.as_slice())?;
    let names = name_indexes(alloc, parts.views.as_slice())?;
    let marks = MarkList::empty(alloc)?;
    Ok(Indexes {
        leases,
        keys,
        contents,
        names,
        marks,
    })
}

// The tables of these values and indexes.
fn with_indexes(parts: TableParts, made: Indexes) -> StoreState
    requires tables { AreTables parts }
    requires indexes { AreIndexes parts made.leases made.keys made.contents.items made.names }
    ensures { result ≡ parts }
{
    StoreState {
        boot: parts.boot,
        next_view: parts.next_view,
        next_lease: parts.next_lease,
        leases: made.leases,
        views: parts.views,
        apps: parts.apps,
        contents: parts.contents,
        keys: made.keys,
        index: made.contents,
        names: made.names,
        marks: made.marks,
    }
}

// The tables of these values, which are tables.
fn assembled(alloc: Global, parts: TableParts) -> Result<StoreState, PartsFault>
    requires { AreTables parts }
    ensures same { IfOk result (λ state. state ≡ parts) }
    ensures memory { IfErr result (λ fault. fault ≡ PartsFault.Memory) }
{
    match indexes_of(alloc, &parts) {
        Ok(made) => Ok(with_indexes(parts, made)),
        Err(StateFault::Memory) => {
            drop(parts);
            Err(PartsFault::Memory)
        }
    }
}

impl StoreState {
    /// The tables of these values, where they are tables: applications in order of their printed
    /// keys, views and leases in that of their numbers, which are below the next ones, data files
    /// in that of their names; nothing over its limit; each view as an install could bring it; and
    /// just the contents of the program files that stand in views. Each other values are refused as
    /// no tables.
    pub fn from_parts(alloc: Global, parts: TableParts) -> Result<StoreState, PartsFault>
        ensures same { IfOk result (λ state. state ≡ parts) }
        ensures tables { OnOk result (AreTables parts) }
        ensures refused { IfErr result (λ fault. fault ≡ PartsFault.NoTables
            → ¬ AreTables parts) }
    {
        match are_tables(alloc, &parts) {
            Ok(true) => assembled(alloc, parts),
            Ok(false) => {
                drop(parts);
                Err(PartsFault::NoTables)
            }
            Err(StateFault::Memory) => {
                drop(parts);
                Err(PartsFault::Memory)
            }
        }
    }
}
