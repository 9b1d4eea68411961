// What a change lets go.
ghost use Rattle.std.specs.Prelude.{◌≡◌, ◌↔◌, ◌++◌, [], IfOk, IsTrue, OnErr, OnOk, filter, map, not};
ghost use Rattle.std.specs.List.Sorted.{IsSorted, IsSortedByKey};
ghost use Rattle.std.specs.Option.{option_copied};
ghost use Rattle.std.specs.Ordering.{nat_cmp};
ghost use Rattle.machine.specs.Views.{content_key};
ghost use Rattle.store_state.specs.declared.change.Change.TheVariants as change;
ghost use Rattle.store_state.specs.ContentKeys.{content_key_cmp};
ghost use Rattle.store_state.specs.Dropped.{is_needed, removable_in};
ghost use Rattle.store_state.specs.Locals.{local_at};
ghost use Rattle.store_state.specs.Tables.{Tables};
ghost use Rattle.table_files.specs.Freed.{LetsGo, freed, held_for_one, rows_among};
ghost use Rattle.table_files.specs.Held.{held_for_contents, held_for_views};

use crate::HeldItem;
use crate::held_items::{add_file, add_locals};
use crate::needed_contents::{has_content, is_among, needing_files};
use cleaner::{CleanFault, removable};
use manifests::FileEntry;
use small_types::{List, Name};
use std::alloc::{AllocError, Global};
use store_state::{Change, Content, LocalFile, StoreState, View};

/// Whether the change may let something go: a data file that is put, one that is removed, and a
/// clean. Any other change lets nothing go. It takes no memory.
pub fn lets_go(change: &Change) -> bool
    ensures may { IsTrue result ↔ LetsGo change.now }
    ensures none { ¬ IsTrue result → (tables : Tables) → freed change.now tables ≡ [] }
{
    matches!(
        change,
        Change::Put { .. } | Change::Remove { .. } | Change::Clean
    )
}

// ---- one data file

// The data file of that name in the view of that number.
fn find_local<'a>(state: &'a StoreState, number: u64, name: &Name) -> Option<&'a LocalFile>
    ensures { option_copied result ≡ local_at number name.now state.now }
{
    match state.view(number) {
        Some(view) => view.local(name),
        None => None,
    }
}

// What is held for it.
fn held_at(
    alloc: Global,
    state: &StoreState,
    number: u64,
    name: &Name,
) -> Result<List<HeldItem>, AllocError>
    ensures { IfOk result (λ items. items ≡ held_for_one (local_at number name.now state.now)) }
{
    let mut items = Vec::new(alloc);
    if let Some(file) = find_local(state, number, name) {
        add_file(&mut items, &file.held)?;
    }
    Ok(List::from_vec(items))
}

// ---- a clean

// The numbers of the views that a clean takes.
fn removable_numbers(alloc: Global, state: &StoreState) -> Result<List<u64>, AllocError>
    ensures numbers { IfOk result (λ numbers. numbers ≡ removable_in state.now) }
    ensures order { IfOk result (IsSorted nat_cmp) }
{
    state.are_tables();
    match removable(alloc, state) {
        Ok(numbers) => Ok(numbers),
        Err(CleanFault::Memory) => Err(AllocError),
    }
}

// Adds what is held for the contents that none of the files has. These stand in the order of their
// content keys.
fn add_unneeded(
    items: &mut Vec<HeldItem>,
    contents: &[Content],
    files: &[&FileEntry],
) -> Result<(), AllocError>
    requires { IsSortedByKey (λ file. content_key file.now) content_key_cmp files.now }
    ensures { OnOk result (items.new.items ≡ items.old.items ++ held_for_contents
        (filter (λ content. not (is_needed (map (λ file. file.now) files.now) content))
        contents.now)) }
{
    for content in contents {
        if !has_content(files, content) {
            add_file(items, &content.held)?;
        }
    }
    Ok(())
}

// Adds what is held for the data files of the views of these numbers.
fn add_gone(items: &mut Vec<HeldItem>, views: &[View], numbers: &[u64]) -> Result<(), AllocError>
    requires { IsSorted nat_cmp numbers.now }
    ensures { OnOk result (items.new.items ≡ items.old.items
        ++ held_for_views (rows_among numbers.now views.now)) }
{
    for view in views {
        if is_among(numbers, view.number) {
            add_locals(items, view.locals.as_slice())?;
        }
    }
    Ok(())
}

// What a clean lets go.
fn freed_by_clean(alloc: Global, state: &StoreState) -> Result<List<HeldItem>, AllocError>
    ensures { IfOk result (λ items. items ≡ freed change.Clean state.now) }
{
    let numbers = removable_numbers(alloc, state)?;
    let files = needing_files(alloc, state.views.as_slice(), numbers.as_slice())?;
    let mut items = Vec::new(alloc);
    add_unneeded(&mut items, state.contents.as_slice(), files.as_slice())?;
    add_gone(&mut items, state.views.as_slice(), numbers.as_slice())?;
    Ok(List::from_vec(items))
}

// ---- any change

/// What the change lets go of what the tables hold for files: a put and a removal what the data
/// file of that name holds, where one stands in the view, and a clean that of the contents that no
/// program file has then, and then that of the data files of the views that it takes. Any other
/// change lets nothing go, and takes no memory here. It fails only for want of memory.
pub fn freed(
    alloc: Global,
    state: &StoreState,
    change: &Change,
) -> Result<List<HeldItem>, AllocError>
    ensures items { IfOk result (λ items. items ≡ freed change.now state.now) }
    ensures memory { OnErr result (LetsGo change.now) }
{
    match change {
        Change::Put { view, file } => held_at(alloc, state, *view, &file.name),
        Change::Remove { view, name } => held_at(alloc, state, *view, name),
        Change::Clean => freed_by_clean(alloc, state),
        _ => Ok(List::from_vec(Vec::new(alloc))),
    }
}
