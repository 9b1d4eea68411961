// Which contents are needed once views are gone.
ghost use Rattle.std.specs.Prelude.{◌≡◌, ◌&&◌, ◌==◌, ◌++◌, map, not, IfOk, OnOk};
ghost use Rattle.std.specs.List.{list_any};
ghost use Rattle.std.specs.List.Sorted.{IsPermutation, IsSorted, IsSortedByKey};
ghost use Rattle.std.specs.Ordering.{nat_cmp};
ghost use Rattle.machine.specs.Blocks.{standing_files};
ghost use Rattle.machine.specs.Views.{content_key, standing_entries, stands_by};
ghost use Rattle.store_state.specs.declared.view.Content.{Content};
ghost use Rattle.store_state.specs.ContentKeys.{content_key_cmp};
ghost use Rattle.store_state.specs.Dropped.{is_needed, without_rows};
ghost use Rattle.store_state.specs.Tables.{bare_row};

use crate::content_order::{content_order, files_order};
use manifests::FileEntry;
use std::alloc::{AllocError, Global};
use store_state::{Content, View};

// Whether the number is among those, which stand in order.
pub(crate) fn is_among(numbers: &[u64], number: u64) -> bool
    requires { IsSorted nat_cmp numbers.now }
    ensures { result ≡ list_any (λ n. n == number) numbers.now }
{
    numbers.binary_search(&number).is_ok()
}

// Whether the file is a program file that stands in the view.
fn stands(view: &View, entry: &FileEntry) -> bool
    ensures { result ≡ (not entry.now.local && stands_by view.now.groups entry.now.group) }
{
    match &entry.group {
        Some(group) => !entry.local && view.has_group(group),
        None => !entry.local,
    }
}

// Adds the program files that stand in the view.
fn add_standing<'a>(files: &mut Vec<&'a FileEntry>, view: &'a View) -> Result<(), AllocError>
    ensures { OnOk result (map (λ file. file.now) files.new.items
        ≡ map (λ file. file.now) files.old.items
        ++ standing_entries view.now.groups view.now.application) }
{
    for entry in view.application.files.as_slice() {
        if stands(view, entry) {
            files.push(entry)?;
        }
    }
    Ok(())
}

// The program files that stand in the views but those of these numbers.
fn left_files<'a>(
    alloc: Global,
    views: &'a [View],
    numbers: &[u64],
) -> Result<Vec<&'a FileEntry>, AllocError>
    requires { IsSorted nat_cmp numbers.now }
    ensures { IfOk result (λ files. map (λ file. file.now) files.items
        ≡ standing_files (map bare_row (without_rows numbers.now views.now))) }
{
    let mut files = Vec::new(alloc);
    for view in views {
        if !is_among(numbers, view.number) {
            add_standing(&mut files, view)?;
        }
    }
    Ok(files)
}

// Puts files into the order of their content keys.
fn sort_files(files: &mut Vec<&FileEntry>)
    ensures order { IsSortedByKey (λ file. content_key file.now) content_key_cmp files.new.items }
    ensures same { IsPermutation files.old.items files.new.items }
{
    files.sort_unstable_by(|a, b| files_order(a, b));
}

// The same files, in the order of their content keys.
pub(crate) fn needing_files<'a>(
    alloc: Global,
    views: &'a [View],
    numbers: &[u64],
) -> Result<Vec<&'a FileEntry>, AllocError>
    requires { IsSorted nat_cmp numbers.now }
    ensures order { IfOk result (λ files.
        IsSortedByKey (λ file. content_key file.now) content_key_cmp files.items) }
    ensures needed { IfOk result (λ files. (content : Content)
        → is_needed (map (λ file. file.now) files.items) content ≡ is_needed
        (standing_files (map bare_row (without_rows numbers.now views.now))) content) }
{
    let mut files = left_files(alloc, views, numbers)?;
    sort_files(&mut files);
    Ok(files)
}

// Whether one of the files, which stand in that order, has the content.
pub(crate) fn has_content(files: &[&FileEntry], content: &Content) -> bool
    requires { IsSortedByKey (λ file. content_key file.now) content_key_cmp files.now }
    ensures { result ≡ is_needed (map (λ file. file.now) files.now) content.now }
{
    files
        .binary_search_by(|entry| content_order(entry, content))
        .is_ok()
}
