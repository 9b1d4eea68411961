// The program files of a view, and the index in which one is found by its name.
ghost use Rattle.std.specs.Prelude.{◌≡◌, ◌↔◌, ◌<◌, length, Some, IfOk, IfSome, AllPairs, slice_get};
ghost use Rattle.std.specs.List.Sorted.{IsBinarySearchResult, IsPermutation, IsSearchInRange};
ghost use Rattle.std.specs.Option.{option_cmp, option_copied};
ghost use Rattle.identity.specs.Printed.{text_cmp};
ghost use Rattle.store_state.specs.Named.{IsNameIndex, named_in, names_of};
ghost use Rattle.store_state.specs.Places.{AreSorted, IsPlaceOf};

use crate::brought_contents::stands;
use crate::numbers::first_numbers;
use crate::{StateFault, View};
use manifests::FileEntry;
use small_types::{List, Name};
use std::alloc::Global;
use std::cmp::Ordering;

// How the name of the file at the place compares with a name. Where there is no file, it is below.
fn name_order(files: &[FileEntry], place: usize, name: &Name) -> Ordering
    ensures { result ≡ option_cmp text_cmp (slice_get (names_of files.now) place) (Some name.now) }
{
    match files.get(place) {
        Some(entry) => entry.name.cmp(name),
        None => Ordering::Less,
    }
}

// How the names of the files at two places compare.
fn names_order(files: &[FileEntry], a: usize, b: usize) -> Ordering
    ensures { result ≡ option_cmp text_cmp (slice_get (names_of files.now) a)
        (slice_get (names_of files.now) b) }
{
    match files.get(b) {
        Some(entry) => name_order(files, a, &entry.name),
        None => {
            if a < files.len() {
                Ordering::Greater
            } else {
                Ordering::Equal
            }
        }
    }
}

// The places in the order of the names there.
fn sort_names(files: &[FileEntry], places: &mut Vec<usize>)
    ensures sorted { AreSorted text_cmp (names_of files.now) places.new.items }
    ensures same { IsPermutation places.old.items places.new.items }
{
    places.sort_unstable_by(|a, b| names_order(files, *a, *b));
}

// The index of files whose names differ.
pub(crate) fn index_names(alloc: Global, files: &[FileEntry]) -> Result<List<usize>, StateFault>
    requires { AllPairs (λ e f. ¬ (e.name ≡ f.name)) files.now }
    ensures { IfOk result (λ index. IsNameIndex files.now index) }
{
    let mut places = first_numbers(alloc, files.len())?;
    sort_names(files, &mut places);
    Ok(List::from_vec(places))
}

// Where the search for the name in the index ends.
fn search_name(files: &[FileEntry], index: &[usize], name: &Name) -> Result<usize, usize>
    ensures range { IsSearchInRange result (length index.now) }
    ensures found { IsBinarySearchResult (λ place. option_cmp text_cmp
        (slice_get (names_of files.now) place) (Some name.now)) index.now result }
{
    index.binary_search_by(|place| name_order(files, *place, name))
}

// The place of the file of that name.
fn place_of_name(files: &[FileEntry], index: &[usize], name: &Name) -> Option<usize>
    requires { IsNameIndex files.now index.now }
    ensures found { IsPlaceOf (names_of files.now) name.now result }
    ensures within { IfSome result (λ place. place < length files.now) }
{
    match search_name(files, index, name) {
        Ok(at) => Some(index[at]),
        Err(_) => None,
    }
}

// The program file of that name that stands in the view.
pub(crate) fn find_name<'a>(view: &'a View, index: &[usize], name: &Name) -> Option<&'a FileEntry>
    requires { IsNameIndex view.now.application.files index.now }
    ensures { option_copied result ≡ named_in name.now view.now }
{
    let files = view.application.files.as_slice();
    match place_of_name(files, index, name) {
        Some(place) => {
            let entry = &files[place];
            if stands(view.groups.as_slice(), entry) {
                Some(entry)
            } else {
                None
            }
        }
        None => None,
    }
}
