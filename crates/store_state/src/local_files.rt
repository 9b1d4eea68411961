// What a put and a removal change in the data files of a view.
ghost use Rattle.std.specs.Prelude.{◌≡◌, ◌↔◌, ◌<◌, ◌≤◌, IsSome, IsTrue, OnOk, OnErr, Some, bytes_eq, length, option_map, slice_get, slice_set};
ghost use Rattle.std.specs.List.{HoldsAt, position, position_or_len};
ghost use Rattle.std.specs.Option.{option_copied};
ghost use Rattle.std.specs.Ordering.{is_ge};
ghost use Rattle.small_types.specs.declared.limits.TheConstants as limits;
ghost use Rattle.identity.specs.Printed.{text_cmp};
ghost use Rattle.machine.specs.DataFiles.{with_named, without_named};
ghost use Rattle.store_state.specs.declared.change.Change.TheVariants as change;
ghost use Rattle.store_state.specs.Change.{FitsPut, effect};
ghost use Rattle.store_state.specs.Locals.{is_not_before, local_at, local_name, local_named, outside_locals, stands_at, with_local, without_local};

use crate::entries::insert_at;
use crate::fields::{count_outside, is_outside};
use crate::{LocalFile, StateFault, StoreState, View};
use small_types::limits::LOCAL_COUNT_LIMIT;
use small_types::{List, Name};
use std::alloc::Global;
use std::mem::replace;

impl StoreState {
    // The data file comes to the view of that number, in the place of one of its name. An `Err`
    // changes nothing.
    pub(crate) fn put(
        &mut self,
        alloc: Global,
        number: u64,
        file: LocalFile,
    ) -> Result<(), StateFault>
        requires { FitsPut self.old number file }
        ensures ok { OnOk result (self.new ≡ effect (change.Put number file) self.old) }
        ensures err { OnErr result (self.new ≡ self.old) }
    {
        let Some(place) = self.view_place(number) else {
            unreachable!();
        };
        put_at(alloc, &mut self.views, place, file)?;
        Ok(())
    }

    // The data file of that name of the view of that number goes.
    pub(crate) fn cut_local(&mut self, alloc: Global, number: u64, name: &Name)
        requires { IsSome (local_at number name.now self.old) }
        ensures { self.new ≡ effect (change.Remove number name.now) self.old }
    {
        let Some(place) = self.view_place(number) else {
            unreachable!();
        };
        cut_at(alloc, &mut self.views, place, name);
    }
}

// Puts the data file into the view at the place. An `Err` changes nothing.
fn put_at(
    alloc: Global,
    views: &mut List<View>,
    place: usize,
    file: LocalFile,
) -> Result<(), StateFault>
    requires { place < length views.old }
    ensures ok { OnOk result (HoldsAt (λ view. views.new
        ≡ slice_set views.old place (with_local file view)) views.old place) }
    ensures err { OnErr result (views.new ≡ views.old) }
{
    let mut items = replace(views, List::from_vec(Vec::new(alloc))).into_vec();
    let done = put_in(alloc, &mut items[place], file);
    *views = List::from_vec(items);
    done
}

// Puts the data file into the view. An `Err` changes nothing.
fn put_in(alloc: Global, view: &mut View, file: LocalFile) -> Result<(), StateFault>
    ensures ok { OnOk result (view.new ≡ with_local file view.old) }
    ensures err { OnErr result (view.new ≡ view.old) }
{
    put_among(alloc, &mut view.locals, file)
}

// Puts the data file among the others. An `Err` changes nothing.
fn put_among(alloc: Global, files: &mut List<LocalFile>, file: LocalFile) -> Result<(), StateFault>
    ensures ok { OnOk result (files.new ≡ with_named local_name file files.old) }
    ensures err { OnErr result (files.new ≡ files.old) }
{
    let place = place_of_local(files.as_slice(), &file.name);
    if stands_at(files.as_slice(), place, &file.name) {
        set_at(alloc, files, place, file);
        return Ok(());
    }
    insert_at(alloc, files, place, file)
}

// Puts the data file in the place of the one there.
fn set_at(alloc: Global, files: &mut List<LocalFile>, place: usize, file: LocalFile)
    requires { place < length files.old }
    ensures { files.new ≡ slice_set files.old place file }
{
    let mut items = replace(files, List::from_vec(Vec::new(alloc))).into_vec();
    items[place] = file;
    *files = List::from_vec(items);
}

// Takes the data file of that name out of the view at the place.
fn cut_at(alloc: Global, views: &mut List<View>, place: usize, name: &Name)
    requires { place < length views.old }
    ensures { HoldsAt (λ view. views.new
        ≡ slice_set views.old place (without_local name.now view)) views.old place }
{
    let mut items = replace(views, List::from_vec(Vec::new(alloc))).into_vec();
    cut_in(alloc, &mut items[place], name);
    *views = List::from_vec(items);
}

// Takes the data file of that name out of the view.
fn cut_in(alloc: Global, view: &mut View, name: &Name)
    ensures { view.new ≡ without_local name.now view.old }
{
    cut_among(alloc, &mut view.locals, name);
}

// Takes the data file of that name out.
fn cut_among(alloc: Global, files: &mut List<LocalFile>, name: &Name)
    ensures { files.new ≡ without_named local_name name.now files.old }
{
    let mut items = replace(files, List::from_vec(Vec::new(alloc))).into_vec();
    items.retain(|file| !has_name(file, name));
    *files = List::from_vec(items);
}

// Whether the data file has that name.
fn has_name(file: &LocalFile, name: &Name) -> bool
    ensures { result ≡ bytes_eq file.now.name name.now }
{
    file.name == *name
}

// Whether its name is that name or behind it.
fn is_not_before(file: &LocalFile, name: &Name) -> bool
    ensures { result ≡ is_not_before name.now file.now }
{
    file.name.cmp(name).is_ge()
}

// The place of the first data file whose name is not before that name.
fn first_behind(files: &[LocalFile], name: &Name) -> Option<usize>
    ensures { result ≡ position (is_not_before name.now) files.now }
{
    files.iter().position(|file| is_not_before(file, name))
}

// The same, or the end where each is before it: where a data file of that name goes.
fn place_of_local(files: &[LocalFile], name: &Name) -> usize
    ensures place { result ≡ position_or_len (is_not_before name.now) files.now }
    ensures within { result ≤ length files.now }
{
    match first_behind(files, name) {
        Some(place) => place,
        None => files.len(),
    }
}

// Whether the data file of that name stands at the place.
fn stands_at(files: &[LocalFile], place: usize, name: &Name) -> bool
    ensures { result ≡ stands_at name.now (slice_get files.now place) }
{
    match files.get(place) {
        Some(file) => has_name(file, name),
        None => false,
    }
}

// Whether the data files are few enough once this one is among them.
pub(crate) fn has_room_for(files: &[LocalFile], file: &LocalFile) -> bool
    ensures { IsTrue result
        ↔ outside_locals (with_named local_name file.now files.now) ≤ limits.LOCAL_COUNT_LIMIT }
{
    let place = place_of_local(files, &file.name);
    let count = count_outside(files);
    if stands_at(files, place, &file.name) {
        return count <= LOCAL_COUNT_LIMIT;
    }
    if is_outside(&file.name) {
        return count < LOCAL_COUNT_LIMIT;
    }
    count <= LOCAL_COUNT_LIMIT
}

// The data file of that name.
pub(crate) fn find_local<'a>(files: &'a [LocalFile], name: &Name) -> Option<&'a LocalFile>
    ensures { option_copied result ≡ local_named name.now files.now }
{
    files.iter().find(|file| has_name(file, name))
}
