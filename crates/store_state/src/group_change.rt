// What a group that comes changes in the tables.
ghost use Rattle.std.specs.Prelude.{◌≡◌, ◌<◌, length, slice_get, slice_set, IfNone, IfSome, None, OnOk, OnErr};
ghost use Rattle.std.specs.List.{HoldsAt};
ghost use Rattle.store_state.specs.declared.change.Change.TheVariants as change;
ghost use Rattle.store_state.specs.Change.{FitsGroup, effect, grown};
ghost use Rattle.store_state.specs.Rows.{row_at};

use crate::content_key::add_places;
use crate::views::place_of_view;
use crate::{Content, StateFault, StoreState, View};
use small_types::{List, Text};
use std::alloc::{AllocFailed, Global};
use std::mem::replace;

impl StoreState {
    // The place of the view of that number.
    pub(crate) fn view_place(&self, number: u64) -> Option<usize>
        ensures found { IfSome result (λ place. (place < length self.now.views)
            × (slice_get self.now.views place ≡ row_at number self.now.views)) }
        ensures none { IfNone result (row_at number self.now.views ≡ None) }
    {
        place_of_view(self.views.as_slice(), number).ok()
    }

    // The group comes to the view of that number, with the contents of its files. An `Err` changes
    // nothing.
    pub(crate) fn add_group(
        &mut self,
        alloc: Global,
        number: u64,
        group: Text,
        contents: List<Content>,
    ) -> Result<(), StateFault>
        requires { FitsGroup self.old number group contents }
        ensures ok { OnOk result (self.new ≡ effect (change.Group number group contents) self.old) }
        ensures err { OnErr result (self.new ≡ self.old) }
    {
        let Some(place) = self.view_place(number) else {
            unreachable!();
        };
        let held = self.contents.as_slice().len();
        self.index.reserve(contents.as_slice().len())?;
        self.contents.append(contents)?;
        let done = group_at(alloc, &mut self.views, place, group);
        if let Err(fault) = done {
            self.contents.shorten(held);
            return Err(fault);
        }
        add_places(self.contents.as_slice(), &mut self.index, held);
        Ok(())
    }
}

// Adds the group to the view at the place. An `Err` changes nothing.
fn group_at(
    alloc: Global,
    views: &mut List<View>,
    place: usize,
    group: Text,
) -> Result<(), StateFault>
    requires { place < length views.old }
    ensures ok { OnOk result (HoldsAt (λ view. views.new
        ≡ slice_set views.old place (grown group view)) views.old place) }
    ensures err { OnErr result (views.new ≡ views.old) }
{
    let mut items = replace(views, List::from_vec(Vec::new(alloc))).into_vec();
    let done = group_in(&mut items[place], group);
    *views = List::from_vec(items);
    done
}

// Adds the group to the view. An `Err` changes nothing.
fn group_in(view: &mut View, group: Text) -> Result<(), StateFault>
    ensures ok { OnOk result (view.new ≡ grown group view.old) }
    ensures err { OnErr result (view.new ≡ view.old) }
{
    match view.groups.push(group) {
        Ok(()) => Ok(()),
        Err(AllocFailed { .. }) => Err(StateFault::Memory),
    }
}
