// What a clean takes out of the tables. None of it takes memory.
ghost use Rattle.std.specs.Prelude.{◌≡◌, ◌<◌, ◌≤◌, ◌++◌, ℕ, List, [], ◌∷◌, false, length, map, not, All, AllPairs, IsSome};
ghost use Rattle.small_types.specs.declared.limits.TheConstants as limits;
ghost use Rattle.manifests.specs.declared.facts.FileEntry.{FileEntry};
ghost use Rattle.machine.specs.Blocks.{standing_files};
ghost use Rattle.machine.specs.InUse.{IsInUse};
ghost use Rattle.machine.specs.Views.{standing_entries};
ghost use Rattle.store_state.specs.declared.view.Content.{Content};
ghost use Rattle.store_state.specs.ContentKeys.{content_key_cmp};
ghost use Rattle.store_state.specs.Contents.{held_key, is_same};
ghost use Rattle.store_state.specs.Dropped.{dropped, is_among, is_needed};
ghost use Rattle.store_state.specs.Places.{ArePlaces};
ghost use Rattle.store_state.specs.Rows.{row_at};
ghost use Rattle.store_state.specs.Tables.{bare_row};

use crate::brought_contents::stands;
use crate::content_key::{add_places, place_of_content};
use crate::marks::{MarkList, keep_marked};
use crate::views::place_of_view;
use crate::{Content, StoreState, View};
use manifests::FileEntry;
use small_types::List;

impl StoreState {
    /// Takes out the views of these numbers, and the contents that no program file of the other
    /// views has. They are kept views of which none is current, previous or leased. It takes no
    /// memory.
    pub fn drop_views(&mut self, numbers: &List<u64>)
        requires kept { All (λ number. IsSome (row_at number self.old.views)) numbers.now }
        requires unused { All (λ number. ¬ IsInUse number self.old.apps self.old.leases)
            numbers.now }
        ensures { self.new ≡ dropped numbers.now self.old }
    {
        let alloc = *self.index.allocator();
        mark_views(&mut self.marks, self.views.as_slice(), numbers.as_slice());
        keep_marked(alloc, &mut self.views, self.marks.as_slice());
        keep_marked(alloc, &mut self.names, self.marks.as_slice());
        mark_contents(
            &mut self.marks,
            self.contents.as_slice(),
            self.index.as_slice(),
            self.views.as_slice(),
        );
        keep_marked(alloc, &mut self.contents, self.marks.as_slice());
        self.index.clear();
        add_places(self.contents.as_slice(), &mut self.index, 0);
    }
}

// Marks the views but those of these numbers.
fn mark_views(marks: &mut MarkList, views: &[View], numbers: &[u64])
    requires few { length views.now ≤ limits.FILE_COUNT_LIMIT }
    requires rising { AllPairs (λ (m n : ℕ). m < n) (map (λ view. view.number) views.now) }
    ensures { marks.new ≡ map (λ view. not (is_among numbers.now view)) views.now }
{
    marks.reset(views.len(), true);
    for number in numbers {
        unmark_view(marks, views, *number);
    }
}

// Leaves the view of that number without a mark.
fn unmark_view(marks: &mut MarkList, views: &[View], number: u64)
    requires long { length marks.old ≡ length views.now }
    requires rising { AllPairs (λ (m n : ℕ). m < n) (map (λ view. view.number) views.now) }
    ensures marks { (numbers : List ℕ)
        → marks.old ≡ map (λ view. not (is_among numbers view)) views.now
        → marks.new ≡ map (λ view. not (is_among (numbers ++ number ∷ []) view)) views.now }
    ensures long { length marks.new ≡ length views.now }
{
    if let Ok(place) = place_of_view(views, number) {
        marks.set(place, false);
    }
}

// Marks the contents of the program files that stand in the views.
fn mark_contents(marks: &mut MarkList, contents: &[Content], index: &[usize], views: &[View])
    requires few { length contents.now ≤ limits.FILE_COUNT_LIMIT }
    requires placed { ArePlaces content_key_cmp (map held_key contents.now) index.now }
    requires once { AllPairs (λ (a b : Content). is_same a b ≡ false) contents.now }
    ensures { marks.new ≡ map (is_needed (standing_files (map bare_row views.now))) contents.now }
{
    marks.reset(contents.len(), false);
    for view in views {
        mark_files(marks, contents, index, view);
    }
}

// Marks those of the program files that stand in the view, too.
fn mark_files(marks: &mut MarkList, contents: &[Content], index: &[usize], view: &View)
    requires long { length marks.old ≡ length contents.now }
    requires placed { ArePlaces content_key_cmp (map held_key contents.now) index.now }
    requires once { AllPairs (λ (a b : Content). is_same a b ≡ false) contents.now }
    ensures marks { (entries : List FileEntry) → marks.old ≡ map (is_needed entries) contents.now
        → marks.new ≡ map (is_needed (entries
        ++ standing_entries view.now.groups view.now.application)) contents.now }
    ensures long { length marks.new ≡ length contents.now }
{
    let groups = view.groups.as_slice();
    for entry in view.application.files.as_slice() {
        if stands(groups, entry) {
            mark_file(marks, contents, index, entry);
        }
    }
}

// Marks that of the program file, too.
fn mark_file(marks: &mut MarkList, contents: &[Content], index: &[usize], entry: &FileEntry)
    requires long { length marks.old ≡ length contents.now }
    requires placed { ArePlaces content_key_cmp (map held_key contents.now) index.now }
    requires once { AllPairs (λ (a b : Content). is_same a b ≡ false) contents.now }
    ensures marks { (entries : List FileEntry) → marks.old ≡ map (is_needed entries) contents.now
        → marks.new ≡ map (is_needed (entries ++ entry.now ∷ [])) contents.now }
    ensures long { length marks.new ≡ length contents.now }
{
    if let Some(place) = place_of_content(contents, index, entry.size, entry.list.as_slice()) {
        marks.set(place, true);
    }
}
