// Marks of the items of a list, and the items that are kept by them.
ghost use Rattle.std.specs.Prelude.{◌≡◌, ◌<◌, ◌≤◌, [], length, replicate, slice_set, take, vec_capacity};
ghost use Rattle.small_types.specs.declared.limits.TheConstants as limits;
ghost use Rattle.store_state.specs.Marks.{kept_by};

use small_types::List;
use small_types::limits::FILE_COUNT_LIMIT;
use std::alloc::{AllocError, Global};
use std::marker::Model;
use std::mem::replace;

// Marks, with the room for as many as there may be contents, which is 16,384. It is made with the
// list, so that marks are set without memory. Contracts see it as the list of the marks.
#[derive(Drop, Debug)]
pub(crate) struct MarkList {
    held: Vec<bool>,
}

impl Model for MarkList {
    ghost use Rattle.std.specs.Prelude.{◌≤◌, Bool, List, vec_capacity};
    ghost use Rattle.small_types.specs.declared.limits.TheConstants as limits;

    ghost Value = { List Bool };

    ghost view = { λ l. l.held.items };

    ghost invariant = { λ l. limits.FILE_COUNT_LIMIT ≤ vec_capacity l.held };
}

impl MarkList {
    // No marks, and the room for all that there may be.
    pub(crate) fn empty(alloc: Global) -> Result<MarkList, AllocError> {
        let held = Vec::with_capacity(alloc, FILE_COUNT_LIMIT)?;
        Ok(MarkList { held })
    }

    // The marks, to be read.
    pub(crate) fn as_slice(&self) -> &[bool]
        ensures { result.now ≡ self.now }
    {
        self.held.as_slice()
    }

    // So many marks, which are all alike.
    pub(crate) fn reset(&mut self, count: usize, mark: bool)
        requires { count ≤ limits.FILE_COUNT_LIMIT }
        ensures { self.new ≡ replicate count mark }
    {
        self.held.clear();
        fill(&mut self.held, count, mark);
    }

    // The mark at the place.
    pub(crate) fn set(&mut self, place: usize, mark: bool)
        requires { place < length self.old }
        ensures { self.new ≡ slice_set self.old place mark }
    {
        self.held[place] = mark;
    }
}

// Adds so many marks to none, for which there is room.
fn fill(marks: &mut Vec<bool>, count: usize, mark: bool)
    requires none { marks.old.items ≡ [] }
    requires room { count ≤ vec_capacity marks.old }
    ensures items { marks.new.items ≡ replicate count mark }
    ensures capacity { vec_capacity marks.old ≤ vec_capacity marks.new }
{
    for _ in 0..count {
        let _added = marks.push(mark);
    }
}

// Keeps the items that are marked, in their order.
pub(crate) fn keep_marked<T: Drop>(alloc: Global, list: &mut List<T>, marks: &[bool])
    requires { length marks.now ≡ length list.old }
    ensures { list.new ≡ kept_by marks.now list.old }
{
    let mut items = replace(list, List::from_vec(Vec::new(alloc))).into_vec();
    let kept = move_marked(&mut items, marks);
    items.truncate(kept);
    *list = List::from_vec(items);
}

// Moves the items that are marked to the front, in their order, and answers how many there are.
fn move_marked<T>(items: &mut Vec<T>, marks: &[bool]) -> usize
    requires { length marks.now ≡ length items.old.items }
    ensures { take result items.new.items ≡ kept_by marks.now items.old.items }
{
    let mut kept = 0;
    for place in 0..marks.len() {
        if marks[place] {
            items.swap(kept, place);
            kept += 1;
        }
    }
    kept
}
