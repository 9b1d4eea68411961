// What passes between the tables, the jobs and the lines beside them.
ghost use Rattle.std.specs.Prelude.{◌≡◌, ◌<◌, [], length, slice_set, IfSome, IfNone};
ghost use Rattle.file_store.specs.Stores.{SameRange};
ghost use Rattle.jobs.specs.Balance.{needed_as};
ghost use Rattle.jobs.specs.Jobs.{IsSound};
ghost use Rattle.jobs.specs.Keys.{key_by};
ghost use Rattle.jobs.specs.Kept.{Kept};
ghost use Rattle.jobs.specs.Laws.{BlocksAddUp, OneListEach};
ghost use Rattle.jobs.specs.Moves.{BlocksMayMove, IsSlotFor, KeepOrFill, Loses, SlotsMayTurn};
ghost use Rattle.jobs.specs.Slots.{draft_of, lent, slot_at, with_held};
ghost use Rattle.jobs.specs.WholeFiles.{WholeFilesCome, WholeFilesStay};

use crate::slots::{fill, find};
use crate::{Held, JobTable};
use digest_list::{Digest, DigestList};
use file_store::{Draft, FileStore};
use small_types::List;

/// Where blocks move, or what the slot of a content has changes, what was sound still is, beside
/// tables that change with them.
pub fn blocks_may_move()
    ensures blocks { BlocksMayMove }
    ensures slots { SlotsMayTurn }
{}

/// The blocks of the tables, those that jobs count and the free ones are all blocks. For each
/// content that the tables or a file of a job has, and for no other, one list of blocks stands.
pub fn blocks_are_counted()
    ensures sum { BlocksAddUp }
    ensures one { OneListEach }
{}

/// An image that has the bytes of each whole file that jobs need has them still, where a job is
/// opened, given up or becomes an installed one, and where one slot changes.
pub fn whole_files_stay()
    ensures stay { WholeFilesStay }
    ensures come { WholeFilesCome }
{}

impl JobTable {
    /// The place of the slot that jobs have for the content of this size and these digests, if one
    /// needs it.
    pub fn slot_of(&self, size: u64, list: &[Digest]) -> Option<usize>
        ensures found { IfSome result (IsSlotFor (key_by size list.now) self.now.slots.items) }
        ensures none { IfNone result (needed_as (key_by size list.now) self.now.slots.items ≡ 0) }
    {
        find(&self.slots, size, list)
    }

    /// The draft of the slot at this place, if its file is still to come. It is out from now on.
    pub fn lend(&mut self, at: usize) -> Option<Draft>
        requires { at < length self.old.slots.items }
        ensures draft { result ≡ draft_of (slot_at self.old.slots.items at).held }
        ensures slots { self.new.slots.items
            ≡ slice_set self.old.slots.items at (lent (slot_at self.old.slots.items at)) }
        ensures jobs { self.new.jobs ≡ self.old.jobs }
        ensures next { self.new.next ≡ self.old.next }
    {
        self.slots[at].lend()
    }

    /// The slot at this place has this from now on: the draft that was lent, or nothing, where its
    /// content became the tables'.
    pub fn put(&mut self, at: usize, held: Held)
        requires { at < length self.old.slots.items }
        ensures slots { self.new.slots.items
            ≡ slice_set self.old.slots.items at (with_held (slot_at self.old.slots.items at) held) }
        ensures jobs { self.new.jobs ≡ self.old.jobs }
        ensures next { self.new.next ≡ self.old.next }
    {
        fill(&mut self.slots, at, held);
    }

    /// The tables lose the content of this size and these digests, which lies in these blocks: the
    /// jobs that need it keep them, and where none does they are free. It takes no memory.
    pub fn pass_on(
        &mut self,
        size: u64,
        list: &DigestList,
        blocks: List<u32>,
        store: &mut FileStore,
    )
        requires lost { (before : Kept) × (after : Kept)
            × Loses before after (key_by size list.now) blocks
            × IsSound before self.old [] [] store.old }
        ensures sound { (before after : Kept) → Loses before after (key_by size list.now) blocks
            → IsSound before self.old [] [] store.old → IsSound after self.new [] [] store.new }
        ensures slots { KeepOrFill (key_by size list.now) blocks self.old.slots.items
            self.new.slots.items }
        ensures jobs { self.new.jobs ≡ self.old.jobs }
        ensures next { self.new.next ≡ self.old.next }
        ensures range { SameRange store.old store.new }
    {
        match self.slot_of(size, list.as_slice()) {
            Some(at) => fill(&mut self.slots, at, Held::Whole(blocks)),
            None => store.release_blocks(&blocks),
        }
    }
}
