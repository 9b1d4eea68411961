// All that stands for files that jobs need.
ghost use Rattle.std.specs.Prelude.{◌≡◌, ◌≢◌, ◌^◌, ◌∷◌, ℕ, Bool, true, false, if◌then◌else◌, ◌++◌, IfSome, IfNone, IfErr, IfOk, vec_capacity, OnOk, OnErr, ◌+◌, ◌<◌, ◌≤◌, [], length, slice_index_or, slice_set, All};
ghost use Rattle.small_types.specs.Blocks.{count_for};
ghost use Rattle.small_types.specs.declared.limits.TheConstants as limits;
ghost use Rattle.file_store.specs.Stores.{SameRange, draft_blocks, draft_size, free_of};
ghost use Rattle.file_store.specs.declared.store.FileStore.{FileStore};
ghost use Rattle.file_store.specs.declared.fault.FileFault.TheVariants.{Memory};
ghost use Rattle.machine.specs.Views.{content_key};
ghost use Rattle.jobs.specs.HandOver.{gained};
ghost use Rattle.jobs.specs.Keys.{key_by};
ghost use Rattle.jobs.specs.Kept.{Kept};
ghost use Rattle.jobs.specs.NewJobs.{AllSuit, HasTaken, Refers, Tell, has_blocks_for, more, need_for, need_of, slot_for};
ghost use Rattle.jobs.specs.declared.held.Held.{Held};
ghost use Rattle.jobs.specs.declared.held.Held.TheVariants.{Away, Nothing};
ghost use Rattle.jobs.specs.Slots.{HasSize, KeepFiles, KeepNeeded, KeepUsed, handed, IsFit, is_for, is_fresh, is_used, draft_of, has_blocks, held_blocks, lent, less, slot_at, with_held};
ghost use Rattle.jobs.specs.Balance.{Balanced, IsBalanced, KeepsBalance, needed_as, times};

use crate::content_key::key_of;
use crate::held::release;
use crate::{Held, Slot};
use digest_list::Digest;
use file_store::{Draft, FileFault, FileStore};
use manifests::FileEntry;
use small_types::CopyFault;
use small_types::limits::BLOCK_SIZE;
use std::alloc::Global;

// An entry less needs this slot.
pub(crate) fn let_go(slots: &mut [Slot], at: usize, store: &mut FileStore)
    requires within { at < length slots.old }
    requires used { 0 < (slot_at slots.old at).users }
    requires balanced { IsBalanced slots.old [] store.old }
    ensures balanced { KeepsBalance slots.old [] store.old slots.new [] store.new }
    ensures slots { slots.new ≡ slice_set slots.old at (less (slot_at slots.old at)) }
    ensures range { SameRange store.old store.new }
{
    let held = slots[at].let_go();
    release(store, held);
}

// These entries less need their slots.
pub(crate) fn let_go_all(slots: &mut [Slot], needs: &[usize], store: &mut FileStore)
    requires within { All (λ at. at < length slots.old) needs.now }
    requires counted { (at : ℕ) → at < length slots.old
        → times at needs.now ≤ (slot_at slots.old at).users }
    requires balanced { IsBalanced slots.old [] store.old }
    ensures balanced { KeepsBalance slots.old [] store.old slots.new [] store.new }
    ensures users { (at : ℕ) → at < length slots.old
        → (slot_at slots.new at).users + times at needs.now ≡ (slot_at slots.old at).users }
    ensures kept { KeepUsed slots.old slots.new }
    ensures range { SameRange store.old store.new }
{
    for need in needs {
        let_go(slots, *need, store);
    }
}

// The slot has this from now on.
pub(crate) fn fill(slots: &mut [Slot], at: usize, held: Held)
    requires { at < length slots.old }
    ensures { slots.new ≡ slice_set slots.old at (with_held (slot_at slots.old at) held) }
{
    slots[at].held = held;
}

// An entry less needs this slot, and what it has is the tables'.
fn hand_over(slots: &mut [Slot], at: usize)
    requires within { at < length slots.old }
    requires used { 0 < (slot_at slots.old at).users }
    ensures { slots.new ≡ slice_set slots.old at (handed (slot_at slots.old at)) }
{
    slots[at].hand_over();
}

// These entries less need their slots, which have nothing but for data files, whose blocks are the
// tables'.
pub(crate) fn hand_over_all(slots: &mut [Slot], needs: &[usize])
    requires within { All (λ at. at < length slots.old) needs.now }
    requires counted { (at : ℕ) → at < length slots.old
        → times at needs.now ≤ (slot_at slots.old at).users }
    requires programs { All (λ at. (slot_at slots.old at).local ≡ false
        → (slot_at slots.old at).held ≡ Nothing) needs.now }
    ensures balanced { (kept : Kept) (store : FileStore) → Balanced kept slots.old [] store
        → Balanced (gained kept slots.old needs.now) slots.new [] store }
    ensures users { (at : ℕ) → at < length slots.old
        → (slot_at slots.new at).users + times at needs.now ≡ (slot_at slots.old at).users }
    ensures files { KeepFiles slots.old slots.new }
    ensures others { All IsFit slots.old → KeepNeeded slots.old slots.new }
{
    for need in needs {
        hand_over(slots, *need);
    }
}

// The draft of a slot, if it has one. Its blocks are in the caller's hands.
pub(crate) fn lend(slots: &mut [Slot], at: usize, store: &FileStore) -> Option<Draft>
    requires within { at < length slots.old }
    ensures draft { result ≡ draft_of (slot_at slots.old at).held }
    ensures slots { slots.new ≡ slice_set slots.old at (lent (slot_at slots.old at)) }
    ensures size { (kept : Kept) → Balanced kept slots.old [] store.now
        → IfSome result (λ draft. draft_size draft ≡ (slot_at slots.old at).key.size) }
    ensures balanced { IfSome result (λ draft.
        KeepsBalance slots.old [] store.now slots.new (draft_blocks draft) store.now) }
{
    slots[at].lend()
}

// What was taken out of a slot, or came of it, stands in it again.
pub(crate) fn put(slots: &mut [Slot], at: usize, held: Held, store: &FileStore)
    requires within { at < length slots.old }
    requires away { (slot_at slots.old at).held ≡ Away }
    requires some { has_blocks held ≡ true }
    requires size { HasSize (slot_at slots.old at).key.size held }
    ensures balanced { KeepsBalance slots.old (held_blocks held) store.now slots.new [] store.now }
    ensures slots { slots.new ≡ slice_set slots.old at (with_held (slot_at slots.old at) held) }
{
    slots[at].held = held;
}

// The slot that jobs have for the content of this size and these digests.
pub(crate) fn find(slots: &[Slot], size: u64, list: &[Digest]) -> Option<usize>
    ensures found { IfSome result (λ at. (at < length slots.now)
        × (is_for (key_by size list.now) (slot_at slots.now at) ≡ true)
        × (is_used (slot_at slots.now at) ≡ true)) }
    ensures none { IfNone result (needed_as (key_by size list.now) slots.now ≡ 0) }
{
    for (at, slot) in slots.iter().enumerate() {
        if slot.is_for(size, list) {
            return Some(at);
        }
    }
    None
}

// An entry more needs this slot.
pub(crate) fn join(slots: &mut [Slot], at: usize, store: &FileStore)
    requires within { at < length slots.old }
    requires few { (slot_at slots.old at).users < 2 ^ 62 }
    requires for_all { (slot_at slots.old at).local ≡ false }
    requires used { 0 < (slot_at slots.old at).users }
    ensures balanced { KeepsBalance slots.old [] store.now slots.new [] store.now }
    ensures slots { slots.new ≡ slice_set slots.old at (more (slot_at slots.old at)) }
{
    slots[at].users += 1;
}

// A new slot, which one entry needs, with a draft unless the tables have the content.
pub(crate) fn enlist(
    slots: &mut Vec<Slot>,
    alloc: Global,
    entry: &FileEntry,
    kept: bool,
    store: &mut FileStore,
) -> Result<(), FileFault>
    requires new { entry.now.local ≡ false
        → needed_as (content_key entry.now) slots.old.items ≡ 0 }
    ensures balanced { (tables : Kept) → kept ≡ has_blocks_for tables entry.now
        → Balanced tables slots.old.items [] store.old
        → Balanced tables slots.new.items [] store.new }
    ensures ok { OnOk result ((held : Held) × (is_fresh held ≡ true) × (slots.new.items
        ≡ slots.old.items ++ slot_for entry.now held ∷ [])) }
    ensures free { OnOk result (length (free_of store.new)
        + (if kept then 0 else count_for entry.now.size) ≡ length (free_of store.old)) }
    ensures err { OnErr result (slots.new.items ≡ slots.old.items) }
    ensures store { OnErr result (store.new ≡ store.old) }
    ensures faults { IfErr result (λ e. e ≢ Memory
        → length (free_of store.old) < count_for entry.now.size) }
    ensures range { SameRange store.old store.new }
{
    slots.reserve(1)?;
    let key = match key_of(alloc, entry) {
        Ok(key) => key,
        Err(CopyFault::Memory) => return Err(FileFault::Memory),
    };
    let local = entry.local;
    if kept {
        let held = Held::Nothing;
        slots.push_reserved(Slot {
            key,
            local,
            users: 1,
            held,
        });
        return Ok(());
    }
    match store.begin(alloc, entry.size) {
        Ok(draft) => {
            let held = Held::Coming(draft);
            slots.push_reserved(Slot {
                key,
                local,
                users: 1,
                held,
            });
            Ok(())
        }
        Err(fault) => {
            drop(key);
            Err(fault)
        }
    }
}

// The slot that jobs have for this file already: for a program file, that of its content.
fn existing(slots: &[Slot], entry: &FileEntry) -> Option<usize>
    ensures found { IfSome result (λ at. (entry.now.local ≡ false) × (at < length slots.now)
        × (is_for (content_key entry.now) (slot_at slots.now at) ≡ true)
        × (is_used (slot_at slots.now at) ≡ true)) }
    ensures none { IfNone result (entry.now.local ≡ false
        → needed_as (content_key entry.now) slots.now ≡ 0) }
{
    if entry.local {
        return None;
    }
    find(slots, entry.size, entry.list.as_slice())
}

// The slot of this file, which an entry more needs.
pub(crate) fn refer(
    slots: &mut Vec<Slot>,
    alloc: Global,
    entry: &FileEntry,
    kept: bool,
    store: &mut FileStore,
) -> Result<usize, FileFault>
    requires few { All (λ slot. slot.users < 2 ^ 62) slots.old.items }
    ensures balanced { (tables : Kept) → kept ≡ has_blocks_for tables entry.now
        → Balanced tables slots.old.items [] store.old
        → Balanced tables slots.new.items [] store.new }
    ensures ok { IfOk result (Refers slots.old.items slots.new.items entry.now) }
    ensures err { OnErr result (slots.new.items ≡ slots.old.items) }
    ensures store { OnErr result (store.new ≡ store.old) }
    ensures range { SameRange store.old store.new }
{
    if let Some(at) = existing(slots, entry) {
        join(slots, at, store);
        return Ok(at);
    }
    let at = slots.len();
    enlist(slots, alloc, entry, kept, store)?;
    Ok(at)
}

// A flag.
fn flag_at(flags: &[bool], place: usize) -> bool
    requires { place < length flags.now }
    ensures { result ≡ slice_index_or flags.now place false }
{
    flags[place]
}

// The slots of these files, which an entry more each needs. After an error they are those of the
// first of them.
pub(crate) fn refer_all(
    slots: &mut Vec<Slot>,
    needs: &mut Vec<usize>,
    alloc: Global,
    entries: &[FileEntry],
    flags: &[bool],
    store: &mut FileStore,
) -> Result<(), FileFault>
    requires none { needs.old.items ≡ [] }
    requires room { length entries.now ≤ vec_capacity needs.old }
    requires few { length entries.now ≤ limits.FILE_COUNT_LIMIT }
    requires flags { length flags.now ≡ length entries.now }
    requires users { (at : ℕ) → (slot_at slots.old.items at).users ≤ 2 ^ 60 }
    ensures balanced { (tables : Kept) → Tell flags.now tables entries.now
        → Balanced tables slots.old.items [] store.old
        → Balanced tables slots.new.items [] store.new }
    ensures taken { HasTaken slots.old.items slots.new.items needs.new.items }
    ensures count { OnOk result (length needs.new.items ≡ length entries.now) }
    ensures suits { OnOk result (AllSuit slots.new.items needs.new.items entries.now) }
    ensures range { SameRange store.old store.new }
{
    for (k, entry) in entries.iter().enumerate() {
        let kept = flag_at(flags, k);
        let at = refer(slots, alloc, entry, kept, store)?;
        needs.push_reserved(at);
    }
    Ok(())
}

// ---- what a new job needs

// The blocks of a file, but none of a content that a job counts.
fn need_of(slots: &[Slot], entry: &FileEntry) -> u64
    requires { entry.now.size ≤ limits.FILE_SIZE_LIMIT }
    ensures value { result ≡ need_of slots.now entry.now }
    ensures few { result ≤ 2 ^ 17 }
{
    if let Some(_) = existing(slots, entry) {
        return 0;
    }
    entry.size.div_ceil(BLOCK_SIZE as u64)
}

// The blocks that a job needs which has these files left.
pub(crate) fn need(slots: &[Slot], entries: &[FileEntry], left: &[usize]) -> u64
    requires within { All (λ k. k < length entries.now) left.now }
    requires few { length left.now ≤ limits.FILE_COUNT_LIMIT }
    requires sizes { All (λ e. e.size ≤ limits.FILE_SIZE_LIMIT) entries.now }
    ensures { result ≡ need_for slots.now entries.now left.now }
{
    let mut need = 0;
    for place in left {
        need += need_of(slots, &entries[*place]);
    }
    need
}
