// The data files of a new view: what was fetched for it, and copies of what it carries over.
ghost use Rattle.std.specs.Prelude.{◌≡◌, ◌≢◌, ◌≤◌, ◌+◌, ℕ, [], ◌∷◌, ◌++◌, true, All, IfErr, IfOk, IsSome, List, OnErr, OnOk, Err, bytes_eq, count_by, length, map, sum_by};
ghost use Rattle.std.specs.List.Sorted.{IsPermutation};
ghost use Rattle.std.specs.Option.{option_copied};
ghost use Rattle.small_types.specs.Blocks.{ShareNone, blocks_start, count_for};
ghost use Rattle.small_types.specs.declared.room.Room.{Room};
ghost use Rattle.file_store.specs.Stores.{AreUsed, blocks_of_all, draft_blocks, free_of, store_base};
ghost use Rattle.line_drafts.specs.Added.{AddsOne};
ghost use Rattle.line_drafts.specs.Held.{AreHeld};
ghost use Rattle.line_drafts.specs.Works.{Works};
ghost use Rattle.store_state.specs.Locals.{local_named};
ghost use Rattle.store_state.specs.Measured.{IsMeasuredLocal};
ghost use Rattle.store_state.specs.Stored.{HasLocals, data_bytes};
ghost use Rattle.table_files.specs.Held.{held_for_locals};
ghost use Rattle.install_plan.specs.declared.lack.Lack.TheVariants as by;
ghost use Rattle.machine.specs.declared.reply.Reply.TheVariants.{Memory};
ghost use Rattle.install_plan.specs.Carried.{Rise};
ghost use Rattle.install_plan.specs.Changes.{length_in};
ghost use Rattle.install_plan.specs.Lacks.{IsPlainLack};
ghost use Rattle.install_plan.specs.Parts.{AddCopies, IsThere, KeepBlocks, copied_locals, fresh_local, is_copy, made_locals};

use crate::fetched_parts::data_file;
use crate::lack::{Lack, lack_of};
use data_migration::LocalPlan;
use disks::Disk;
use file_store::{Draft, FileStore};
use line_drafts::LineDrafts;
use machine::Reply;
use small_types::{CopyFault, Duplicate, List, Name};
use std::alloc::{AllocFailed, Global};
use store_state::LocalFile;

// Whether the data file has the name.
fn is_named(file: &LocalFile, name: &Name) -> bool
    ensures { result ≡ bytes_eq file.now.name name.now }
{
    file.name.as_bytes() == name.as_bytes()
}

// The first of the data files of that name.
fn find<'a>(files: &'a [LocalFile], name: &Name) -> Option<&'a LocalFile>
    ensures { option_copied result ≡ local_named name.now files.now }
{
    files.iter().find(|file| is_named(file, name))
}

// ---- copies

// Copies a data file into a draft. There are blocks for it.
fn copy_one<D: Disk>(
    alloc: Global,
    disk: &mut D,
    files: &mut FileStore,
    drafts: &mut LineDrafts,
    file: &LocalFile,
) -> Result<(), Lack>
    requires measured { IsMeasuredLocal file.now }
    requires used { AreUsed files.old (blocks_of_all drafts.old) }
    requires room { count_for file.now.length ≤ length (free_of files.old) }
    ensures added { OnOk result (AddsOne drafts.old drafts.new file.now.length) }
    ensures left { OnOk result (length (free_of files.old)
        ≡ count_for file.now.length + length (free_of files.new)) }
    ensures held { OnOk result ((room : Room) (contents : List (List ℕ)) → D.tells disk.new
        → store_base files.old ≡ blocks_start room.half
        → ShareNone file.now.held (free_of files.old)
        → HasLocals room (D.seen disk.old) (file.now ∷ [])
        → AreHeld (store_base files.old) drafts.old contents (D.seen disk.old)
        → AreHeld (store_base files.old) drafts.new
        (contents ++ data_bytes room (D.seen disk.old) file.now ∷ []) (D.seen disk.new)) }
    ensures lack { IfErr result IsPlainLack }
    ensures none { OnErr result (drafts.new ≡ drafts.old) }
    ensures works { Works D.Disk drafts.old drafts.new files.old files.new disk.old disk.new
        file.now.length (result ≡ Err by.DiskFault) }
{
    match drafts.copy(alloc, disk, files, &file.held, file.length) {
        Ok(()) => Ok(()),
        Err(fault) => Err(lack_of(fault)),
    }
}

// Copies the old data files that the plans carry over, in their order, each into a draft of its own.
// There are blocks for all of them.
pub(crate) fn copy_locals<D: Disk>(
    alloc: Global,
    disk: &mut D,
    files: &mut FileStore,
    drafts: &mut LineDrafts,
    old: &[LocalFile],
    plans: &[LocalPlan],
) -> Result<(), Lack>
    requires there { All (λ plan. is_copy plan ≡ true → IsThere old.now [] plan) plans.now }
    requires measured { All IsMeasuredLocal old.now }
    requires used { AreUsed files.old (blocks_of_all drafts.old) }
    requires room { sum_by (λ file. count_for file.length) (copied_locals old.now plans.now)
        ≤ length (free_of files.old) }
    ensures added { OnOk result
        (AddCopies drafts.old drafts.new (copied_locals old.now plans.now)) }
    ensures held { OnOk result ((room : Room) (contents : List (List ℕ)) → D.tells disk.new
        → store_base files.old ≡ blocks_start room.half
        → ShareNone (held_for_locals old.now) (free_of files.old)
        → HasLocals room (D.seen disk.old) old.now
        → AreHeld (store_base files.old) drafts.old contents (D.seen disk.old)
        → AreHeld (store_base files.old) drafts.new
        (contents ++ map (data_bytes room (D.seen disk.old)) (copied_locals old.now plans.now))
        (D.seen disk.new)) }
    ensures lack { IfErr result IsPlainLack }
    ensures works { Works D.Disk drafts.old drafts.new files.old files.new disk.old disk.new
        (sum_by (λ file. file.length) (copied_locals old.now plans.now))
        (result ≡ Err by.DiskFault) }
{
    for plan in plans {
        if let LocalPlan::Copy { from, .. } = plan {
            let Some(file) = find(old, from) else {
                unreachable!();
            };
            if let Err(lack) = copy_one(alloc, disk, files, drafts, file) {
                return Err(lack);
            }
        }
    }
    Ok(())
}

// ---- the data files of the new view

// A copy of an old data file, under a name, that stands in a draft.
fn copied(
    alloc: Global,
    old: &[LocalFile],
    from: &Name,
    to: &Name,
    draft: &Draft,
) -> Result<LocalFile, Reply>
    requires there { IsSome (local_named from.now old.now) }
    ensures made { IfOk result (λ file. file ≡ record {
      name = to.now;
      length = length_in (local_named from.now old.now);
      held = draft_blocks draft.now;
    }) }
    ensures memory { IfErr result (λ reply. reply ≡ Memory) }
{
    let Some(file) = find(old, from) else {
        unreachable!();
    };
    match draft.blocks().copy(alloc) {
        Ok(held) => data_file(alloc, to, file.length, held),
        Err(CopyFault::Memory) => Err(Reply::Memory),
    }
}

// Takes the data file of that name out of those that were fetched.
fn take_fetched(fetched: &mut Vec<LocalFile>, name: &Name) -> LocalFile
    requires there { IsSome (local_named name.now fetched.old.items) }
    ensures taken { result ≡ fresh_local name.now (local_named name.now fetched.old.items) }
    ensures blocks { IsPermutation (held_for_locals fetched.old.items)
        (result.held ++ held_for_locals fetched.new.items) }
    ensures others { (other : List ℕ) → other ≢ name.now
        → local_named other fetched.new.items ≡ local_named other fetched.old.items }
{
    for place in 0..fetched.len() {
        if is_named(&fetched[place], name) {
            return fetched.remove(place);
        }
    }
    unreachable!()
}

// The data files of a new view, and those of the fetched ones that it does not have.
#[derive(Drop)]
pub(crate) struct NewLocals {
    pub(crate) locals: List<LocalFile>,
    pub(crate) left: Vec<LocalFile>,
}

// The data files that plans make of those that were fetched, and of the copies of old ones that
// stand in these drafts. The names of the plans differ.
pub(crate) fn new_locals(
    alloc: Global,
    old: &[LocalFile],
    fetched: Vec<LocalFile>,
    copies: &[Draft],
    plans: &[LocalPlan],
) -> Result<NewLocals, Reply>
    requires there { All (IsThere old.now fetched.items) plans.now }
    requires rise { Rise plans.now }
    requires copies { length copies.now ≡ count_by is_copy plans.now }
    ensures made { IfOk result (λ made. made.locals
        ≡ made_locals old.now fetched.items copies.now plans.now) }
    ensures blocks { IfOk result (λ made.
        KeepBlocks fetched.items copies.now made.locals made.left.items) }
    ensures memory { IfErr result (λ reply. reply ≡ Memory) }
{
    let mut left = fetched;
    let mut locals = Vec::new(alloc);
    let mut next = 0;
    for plan in plans {
        let file = match plan {
            LocalPlan::Copy { from, to } => {
                next += 1;
                match copied(alloc, old, from, to, &copies[next - 1]) {
                    Ok(file) => file,
                    Err(reply) => return Err(reply),
                }
            }
            LocalPlan::Fresh { name } => take_fetched(&mut left, name),
        };
        if let Err(AllocFailed { .. }) = locals.push(file) {
            return Err(Reply::Memory);
        }
    }
    Ok(NewLocals {
        locals: List::from_vec(locals),
        left,
    })
}
