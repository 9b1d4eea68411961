// The change that a group makes.
ghost use Rattle.std.specs.Prelude.{◌≡◌, ◌≢◌, ◌<◌, ◌≤◌, ◌^◌, ◌++◌, ℕ, List, [], All, IfErr, IfOk, Err, Some, length, map, slice_get};
ghost use Rattle.std.specs.List.Sorted.{IsPermutation};
ghost use Rattle.file_store.specs.Stores.{blocks_of_all, free_of, store_base};
ghost use Rattle.line_drafts.specs.Held.{AreHeld};
ghost use Rattle.line_drafts.specs.Works.{Works};
ghost use Rattle.machine.specs.declared.reply.Reply.TheVariants as says;
ghost use Rattle.machine.specs.Groups.{group_files};
ghost use Rattle.manifests.specs.declared.facts.FileEntry.{FileEntry};
ghost use Rattle.store_state.specs.declared.change.Change.TheVariants as change;
ghost use Rattle.store_state.specs.Measured.{AreMeasured};
ghost use Rattle.store_state.specs.Rows.{row_at};
ghost use Rattle.store_state.specs.Tables.{table_shape};
ghost use Rattle.table_files.specs.Freed.{brought};
ghost use Rattle.table_files.specs.Held.{held_by};
ghost use Rattle.install_plan.specs.declared.lack.Lack.TheVariants as by;
ghost use Rattle.install_plan.specs.declared.prepared.PreparedFiles.TheVariants as to;
ghost use Rattle.install_plan.specs.Blocks.{UsesBlocks};
ghost use Rattle.install_plan.specs.Changes.{contents_for, listed_at};
ghost use Rattle.install_plan.specs.Drafted.{AreSized};
ghost use Rattle.install_plan.specs.FetchedFiles.{ArePlaces, HasFetched, IsStopped, WritesAsked, blocks_needed};
ghost use Rattle.install_plan.specs.FileCosts.{IsGroupCost};
ghost use Rattle.install_plan.specs.GroupReady.{AreLacking, IsNoFiles, IsUnasked, group_reply, lacking, need_of, space_checks, ungrouped};
ghost use Rattle.install_plan.specs.Judges.{Judges};
ghost use Rattle.install_plan.specs.Lacks.{lack_reply};
ghost use Rattle.install_plan.specs.Prepared.{IsGroupPrepared, LeavesDisk, WritesFree};

use crate::drafted::{Drafted, finish};
use crate::fetch::fetch_wanted;
use crate::fetched_parts::contents_of;
use crate::lack::Lack;
use crate::release::{judge_room, wants};
use crate::{PreparedFiles, WantedFile};
use disks::Disk;
use file_groups::{GroupFault, plan};
use file_store::FileStore;
use line_drafts::LineDrafts;
use links::Links;
use machine::Reply;
use manifests::FileEntry;
use small_types::{CopyFault, Duplicate, List, Room, Text};
use std::alloc::{AllocError, AllocFailed, Global};
use store_state::{Change, StoreState, View, groups_show_the_files};
use table_files::held_are_used;
use table_weight::{changed_tables_weigh, table_full, weight_with_group};

// The reply to a group that has no plan.
fn group_reply(fault: GroupFault) -> Reply
    ensures { result ≡ group_reply fault }
{
    match fault {
        GroupFault::NoGroup => Reply::NoGroup,
        GroupFault::Memory => Reply::Memory,
    }
}

// The files without their group: so they are wanted as those that each view has.
fn without_group(alloc: Global, files: List<FileEntry>) -> Result<List<FileEntry>, Reply>
    ensures files { IfOk result (λ made. made ≡ map ungrouped files) }
    ensures memory { IfErr result (λ reply. reply ≡ says.Memory) }
{
    let mut made = Vec::new(alloc);
    for file in files.into_vec() {
        let mut file = file;
        file.group = None;
        if let Err(AllocFailed { .. }) = made.push(file) {
            return Err(Reply::Memory);
        }
    }
    Ok(List::from_vec(made))
}

// The files of the group that the application of the view lists, without their group.
fn files_of(alloc: Global, view: &View, group: &Text) -> Result<List<FileEntry>, Reply>
    ensures files { IfOk result (λ files. files
        ≡ map ungrouped (group_files group.now view.now.application)) }
    ensures some { IfOk result (λ files. ◌≢◌ {A = List FileEntry}
        (group_files group.now view.now.application) []) }
    ensures refused { IfErr result (IsNoFiles group.now view.now.application) }
{
    let files = match plan(alloc, view, group) {
        Ok(files) => files,
        Err(fault) => return Err(group_reply(fault)),
    };
    match without_group(alloc, files) {
        Ok(files) => Ok(files),
        Err(reply) => Err(reply),
    }
}

// Whether there are as many blocks, and whether a half of the journal has room for the tables once
// the group stands in the view. The files at the places are the wanted ones of the group. A half of
// 0, which no journal has, has room for any tables.
fn judge_space(
    state: &StoreState,
    room: Room,
    view: &View,
    group: &Text,
    files: &[FileEntry],
    places: &[usize],
    need: u64,
) -> Result<(), Reply>
    requires kept { row_at view.now.number state.now.views ≡ Some view.now }
    requires files { files.now ≡ map ungrouped (group_files group.now view.now.application) }
    requires places { map (slice_get files.now) places.now
        ≡ map Some (lacking state.now files.now) }
    requires need { need ≡ need_of state.now files.now }
    ensures { Judges (space_checks room state.now view.now group.now files.now) result }
{
    if let Err(reply) = judge_room(state, room, need) {
        return Err(reply);
    }
    if room.half == 0 {
        return Ok(());
    }
    let weight = weight_with_group(state, view, group, files, places);
    match table_full(room, weight) {
        Some(reply) => Err(reply),
        None => Ok(()),
    }
}

// Which of the files of the group no kept view has, where there is room for them.
fn lacking_files(
    alloc: Global,
    state: &StoreState,
    room: Room,
    view: &View,
    group: &Text,
    files: &[FileEntry],
) -> Result<List<WantedFile>, Reply>
    requires sized { All (λ entry. entry.size < 2 ^ 61) files.now }
    requires kept { row_at view.now.number state.now.views ≡ Some view.now }
    requires files { files.now ≡ map ungrouped (group_files group.now view.now.application) }
    ensures lacking { IfOk result (AreLacking room state.now view.now group.now files.now) }
    ensures unasked { IfErr result (IsUnasked room state.now view.now group.now files.now) }
{
    let wants = match wants(alloc, state, &view.base, view.deployment.mapped, files) {
        Ok(wants) => wants,
        Err(reply) => return Err(reply),
    };
    let places = wants.places.as_slice();
    if let Err(reply) = judge_space(state, room, view, group, files, places, wants.need) {
        return Err(reply);
    }
    Ok(wants.files)
}

// The change of a group of the view whose lacking files came into these drafts.
fn drafted_group(
    alloc: Global,
    view: u64,
    group: &Text,
    files: &[FileEntry],
    wanted: &[WantedFile],
    drafts: &LineDrafts,
    count: u64,
) -> Result<Drafted, Reply>
    requires each { length drafts.now ≡ length wanted.now }
    requires within { All (λ file. file.place < length files.now) wanted.now }
    ensures change { IfOk result (λ drafted. drafted.change ≡ change.Group view group.now
        (contents_for (listed_at files.now wanted.now) drafts.now)) }
    ensures taken { IfOk result (λ drafted. drafted.taken ≡ blocks_of_all drafts.now) }
    ensures blocks { IfOk result (λ drafted.
        IsPermutation drafted.taken (brought drafted.change ++ drafted.unused)) }
    ensures replied { IfOk result (λ drafted. drafted.reply ≡ says.Group count) }
    ensures memory { IfErr result (λ reply. reply ≡ says.Memory) }
{
    let contents = match contents_of(alloc, files, wanted, drafts.as_slice()) {
        Ok(contents) => contents,
        Err(reply) => return Err(reply),
    };
    let taken = match drafts.all_blocks(alloc) {
        Ok(taken) => taken,
        Err(AllocError) => return Err(Reply::Memory),
    };
    let group = match group.copy(alloc) {
        Ok(group) => group,
        Err(CopyFault::Memory) => return Err(Reply::Memory),
    };
    Ok(Drafted {
        change: Change::Group {
            view,
            group,
            contents,
        },
        reply: Reply::Group { files: count },
        taken,
        unused: List::from_vec(Vec::new(alloc)),
    })
}

// Fetches the lacking files of a group into drafts, and makes its change.
fn draft_group<D: Disk, L: Links>(
    alloc: Global,
    disk: &mut D,
    files: &mut FileStore,
    links: &mut L,
    view: &View,
    group: &Text,
    listed: &[FileEntry],
    wanted: &[WantedFile],
    drafts: &mut LineDrafts,
) -> Result<Drafted, Lack>
    requires places { ArePlaces listed.now wanted.now }
    requires empty { drafts.old ≡ [] }
    requires room { blocks_needed listed.now wanted.now ≤ length (free_of files.old) }
    ensures fetched { IfOk result (λ drafted. (gave : List (List ℕ))
        × HasFetched listed.now wanted.now (L.links links.old) (L.links links.new) gave
        × AreSized drafts.new gave
        × AreHeld (store_base files.old) drafts.new gave (D.seen disk.new)
        × (drafted.change ≡ change.Group view.now.number group.now
        (contents_for (listed_at listed.now wanted.now) drafts.new))
        × (drafted.reply ≡ says.Group (length listed.now))
        × (drafted.taken ≡ blocks_of_all drafts.new)
        × IsPermutation drafted.taken (brought drafted.change ++ drafted.unused)) }
    ensures stopped { IfErr result (λ lack. IsStopped listed.now wanted.now
        (L.links links.old) (L.links links.new) (lack_reply lack)) }
    ensures works { (most : ℕ)
        × WritesAsked listed.now wanted.now (L.links links.old) (L.links links.new) most
        × Works D.Disk drafts.old drafts.new files.old files.new disk.old disk.new most
        (result ≡ Err by.DiskFault) }
{
    if let Err(lack) = fetch_wanted(alloc, disk, files, links, drafts, listed, wanted) {
        return Err(lack);
    }
    let count = listed.len() as u64;
    match drafted_group(alloc, view.number, group, listed, wanted, drafts, count) {
        Ok(drafted) => Ok(drafted),
        Err(reply) => Err(Lack::Reply { reply }),
    }
}

/// Fetches the files of the group whose contents no kept view has into blocks that are free. It comes
/// to the change of the tables by which they come to the leased view, and the reply that is then due;
/// or to the reply alone, also where the group stands already. No more than a piece of a file is in
/// memory.
pub fn prepare_group<D: Disk, L: Links>(
    alloc: Global,
    state: &StoreState,
    room: Room,
    files: &mut FileStore,
    disk: &mut D,
    links: &mut L,
    lease: u64,
    group: &Text,
) -> PreparedFiles
    requires blocks { UsesBlocks files.old room (held_by state.now) }
    requires measured { AreMeasured state.now }
    ensures prepared { IsGroupPrepared D.Disk room state.now lease group.now (L.links links.old)
        (L.links links.new) files.old files.new disk.new result }
    ensures writes { (most : ℕ)
        × IsGroupCost lease group.now (table_shape room state.now)
        (L.links links.old) (L.links links.new) most
        × WritesFree D.Disk files.old files.new disk.old disk.new most (result ≡ to.DiskFault) }
    ensures leaves { LeavesDisk D.Disk disk.old disk.new result }
{
    let Some(view) = state.leased(lease) else {
        return PreparedFiles::Reply {
            reply: Reply::NoLease,
        };
    };
    let listed = match files_of(alloc, view, group) {
        Ok(listed) => listed,
        Err(reply) => return PreparedFiles::Reply { reply },
    };
    let listed = listed.as_slice();
    if view.has_group(group) {
        return PreparedFiles::Reply {
            reply: Reply::Group {
                files: listed.len() as u64,
            },
        };
    }
    state.are_tables();
    let wanted = match lacking_files(alloc, state, room, view, group, listed) {
        Ok(wanted) => wanted,
        Err(reply) => return PreparedFiles::Reply { reply },
    };
    groups_show_the_files();
    changed_tables_weigh();
    held_are_used();
    let wanted = wanted.as_slice();
    let mut drafts = LineDrafts::new(alloc);
    let drafted = draft_group(
        alloc,
        disk,
        files,
        links,
        view,
        group,
        listed,
        wanted,
        &mut drafts,
    );
    finish(files, disk, drafts, drafted)
}
