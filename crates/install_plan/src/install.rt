// The change that an install makes.
ghost use Rattle.std.specs.Prelude.{◌≡◌, ◌≤◌, ◌+◌, ℕ, List, [], ◌++◌, true, All, IfOk, IfErr, IsOk, OnOk, Err, Some, count_by, drop, length, map, sum_by};
ghost use Rattle.std.specs.List.Sorted.{IsPermutation};
ghost use Rattle.small_types.specs.Blocks.{count_for};
ghost use Rattle.small_types.specs.declared.limits.TheConstants.{NUMBER_LIMIT};
ghost use Rattle.file_store.specs.Stores.{AreUsed, blocks_of_all, free_of};
ghost use Rattle.line_drafts.specs.Works.{Works};
ghost use Rattle.machine.specs.declared.reply.Reply.TheVariants.{Memory};
ghost use Rattle.machine.specs.Wanted.{wanted};
ghost use Rattle.store_state.specs.declared.change.Change.TheVariants as change;
ghost use Rattle.store_state.specs.Measured.{AreMeasured, IsMeasuredLocal};
ghost use Rattle.store_state.specs.Rows.{current_row, row_locals};
ghost use Rattle.store_state.specs.Tables.{bare_row, table_shape};
ghost use Rattle.data_migration.specs.Migration.{AreApart};
ghost use Rattle.table_files.specs.Held.{held_by, held_for_contents, held_for_locals};
ghost use Rattle.install_plan.specs.declared.lack.Lack.TheVariants as by;
ghost use Rattle.install_plan.specs.declared.prepared.PreparedFiles.TheVariants as to;
ghost use Rattle.install_plan.specs.Blocks.{UsesBlocks};
ghost use Rattle.install_plan.specs.Carried.{Rise, carried_in, copied_in};
ghost use Rattle.install_plan.specs.Changes.{HasContents, installed_of, listed_at, old_locals, plan_contents, view_of};
ghost use Rattle.install_plan.specs.FetchedFiles.{ArePlaces, IsStopped, WritesAsked, blocks_needed};
ghost use Rattle.install_plan.specs.FileCosts.{IsInstallCost};
ghost use Rattle.install_plan.specs.InstallDrafts.{HasDrafted, HasFiles, drafted_contents, drafted_locals};
ghost use Rattle.install_plan.specs.Lacks.{lack_reply};
ghost use Rattle.install_plan.specs.Parts.{IsThere, copied_locals, is_copy, made_locals};
ghost use Rattle.install_plan.specs.Prepared.{IsPrepared, LeavesDisk, WritesFree};

use crate::drafted::{Drafted, finish};
use crate::fetch::fetch_wanted;
use crate::fetched_parts::{blocks_of, contents_of, parts_of};
use crate::lack::Lack;
use crate::local_plans::plans_of;
use crate::new_locals::{copy_locals, new_locals};
use crate::{InstallPlan, PreparedFiles, hear};
use data_migration::LocalPlan;
use disks::Disk;
use file_store::{Draft, FileStore};
use identity::Key;
use line_drafts::LineDrafts;
use links::Links;
use machine::{Heard, Reply};
use small_types::{Bytes, CopyFault, Duplicate, List, Room};
use std::alloc::{AllocError, Global};
use store_state::{
    Change, Content, LocalFile, StoreState, View, installs_show_the_view, shapes_are_shown,
};
use table_files::held_are_used;
use table_weight::{changed_tables_weigh, migrated_data_weigh};

// The data files of the view that is current for the key.
fn old_locals<'a>(state: &'a StoreState, key: &Key) -> &'a [LocalFile]
    ensures { result.now ≡ row_locals (current_row key.now state.now) }
{
    match state.current(key) {
        Some(view) => view.locals.as_slice(),
        None => &[],
    }
}

// The change that the plan comes to with these data files and contents: the next view, with no
// group. It takes no memory.
fn change_with(
    alloc: Global,
    state: &StoreState,
    plan: InstallPlan,
    locals: List<LocalFile>,
    contents: List<Content>,
    now: u64,
) -> Change
    ensures { result ≡ change.Install (view_of state.now plan locals) contents plan.provider now }
{
    Change::Install {
        view: View {
            number: state.next_view,
            deployment: plan.deployment,
            application: plan.application,
            base: plan.base,
            groups: List::from_vec(Vec::new(alloc)),
            locals,
        },
        contents,
        provider: plan.provider,
        now,
    }
}

// The reply once that change is made, or want of memory.
fn installed_reply(alloc: Global, state: &StoreState, plan: &InstallPlan) -> Result<Reply, Reply>
    ensures made { IfOk result (λ reply. reply ≡ installed_of state.now plan.now) }
    ensures memory { IfErr result (λ reply. reply ≡ Memory) }
{
    match plan.deployment.identity.key.copy(alloc) {
        Ok(key) => Ok(Reply::Installed {
            key,
            version: plan.deployment.identity.version,
            view: state.next_view,
        }),
        Err(CopyFault::Memory) => Err(Reply::Memory),
    }
}

// Brings the files of a plan into drafts: first those that it wants are fetched, in their order, and
// then the data files are copied that its plans carry over. There are blocks for all of them.
fn draft_files<D: Disk, L: Links>(
    alloc: Global,
    disk: &mut D,
    files: &mut FileStore,
    links: &mut L,
    drafts: &mut LineDrafts,
    plan: &InstallPlan,
    old: &[LocalFile],
    plans: &[LocalPlan],
) -> Result<(), Lack>
    requires places { ArePlaces plan.now.application.files plan.now.wanted }
    requires there { All (λ plan. is_copy plan ≡ true → IsThere old.now [] plan) plans.now }
    requires measured { All IsMeasuredLocal old.now }
    requires empty { drafts.old ≡ [] }
    requires used { AreUsed files.old (blocks_of_all drafts.old) }
    requires room { blocks_needed plan.now.application.files plan.now.wanted
        + sum_by (λ file. count_for file.length) (copied_locals old.now plans.now)
        ≤ length (free_of files.old) }
    ensures drafted { OnOk result (HasDrafted D.Disk plan.now.application.files plan.now.wanted
        old.now plans.now (L.links links.old) (L.links links.new) files.old drafts.new disk.old
        disk.new) }
    ensures stopped { IfErr result (λ lack. IsStopped plan.now.application.files plan.now.wanted
        (L.links links.old) (L.links links.new) (lack_reply lack)) }
    ensures works { (fetched most : ℕ)
        × WritesAsked plan.now.application.files plan.now.wanted (L.links links.old)
        (L.links links.new) fetched
        × (most ≤ fetched + sum_by (λ file. file.length) (copied_locals old.now plans.now))
        × Works D.Disk drafts.old drafts.new files.old files.new disk.old disk.new most
        (result ≡ Err by.DiskFault) }
{
    let listed = plan.application.files.as_slice();
    let wanted = plan.wanted.as_slice();
    if let Err(lack) = fetch_wanted(alloc, disk, files, links, drafts, listed, wanted) {
        return Err(lack);
    }
    match copy_locals(alloc, disk, files, drafts, old, plans) {
        Ok(()) => Ok(()),
        Err(lack) => Err(lack),
    }
}

// The files of the new view that come with an install: contents of program files, and data files; with
// the blocks of all drafts, and those of them that neither has.
#[derive(Drop)]
struct NewFiles {
    programs: List<Content>,
    placed: Placed,
}

#[derive(Drop)]
struct Placed {
    locals: List<LocalFile>,
    taken: List<u32>,
    unused: List<u32>,
}

// The data files that plans make of those that were fetched and of these copies, and the blocks.
fn place_data(
    alloc: Global,
    old: &[LocalFile],
    fetched: Vec<LocalFile>,
    copies: &[Draft],
    plans: &[LocalPlan],
    drafts: &LineDrafts,
) -> Result<Placed, Reply>
    requires there { All (IsThere old.now fetched.items) plans.now }
    requires rise { Rise plans.now }
    requires copies { length copies.now ≡ count_by is_copy plans.now }
    ensures made { IfOk result (λ placed. placed.locals
        ≡ made_locals old.now fetched.items copies.now plans.now) }
    ensures blocks { IfOk result (λ placed.
        IsPermutation (held_for_locals fetched.items ++ blocks_of_all copies.now)
        (held_for_locals placed.locals ++ placed.unused)) }
    ensures taken { IfOk result (λ placed. placed.taken ≡ blocks_of_all drafts.now) }
    ensures memory { IfErr result (λ reply. reply ≡ Memory) }
{
    let taken = match drafts.all_blocks(alloc) {
        Ok(taken) => taken,
        Err(AllocError) => return Err(Reply::Memory),
    };
    let made = match new_locals(alloc, old, fetched, copies, plans) {
        Ok(made) => made,
        Err(reply) => return Err(reply),
    };
    match blocks_of(alloc, made.left.as_slice()) {
        Ok(unused) => Ok(Placed {
            locals: made.locals,
            taken,
            unused,
        }),
        Err(reply) => Err(reply),
    }
}

// The files of a plan that came into these drafts: those that it wants, and then the copies.
fn new_files(
    alloc: Global,
    state: &StoreState,
    plan: &InstallPlan,
    plans: &[LocalPlan],
    drafts: &LineDrafts,
) -> Result<NewFiles, Reply>
    requires rise { Rise plans.now }
    requires places { ArePlaces plan.now.application.files plan.now.wanted }
    requires contents { HasContents state.now plan.now (drafted_contents plan.now drafts.now) }
    requires there { All (IsThere (old_locals state.now plan.now)
        (drafted_locals plan.now drafts.now)) plans.now }
    requires each { length drafts.now
        ≡ length plan.now.wanted + count_by is_copy plans.now }
    ensures contents { IfOk result (λ files. files.programs
        ≡ plan_contents plan.now (drafted_contents plan.now drafts.now)) }
    ensures made { IfOk result (λ files. files.placed.locals
        ≡ made_locals (old_locals state.now plan.now) (drafted_locals plan.now drafts.now)
        (drop (length plan.now.wanted) drafts.now) plans.now) }
    ensures taken { IfOk result (λ files. files.placed.taken ≡ blocks_of_all drafts.now) }
    ensures blocks { IfOk result (λ files. IsPermutation files.placed.taken
        ((held_for_contents files.programs ++ held_for_locals files.placed.locals)
        ++ files.placed.unused)) }
    ensures memory { IfErr result (λ reply. reply ≡ Memory) }
{
    let listed = plan.application.files.as_slice();
    let wanted = plan.wanted.as_slice();
    let all = drafts.as_slice();
    let contents = match contents_of(alloc, listed, wanted, all) {
        Ok(contents) => contents,
        Err(reply) => return Err(reply),
    };
    let parts = match parts_of(alloc, listed, wanted, contents) {
        Ok(parts) => parts,
        Err(reply) => return Err(reply),
    };
    let copies = &all[wanted.len()..];
    let old = old_locals(state, &plan.deployment.identity.key);
    match place_data(alloc, old, parts.locals, copies, plans, drafts) {
        Ok(placed) => Ok(NewFiles {
            programs: List::from_vec(parts.programs),
            placed,
        }),
        Err(reply) => Err(reply),
    }
}

// What an install takes from its plan by reference: the new files, and the reply that is then due.
#[derive(Drop)]
struct Made {
    files: NewFiles,
    reply: Reply,
}

// What a plan comes to whose files came into these drafts.
fn made_of(
    alloc: Global,
    state: &StoreState,
    plan: &InstallPlan,
    plans: &[LocalPlan],
    drafts: &LineDrafts,
) -> Result<Made, Reply>
    requires rise { Rise plans.now }
    requires places { ArePlaces plan.now.application.files plan.now.wanted }
    requires contents { HasContents state.now plan.now (drafted_contents plan.now drafts.now) }
    requires there { All (IsThere (old_locals state.now plan.now)
        (drafted_locals plan.now drafts.now)) plans.now }
    requires each { length drafts.now
        ≡ length plan.now.wanted + count_by is_copy plans.now }
    ensures contents { IfOk result (λ made. made.files.programs
        ≡ plan_contents plan.now (drafted_contents plan.now drafts.now)) }
    ensures made { IfOk result (λ made. made.files.placed.locals
        ≡ made_locals (old_locals state.now plan.now) (drafted_locals plan.now drafts.now)
        (drop (length plan.now.wanted) drafts.now) plans.now) }
    ensures taken { IfOk result (λ made. made.files.placed.taken ≡ blocks_of_all drafts.now) }
    ensures blocks { IfOk result (λ made. IsPermutation made.files.placed.taken
        ((held_for_contents made.files.programs ++ held_for_locals made.files.placed.locals)
        ++ made.files.placed.unused)) }
    ensures replied { IfOk result (λ made. made.reply ≡ installed_of state.now plan.now) }
    ensures memory { IfErr result (λ reply. reply ≡ Memory) }
{
    let files = match new_files(alloc, state, plan, plans, drafts) {
        Ok(files) => files,
        Err(reply) => return Err(reply),
    };
    match installed_reply(alloc, state, plan) {
        Ok(reply) => Ok(Made { files, reply }),
        Err(refusal) => Err(refusal),
    }
}

// Brings the files of a plan into drafts.
fn draft_install<D: Disk, L: Links>(
    alloc: Global,
    state: &StoreState,
    disk: &mut D,
    files: &mut FileStore,
    links: &mut L,
    plan: &InstallPlan,
    drafts: &mut LineDrafts,
) -> Result<Made, Lack>
    requires places { ArePlaces plan.now.application.files plan.now.wanted }
    requires wanted { listed_at plan.now.application.files plan.now.wanted
        ≡ map Some (wanted (map bare_row state.now.views) plan.now.application) }
    requires apart { AreApart (old_locals state.now plan.now) plan.now.application.files }
    requires measured { All IsMeasuredLocal (old_locals state.now plan.now) }
    requires empty { drafts.old ≡ [] }
    requires used { AreUsed files.old (blocks_of_all drafts.old) }
    requires room { blocks_needed plan.now.application.files plan.now.wanted
        + copied_in (old_locals state.now plan.now) ≤ length (free_of files.old) }
    ensures drafted { IfOk result (λ made. HasFiles D.Disk state.now plan.now (L.links links.old)
        (L.links links.new) files.old drafts.new disk.old disk.new made.files.placed.locals
        made.files.programs made.files.placed.taken made.files.placed.unused made.reply) }
    ensures stopped { IfErr result (λ lack. IsStopped plan.now.application.files plan.now.wanted
        (L.links links.old) (L.links links.new) (lack_reply lack)) }
    ensures works { (fetched most : ℕ)
        × WritesAsked plan.now.application.files plan.now.wanted (L.links links.old)
        (L.links links.new) fetched
        × (most ≤ fetched + carried_in (old_locals state.now plan.now))
        × Works D.Disk drafts.old drafts.new files.old files.new disk.old disk.new most
        (result ≡ Err by.DiskFault) }
{
    let key = &plan.deployment.identity.key;
    let plans = match plans_of(alloc, state, key, &plan.application.files) {
        Ok(plans) => plans,
        Err(reply) => return Err(Lack::Reply { reply }),
    };
    let old = old_locals(state, key);
    let plans = plans.as_slice();
    if let Err(lack) = draft_files(alloc, disk, files, links, drafts, plan, old, plans) {
        return Err(lack);
    }
    match made_of(alloc, state, plan, plans, drafts) {
        Ok(made) => Ok(made),
        Err(reply) => Err(Lack::Reply { reply }),
    }
}

// The change of a plan whose files came into drafts. It takes no memory.
fn drafted_of(
    alloc: Global,
    state: &StoreState,
    plan: InstallPlan,
    made: Result<Made, Lack>,
    now: u64,
) -> Result<Drafted, Lack>
    ensures change { IfOk made (λ m. IfOk result (λ drafted. drafted ≡ record {
      change = change.Install (view_of state.now plan m.files.placed.locals) m.files.programs
          plan.provider now;
      reply = m.reply;
      taken = m.files.placed.taken;
      unused = m.files.placed.unused;
    })) }
    ensures well { OnOk made (IsOk result) }
    ensures lacks { IfErr made (λ lack. result ≡ Err lack) }
{
    match made {
        Ok(made) => {
            let files = made.files;
            let placed = files.placed;
            Ok(Drafted {
                change: change_with(alloc, state, plan, placed.locals, files.programs, now),
                reply: made.reply,
                taken: placed.taken,
                unused: placed.unused,
            })
        }
        Err(lack) => {
            drop(plan);
            Err(lack)
        }
    }
}

/// Hears the manifests of the release at the address, judges them, and brings the files that no
/// kept view has into blocks that are free: it fetches them, and copies the data files that the
/// migration carries over. Where nothing refuses it, that is the change of the tables, which fits
/// them, and the reply that is then due. No more than a piece of a file is in memory.
pub fn prepare<D: Disk, L: Links>(
    alloc: Global,
    state: &StoreState,
    room: Room,
    files: &mut FileStore,
    disk: &mut D,
    links: &mut L,
    now: u64,
    url: &Bytes,
    heard: &mut Heard,
) -> PreparedFiles
    requires empty { heard.old.texts ≡ [] }
    requires moment { now ≤ NUMBER_LIMIT }
    requires blocks { UsesBlocks files.old room (held_by state.now) }
    requires measured { AreMeasured state.now }
    ensures prepared { IsPrepared D.Disk room state.now url.now heard.new.texts
        (L.links links.old) (L.links links.new) now files.old files.new disk.old disk.new result }
    ensures writes { (most : ℕ)
        × IsInstallCost (table_shape room state.now) heard.new.texts
        (L.links links.old) (L.links links.new) most
        × WritesFree D.Disk files.old files.new disk.old disk.new most (result ≡ to.DiskFault) }
    ensures leaves { LeavesDisk D.Disk disk.old disk.new result }
{
    let plan = match hear(alloc, state, room, links, url, heard) {
        Ok(plan) => plan,
        Err(reply) => return PreparedFiles::Reply { reply },
    };
    state.are_tables();
    held_are_used();
    shapes_are_shown();
    installs_show_the_view();
    changed_tables_weigh();
    migrated_data_weigh();
    let mut drafts = LineDrafts::new(alloc);
    let made = draft_install(alloc, state, disk, files, links, &plan, &mut drafts);
    let drafted = drafted_of(alloc, state, plan, made, now);
    finish(files, disk, drafts, drafted)
}
