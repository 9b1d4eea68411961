// Which data files a new view has, and the blocks of those that it carries over.
ghost use Rattle.std.specs.Prelude.{◌≡◌, ◌↔◌, ◌<◌, ◌≤◌, ◌^◌, ℕ, IfErr, IfOk, IsTrue, None, count_by, not, if◌then◌else◌};
ghost use Rattle.small_types.specs.declared.room.Room.{Room};
ghost use Rattle.small_types.specs.declared.limits.TheConstants as limits;
ghost use Rattle.manifests.specs.Applications.{is_below_pre};
ghost use Rattle.machine.specs.Current.{bare_data_of, current_bare};
ghost use Rattle.machine.specs.Wanted.{copied_need};
ghost use Rattle.store_state.specs.Locals.{outside_locals};
ghost use Rattle.store_state.specs.Rows.{current_row};
ghost use Rattle.store_state.specs.Tables.{table_shape};
ghost use Rattle.data_migration.specs.Plans.{plan_name};
ghost use Rattle.install_plan.specs.Carried.{ArePlans, copied_blocks_of, copied_in};
ghost use Rattle.install_plan.specs.Judges.{Judges, local_checks};

use crate::wanted::blocks_of;
use data_migration::{LocalPlan, MigrateFault, migrate};
use identity::Key;
use machine::Reply;
use manifests::{Application, Deployment, FileEntry};
use small_types::limits::LOCAL_COUNT_LIMIT;
use small_types::{Limit, List, Name};
use std::alloc::Global;
use store_state::{LocalFile, StoreState, View};

// The plans where no version was there.
fn first_plans(alloc: Global, files: &List<FileEntry>) -> Result<List<LocalPlan>, Reply>
    ensures plans { IfOk result (ArePlans None files.now) }
    ensures memory { IfErr result (λ reply. reply ≡ Reply.Memory) }
{
    let old = List::from_vec(Vec::new(alloc));
    let old_files = List::from_vec(Vec::new(alloc));
    match migrate(alloc, &old, &old_files, files) {
        Ok(plans) => Ok(plans),
        Err(MigrateFault::Memory) => Err(Reply::Memory),
    }
}

// The plans of the data files of the new view, in order of their names, where its application lists
// these files.
pub(crate) fn plans_of(
    alloc: Global,
    state: &StoreState,
    key: &Key,
    files: &List<FileEntry>,
) -> Result<List<LocalPlan>, Reply>
    ensures plans { IfOk result (ArePlans (current_row key.now state.now) files.now) }
    ensures memory { IfErr result (λ reply. reply ≡ Reply.Memory) }
{
    state.are_tables();
    let Some(view) = state.current(key) else {
        return first_plans(alloc, files);
    };
    match migrate(alloc, &view.locals, &view.application.files, files) {
        Ok(plans) => Ok(plans),
        Err(MigrateFault::Memory) => Err(Reply::Memory),
    }
}

// Whether the name is outside `.pre`.
fn lies_outside(name: &Name) -> bool
    ensures { result ≡ not (is_below_pre name.now) }
{
    !name.is_below_pre()
}

// Whether the data file is outside `.pre`.
fn is_outside(plan: &LocalPlan) -> bool
    ensures { result ≡ not (is_below_pre (plan_name plan.now)) }
{
    lies_outside(plan.name())
}

// How many of the data files are outside `.pre`.
fn count_outside(plans: &[LocalPlan]) -> usize
    ensures { result ≡ count_by (λ plan. not (is_below_pre (plan_name plan))) plans.now }
{
    plans.iter().filter(|plan| is_outside(plan)).count()
}

// Whether more of the data files are outside `.pre` than a view may have.
fn are_many(plans: &[LocalPlan]) -> bool
    ensures { IsTrue result ↔ limits.LOCAL_COUNT_LIMIT
        < count_by (λ plan. not (is_below_pre (plan_name plan))) plans.now }
{
    count_outside(plans) > LOCAL_COUNT_LIMIT
}

// Whether there is a place for the data files of the new view.
pub(crate) fn judge_locals(
    alloc: Global,
    state: &StoreState,
    d: &Deployment,
    a: &Application,
) -> Result<(), Reply>
    ensures { (room : Room)
        → Judges (local_checks (table_shape room state.now) d.now a.now) result }
{
    let plans = match plans_of(alloc, state, &d.identity.key, &a.files) {
        Ok(plans) => plans,
        Err(reply) => return Err(reply),
    };
    if are_many(plans.as_slice()) {
        return Err(Reply::TooMany {
            what: Limit::Locals,
            limit: LOCAL_COUNT_LIMIT as u64,
        });
    }
    Ok(())
}

// The blocks of the data file, where it is carried over.
fn copied_blocks_of(file: &LocalFile) -> u64
    ensures value { result ≡ copied_blocks_of file.now }
    ensures few { result ≤ (if not (is_below_pre file.now.name) then 2 ^ 52 else 0) }
{
    if lies_outside(&file.name) {
        return blocks_of(file.length);
    }
    0
}

// The blocks of those of the data files that are carried over. So few are that a number tells them.
fn copied_in(files: &[LocalFile]) -> u64
    requires few { outside_locals files.now ≤ limits.LOCAL_COUNT_LIMIT }
    ensures sum { result ≡ copied_in files.now }
    ensures few { result ≤ 2 ^ 60 }
{
    let mut sum: u64 = 0;
    for file in files {
        sum += copied_blocks_of(file);
    }
    sum
}

// The blocks of the data files that are carried over from the view that is current for the key.
pub(crate) fn copied_blocks(state: &StoreState, key: &Key) -> u64
    ensures sum { (room : Room) → result
        ≡ copied_need (bare_data_of (current_bare key.now (table_shape room state.now))) }
    ensures few { result ≤ 2 ^ 60 }
{
    state.are_tables();
    match state.current(key) {
        Some(view) => copied_in(view.locals.as_slice()),
        None => 0,
    }
}
