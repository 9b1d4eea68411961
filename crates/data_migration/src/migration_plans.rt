// The plans of a new version's data files.
ghost use Rattle.std.specs.Prelude.{◌≡◌, ◌||◌, ◌++◌, ◌≤◌, ℕ, List, All, AllPairs, IfOk, OnOk, flat_map, length, map};
ghost use Rattle.std.specs.List.{list_any};
ghost use Rattle.std.specs.List.Sorted.{IsPermutation, IsSortedByKey};
ghost use Rattle.std.specs.declared.cmp.Ordering.TheVariants.{Less};
ghost use Rattle.small_types.specs.declared.limits.TheConstants.{LOCAL_NAME_LIMIT};
ghost use Rattle.identity.specs.Printed.{text_cmp};
ghost use Rattle.machine.specs.Migrated.{migrated_names};
ghost use Rattle.data_migration.specs.Migration.{AreApart, HasSource, IsMigration, IsMovable};
ghost use Rattle.data_migration.specs.declared.plan.LocalPlan.TheVariants.{Copy};
ghost use Rattle.data_migration.specs.Plans.{carried, carried_to, fresh_one, is_kept, local_names, plan_name, planned};
ghost use Rattle.data_migration.specs.Tables.{has_name, is_missing, stays_by};

use crate::deployed_table::{Deployed, deployed, stays};
use crate::names::{carried_to, is_outside};
use crate::plan::sort_plans;
use crate::{LocalPlan, MigrateFault};
use manifests::FileEntry;
use small_types::{Duplicate, List, Name};
use std::alloc::Global;
use std::collections::BTreeSet;
use store_state::LocalFile;

// Adds the name of the old data file, where it stays outside `.pre`.
fn keep<'a>(
    kept: &mut BTreeSet<&'a str>,
    file: &'a LocalFile,
    before: &Deployed,
    after: &Deployed,
) -> Result<(), MigrateFault>
    ensures { OnOk result ((name : List ℕ) → has_name kept.new name ≡ (has_name kept.old name
        || is_kept (stays_by before.now after.now) name file.now.name)) }
{
    if !is_outside(&file.name) || !stays(before, after, &file.name) {
        return Ok(());
    }
    kept.insert(file.name.as_str())?;
    Ok(())
}

/// The names of the old data files that stay outside `.pre`, by the data files of the old release
/// and of the new one. It fails only for want of memory.
pub fn kept_names<'a>(
    alloc: Global,
    old: &'a [LocalFile],
    before: &Deployed,
    after: &Deployed,
) -> Result<BTreeSet<&'a str>, MigrateFault>
    ensures { IfOk result (λ kept. (name : List ℕ) → has_name kept name
        ≡ list_any (λ file. is_kept (stays_by before.now after.now) name file.name) old.now) }
{
    let mut kept = BTreeSet::new(alloc);
    for file in old {
        keep(&mut kept, file, before, after)?;
    }
    Ok(kept)
}

// The plan that carries an old data file over.
fn carry(alloc: Global, name: &Name, stays: bool) -> Result<LocalPlan, MigrateFault>
    requires { length name.now ≤ LOCAL_NAME_LIMIT }
    ensures { IfOk result (λ plan. plan ≡ Copy name.now (carried_to stays name.now)) }
{
    let to = carried_to(alloc, name, stays)?;
    let from = name.copy(alloc)?;
    Ok(LocalPlan::Copy { from, to })
}

// Adds the plan of an old data file, where it is outside `.pre`.
fn add_old(
    alloc: Global,
    plans: &mut Vec<LocalPlan>,
    file: &LocalFile,
    before: &Deployed,
    after: &Deployed,
) -> Result<(), MigrateFault>
    requires { IsMovable file.now }
    ensures { OnOk result (plans.new.items ≡ plans.old.items
        ++ carried (stays_by before.now after.now) file.now.name) }
{
    if !is_outside(&file.name) {
        return Ok(());
    }
    let plan = carry(alloc, &file.name, stays(before, after, &file.name))?;
    plans.push(plan)?;
    Ok(())
}

// The plans of the old data files, in their order.
fn carry_all(
    alloc: Global,
    old: &[LocalFile],
    before: &Deployed,
    after: &Deployed,
) -> Result<Vec<LocalPlan>, MigrateFault>
    requires { All IsMovable old.now }
    ensures { IfOk result (λ plans. plans.items
        ≡ flat_map (λ file. carried (stays_by before.now after.now) file.name) old.now) }
{
    let mut plans = Vec::new(alloc);
    for file in old {
        add_old(alloc, &mut plans, file, before, after)?;
    }
    Ok(plans)
}

// Adds the plan of a listed file, where it is a data file and its name is not among those kept.
fn add_new(
    alloc: Global,
    plans: &mut Vec<LocalPlan>,
    entry: &FileEntry,
    kept: &BTreeSet<&str>,
) -> Result<(), MigrateFault>
    ensures { OnOk result (plans.new.items ≡ plans.old.items
        ++ fresh_one (is_missing kept.now) entry.now) }
{
    if !entry.local || kept.contains(entry.name.as_str()) {
        return Ok(());
    }
    let name = entry.name.copy(alloc)?;
    plans.push(LocalPlan::Fresh { name })?;
    Ok(())
}

// Adds the plans of listed files, in their order.
fn add_fresh(
    alloc: Global,
    plans: &mut Vec<LocalPlan>,
    files: &[FileEntry],
    kept: &BTreeSet<&str>,
) -> Result<(), MigrateFault>
    ensures { OnOk result (plans.new.items ≡ plans.old.items
        ++ flat_map (fresh_one (is_missing kept.now)) files.now) }
{
    for entry in files {
        add_new(alloc, plans, entry, kept)?;
    }
    Ok(())
}

// The plans, in no order.
fn plans_of(
    alloc: Global,
    old: &[LocalFile],
    old_files: &[FileEntry],
    new_files: &[FileEntry],
) -> Result<Vec<LocalPlan>, MigrateFault>
    requires { All IsMovable old.now }
    ensures { IfOk result (λ plans. plans.items ≡ planned old.now old_files.now new_files.now) }
{
    let before = deployed(alloc, old_files)?;
    let after = deployed(alloc, new_files)?;
    let kept = kept_names(alloc, old, &before, &after)?;
    let mut plans = carry_all(alloc, old, &before, &after)?;
    add_fresh(alloc, &mut plans, new_files, &kept)?;
    Ok(plans)
}

/// The plans of the data files of a new version, in order of their names: of its old data files,
/// and of the files that the old release and the new one list.
///
/// - An old data file below `.pre` is dropped.
/// - An old data file that the new release does not deploy is copied.
/// - An old data file that both releases deploy with equal size and digests is copied.
/// - Any other old data file that the new release deploys is copied to `.pre/` and its name, and
///   the deployed one is fresh.
/// - A deployed data file without an old one of its name is fresh.
///
/// So the listed digests decide, never the bytes that the old files have. The name of an old file
/// that is not below `.pre` has at most 235 bytes. What the plans make of bytes is `Migrated`, where
/// the names of the old files differ, the names of the data files that the new release deploys
/// differ, and none of these is below `.pre`. It fails only for want of memory.
pub fn migrate(
    alloc: Global,
    old: &List<LocalFile>,
    old_files: &List<FileEntry>,
    new_files: &List<FileEntry>,
) -> Result<List<LocalPlan>, MigrateFault>
    requires { All IsMovable old.now }
    ensures migrated { IfOk result (IsMigration old.now old_files.now new_files.now) }
    ensures names { IfOk result (λ plans. IsPermutation
        (migrated_names (local_names old.now) old_files.now new_files.now) (map plan_name plans)) }
    ensures order { IfOk result (IsSortedByKey plan_name text_cmp) }
    ensures once { IfOk result (λ plans. AreApart old.now new_files.now
        → AllPairs (λ p q. text_cmp (plan_name p) (plan_name q) ≡ Less) plans) }
    ensures sources { IfOk result (All (HasSource old.now new_files.now)) }
    ensures planned { IfOk result
        (IsPermutation (planned old.now old_files.now new_files.now)) }
{
    let mut plans = plans_of(
        alloc,
        old.as_slice(),
        old_files.as_slice(),
        new_files.as_slice(),
    )?;
    sort_plans(&mut plans);
    Ok(List::from_vec(plans))
}
