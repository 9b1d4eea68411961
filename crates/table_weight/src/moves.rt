// How much the data files of a new view weigh.
ghost use Rattle.std.specs.Prelude.{◌≡◌, ◌-◌, ◌^◌, IfOk, map, min, sum_by};
ghost use Rattle.small_types.specs.declared.room.Room.{Room};
ghost use Rattle.manifests.specs.Applications.{is_below_pre};
ghost use Rattle.machine.specs.BareViews.{migrated_data};
ghost use Rattle.machine.specs.Current.{bare_data_of, bare_listed_by, current_bare};
ghost use Rattle.machine.specs.Weight.{data_weight};
ghost use Rattle.store_state.specs.Tables.{bare_local, table_shape};
ghost use Rattle.data_migration.specs.Tables.{is_missing, stays_by};
ghost use Rattle.table_weight.specs.Releases.{carried_weight, fresh_weight};

use crate::WeightFault;
use crate::weighs::weigh_data;
use data_migration::{deployed, kept_names, stays};
use identity::Key;
use manifests::FileEntry;
use small_types::Name;
use std::alloc::Global;
use std::collections::{BTreeMap, BTreeSet};
use store_state::{LocalFile, StoreState};

// The data files that a release deploys, by their names.
type Deployed<'a> = BTreeMap<&'a str, &'a FileEntry>;

// How many bytes `.pre/` has.
const ASIDE_LENGTH: u64 = 5;

// Whether the first part of the name is `.pre`.
fn is_below(name: &Name) -> bool
    ensures { result ≡ is_below_pre name.now }
{
    name.is_below_pre()
}

// What an old data file weighs in the new view; one below `.pre` is dropped.
fn weigh_carried(file: &LocalFile, before: &Deployed, after: &Deployed) -> u64
    ensures { result
        ≡ min (carried_weight (stays_by before.now after.now) file.now) (2 ^ 64 - 1) }
{
    if is_below(&file.name) {
        return 0;
    }
    let own = weigh_data(&file.name, file.length);
    if stays(before, after, &file.name) {
        return own;
    }
    own.saturating_add(ASIDE_LENGTH)
}

// How much the old data files weigh in the new view.
fn sum_carried(old: &[LocalFile], before: &Deployed, after: &Deployed) -> u64
    ensures { result
        ≡ min (sum_by (carried_weight (stays_by before.now after.now)) old.now) (2 ^ 64 - 1) }
{
    let mut total: u64 = 0;
    for file in old {
        total = total.saturating_add(weigh_carried(file, before, after));
    }
    total
}

// What a listed file weighs, where it is a data file and its name is not among those kept.
fn weigh_fresh(entry: &FileEntry, kept: &BTreeSet<&str>) -> u64
    ensures { result ≡ min (fresh_weight (is_missing kept.now) entry.now) (2 ^ 64 - 1) }
{
    if !entry.local || kept.contains(entry.name.as_str()) {
        return 0;
    }
    weigh_data(&entry.name, entry.size)
}

// How much the data files weigh that come fresh.
fn sum_fresh(files: &[FileEntry], kept: &BTreeSet<&str>) -> u64
    ensures { result
        ≡ min (sum_by (fresh_weight (is_missing kept.now)) files.now) (2 ^ 64 - 1) }
{
    let mut total: u64 = 0;
    for entry in files {
        total = total.saturating_add(weigh_fresh(entry, kept));
    }
    total
}

// How much the data files of a new view weigh, of these old ones, where the old release and the
// new one list these files.
fn weigh_migrated(
    alloc: Global,
    old: &[LocalFile],
    old_files: &[FileEntry],
    new_files: &[FileEntry],
) -> Result<u64, WeightFault>
    ensures { IfOk result (λ weight. weight ≡ min (sum_by data_weight
        (migrated_data (map bare_local old.now) old_files.now new_files.now)) (2 ^ 64 - 1)) }
{
    let before = deployed(alloc, old_files)?;
    let after = deployed(alloc, new_files)?;
    let kept = kept_names(alloc, old, &before, &after)?;
    let carried = sum_carried(old, &before, &after);
    Ok(carried.saturating_add(sum_fresh(new_files, &kept)))
}

// The same of the data files of the view that is current for the key.
pub(crate) fn weigh_moves(
    alloc: Global,
    state: &StoreState,
    key: &Key,
    files: &[FileEntry],
) -> Result<u64, WeightFault>
    ensures { IfOk result (λ weight. (room : Room) → weight ≡ min (sum_by data_weight
        (migrated_data (bare_data_of (current_bare key.now (table_shape room state.now)))
        (bare_listed_by (current_bare key.now (table_shape room state.now))) files.now))
        (2 ^ 64 - 1)) }
{
    let Some(view) = state.current(key) else {
        let none = weigh_migrated(alloc, &[], &[], files)?;
        return Ok(none);
    };
    let old = view.locals.as_slice();
    let some = weigh_migrated(alloc, old, view.application.files.as_slice(), files)?;
    Ok(some)
}
