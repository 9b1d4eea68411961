// What a publish will write.
ghost use Rattle.std.specs.Prelude.{◌≡◌, [], None, Ok, Err, string_bytes, nat_lt, option_map, if◌then◌else◌};
ghost use Rattle.publish_plan.specs.Early.{early_of};
ghost use Rattle.publish_plan.specs.Marks.{is_among};
ghost use Rattle.publish_plan.specs.Outcome.{Fails, Gives, unless};
ghost use Rattle.publish_plan.specs.Places.{lies_below, has_front};
ghost use Rattle.publish_plan.specs.Plans as spec;
ghost use Rattle.publish_plan.specs.Seen.{row, is_fresh};
ghost use Rattle.std.specs.List.{list_any};
ghost use Rattle.std.specs.Prelude.{find, count_by, option_copied};

use crate::files::planned_files;
use crate::marked::Marked;
use crate::places::{deployment_name, front_of, has_front, name_from};
use crate::written::Written;
use crate::{Options, PlanFault, PlannedFile, PublishPlan};
use small_types::limits::{FILE_COUNT_LIMIT, LOCAL_COUNT_LIMIT};
use small_types::{Duplicate, Limit, List, Name};
use std::alloc::Global;

// The first name that has the front.
fn first_of<'a>(front: &[u8], names: &'a [Name]) -> Option<&'a Name>
    ensures { option_copied result ≡ find (has_front front.now) names.now }
{
    names.iter().find(|name| has_front(front, name))
}

// Whether some name has the front.
fn some_has_front(front: &[u8], names: &[Name]) -> bool
    ensures { result ≡ list_any (has_front front.now) names.now }
{
    names.iter().any(|name| has_front(front, name))
}

// No file stands in the folder, or `VersionExists` for the first that does.
fn check_standing(alloc: Global, folder: &str, names: &[Name]) -> Result<(), PlanFault>
    ensures { let first = find (lies_below folder.now) names.now in
        Gives result (unless (option_map PlanFault.VersionExists first)) }
{
    let front = front_of(alloc, folder)?;
    match first_of(front.as_bytes(), names) {
        Some(name) => Err(PlanFault::VersionExists {
            file: name.copy(alloc)?,
        }),
        None => Ok(()),
    }
}

// Some name has the front, or `EmptyInput`.
fn check_input(front: &[u8], names: &[Name]) -> Result<(), PlanFault>
    ensures { result
        ≡ (if list_any (has_front front.now) names.now then Ok tt else Err PlanFault.EmptyInput) }
{
    if some_has_front(front, names) {
        return Ok(());
    }
    Err(PlanFault::EmptyInput)
}

// How many data files there are.
fn count_data(files: &[PlannedFile]) -> usize
    ensures { result ≡ count_by spec.is_local_file files.now }
{
    files.iter().filter(|file| file.local).count()
}

// There are not too many files, or `TooMany`.
fn check_count(files: &[PlannedFile]) -> Result<(), PlanFault>
    ensures { result ≡ spec.few files.now }
{
    if files.len() > FILE_COUNT_LIMIT {
        return Err(PlanFault::TooMany { what: Limit::Files });
    }
    if count_data(files) > LOCAL_COUNT_LIMIT {
        return Err(PlanFault::TooMany {
            what: Limit::Locals,
        });
    }
    Ok(())
}

// The file that is started is published and no mark names it, or `NoEntryPoint`.
fn check_entry(marked: &Marked, entry: &Name) -> Result<(), PlanFault>
    ensures { let seen = row marked.now.table entry.now in
        result ≡ (if is_fresh seen then Ok tt else Err PlanFault.NoEntryPoint) }
{
    match marked.get(entry) {
        Some(seen) if !seen.named => Ok(()),
        _ => Err(PlanFault::NoEntryPoint),
    }
}

// No mark is bad, or `BadMark` for the first that is.
fn check_marks(marked: Marked) -> Result<(), PlanFault>
    ensures { result ≡ unless (option_map PlanFault.BadMark marked.bad) }
{
    let Marked { bad, .. } = marked;
    match bad {
        Some(file) => Err(PlanFault::BadMark { file }),
        None => Ok(()),
    }
}

/// What a publish with these options will write, over a folder with these names, or why nothing.
/// The files are planned in the order of the names.
///
/// # Errors
///
/// In this order: `VersionExists` with the first of the names in the folder of the version;
/// `EmptyInput` where no name is in the folder that is published; `BadInput` with the first file,
/// by its name below that folder, whose first part is `.pre`, whose written name has more than 240
/// bytes, which a mark makes a data file though its name has more than 235 bytes, or whose written
/// name is that of the application manifest; `TooMany` with `Files` for more than 16,384 files, and
/// then with `Locals` for more than 256 data files; `NoEntryPoint` where the file that is started
/// is none of the files, or has a mark; `BadMark` with the file of the first mark that names none
/// of the files, or one that an earlier mark named. `Memory` may come at any options and names.
pub fn plan(alloc: Global, options: &Options, names: &[Name]) -> Result<PublishPlan, PlanFault>
    requires { early_of options.now ≡ None }
    ensures { Gives result (spec.plan_of options.now names.now) }
{
    let written = Written::new(alloc, options)?;
    let front = written.front.as_bytes();
    check_standing(alloc, written.folder.as_str(), names)?;
    check_input(front, names)?;
    let marked = Marked::new(alloc, front, names, options.marks.as_slice())?;
    let files = planned_files(alloc, options, &written, &marked, names)?;
    check_count(&files)?;
    check_entry(&marked, &options.entry)?;
    check_marks(marked)?;
    let manifest = name_from(alloc, written.manifest.as_bytes())?;
    let deployment = deployment_name(alloc, options)?;
    let deployment = name_from(alloc, deployment.as_bytes())?;
    Ok(PublishPlan {
        files: List::from_vec(files),
        manifest,
        deployment,
    })
}
