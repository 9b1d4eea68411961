// The files that will be written.
ghost use Rattle.std.specs.Prelude.{◌≡◌, true, false, None, Some, IfOk, MatchResult, find, map, string_bytes, option_map, if◌then◌else◌};
ghost use Rattle.std.specs.Prelude.{◌||◌, ◌&&◌, nat_lt, length};
ghost use Rattle.small_types.specs.Name.{IsName};
ghost use Rattle.manifests.specs.Applications.{is_below_pre};
ghost use Rattle.publish_plan.specs.Early.{early_of};
ghost use Rattle.publish_plan.specs.Outcome.{Fails, Gives};
ghost use Rattle.publish_plan.specs.Places.{all_behind, behind, has_front, within};
ghost use Rattle.publish_plan.specs.Plans as spec;
ghost use Rattle.publish_plan.specs.Seen.{row, seen_of, Knows};
ghost use Rattle.publish_plan.specs.Written.{AreWritten, is_unfit};

use crate::marked::{Marked, Seen};
use crate::places::{has_front, name_behind, name_from, target_name};
use crate::written::Written;
use crate::{Options, PlanFault, PlannedFile};
use small_types::limits::{LOCAL_NAME_LIMIT, NAME_LIMIT};
use small_types::{Duplicate, Name};
use std::alloc::Global;

// Whether the first part of the name is `.pre`.
fn is_below_pre(file: &Name) -> bool
    ensures { result ≡ is_below_pre file.now }
{
    file.is_below_pre()
}

// Whether the written name of a file is too long, or the name of a data file.
fn is_long(local: bool, file: &Name, target: &str) -> bool
    ensures { result ≡ (nat_lt NAME_LIMIT (length target.now)
        || (local && nat_lt LOCAL_NAME_LIMIT (length file.now))) }
{
    target.len() > NAME_LIMIT || (local && file.as_bytes().len() > LOCAL_NAME_LIMIT)
}

// Whether a file of this name and this written name can't be written.
fn is_unfit(manifest: &str, local: bool, file: &Name, target: &str) -> bool
    ensures { result ≡ is_unfit manifest.now local file.now target.now }
{
    is_below_pre(file) || is_long(local, file, target) || target == manifest
}

// The file as it will be written, where it can be.
fn planned_file(
    alloc: Global,
    options: &Options,
    written: &Written,
    seen: &Seen,
    source: &Name,
    file: Name,
) -> Result<PlannedFile, PlanFault>
    requires early { early_of options.now ≡ None }
    requires written { AreWritten options.now written.now }
    requires seen { seen.now ≡ seen_of options.now.marks file }
    requires name { IsName file }
    requires source { source.now ≡ within options.now.from file }
    ensures { Gives result (spec.fitting options.now file) }
{
    let target = target_name(alloc, written.folder.as_str(), options.mapped, &file)?;
    if is_unfit(
        written.manifest.as_str(),
        seen.local,
        &file,
        target.as_str(),
    ) {
        return Err(PlanFault::BadInput { file });
    }
    let target = name_from(alloc, target.as_bytes())?;
    let source = source.copy(alloc)?;
    let group = seen.group.copy(alloc)?;
    Ok(PlannedFile {
        source,
        file,
        target,
        group,
        local: seen.local,
    })
}

// The file of this name in the folder that is published, as it will be written.
fn file_of(
    alloc: Global,
    options: &Options,
    written: &Written,
    marked: &Marked,
    name: &Name,
) -> Result<PlannedFile, PlanFault>
    requires early { early_of options.now ≡ None }
    requires written { AreWritten options.now written.now }
    requires below { has_front (string_bytes written.now.front) name.now ≡ true }
    requires known { row marked.now.table (behind (string_bytes written.now.front) name.now)
        ≡ Some (seen_of options.now.marks (behind (string_bytes written.now.front) name.now)) }
    ensures { let file = behind (string_bytes written.now.front) name.now in
        Gives result (spec.fitting options.now file) }
{
    let file = name_behind(alloc, written.front.as_bytes(), name)?;
    let seen = marked.get(&file).unwrap();
    planned_file(alloc, options, written, seen, name, file)
}

/// The files of these names that stand in the folder that is published, as they will be written, or
/// `BadInput`.
pub(crate) fn planned_files(
    alloc: Global,
    options: &Options,
    written: &Written,
    marked: &Marked,
    names: &[Name],
) -> Result<Vec<PlannedFile>, PlanFault>
    requires early { early_of options.now ≡ None }
    requires written { AreWritten options.now written.now }
    requires known { let files = all_behind (string_bytes written.now.front) names.now in
        Knows marked.now.table files options.now.marks }
    ensures { let inputs = all_behind (string_bytes written.now.front) names.now in
        MatchResult result
        (λ files. (spec.fit_inputs options.now inputs ≡ Ok tt)
        × (files.items ≡ spec.planned_files options.now inputs))
        (λ e. Fails e (spec.fit_inputs options.now inputs)) }
{
    let mut files = Vec::new(alloc);
    let front = written.front.as_bytes();
    for name in names {
        if has_front(front, name) {
            files.push(file_of(alloc, options, written, marked, name)?)?;
        }
    }
    Ok(files)
}
