// A publish, and what it answers.
ghost use Rattle.std.specs.Prelude.{◌≡◌, ℕ, List, All, map, None, IfOk, IfErr, OnOk, OnErr};
ghost use Rattle.std.specs.Cmp.Lexicographic.{slice_cmp};
ghost use Rattle.std.specs.List.Sorted.{IsStrictlySortedBy};
ghost use Rattle.std.specs.Ordering.{nat_cmp};
ghost use Rattle.folders.specs.declared.answer.FolderAnswer.{FolderAnswer};
ghost use Rattle.folders.specs.Files.{IsNames};
ghost use Rattle.publish_plan.specs.Early.{early_of};
ghost use Rattle.publisher.specs.declared.fault.PublishFault.TheVariants.{ReadFault};
ghost use Rattle.publisher.specs.Changes.{IsLate};
ghost use Rattle.publisher.specs.Entries.{AreEntries};
ghost use Rattle.publisher.specs.Faults.{FaultsCounted, IsDevice};
ghost use Rattle.publisher.specs.Options.{IsPublishable};
ghost use Rattle.publisher.specs.Publication.{copy_in, entry_in, published_files};
ghost use Rattle.publisher.specs.Published.{IsAnswer, IsPublish, PublishesFiles};
ghost use Rattle.publisher.specs.Puts.{AreApart, IsNewPlan, PutsEach, PutsSome};
ghost use Rattle.publisher.specs.Readings.{IsSourced, ReadsChange, ReadsEach};

use crate::PublishFault;
use crate::copies::{copy_files, put_file, put_new};
use crate::entries::read_entries;
use crate::names::list_names;
use crate::release::{ReleaseTexts, key_of, manifests_of};
use folders::Folder;
use identity::{Key, Version};
use publish_plan::{Options, PublishPlan, check_options, plan};
use small_types::Name;
use std::alloc::Global;

/// What was published.
#[derive(Drop)]
pub struct Published {
    /// The key of the deployment.
    pub key: Key,
    pub version: Version,
    /// How many input files there were.
    pub files: u64,
}

// Writes the files, the application manifest and the deployment manifest, in this order.
fn write_release<F: Folder>(
    alloc: Global,
    plan: &PublishPlan,
    release: &ReleaseTexts,
    folder: &mut F,
) -> Result<(), PublishFault>
    requires entries { AreEntries plan.now.files release.now.entries }
    requires apart { AreApart plan.now.files }
    requires new { F.tells → IsNewPlan plan.now (F.held folder.old) }
    ensures put { F.tells
        → OnOk result (PutsEach (published_files (F.held folder.old) plan.now release.now)
        (F.held folder.old) (F.held folder.new)) }
    ensures part { F.tells
        → OnErr result (PutsSome (published_files (F.held folder.old) plan.now release.now)
        (F.held folder.old) (F.held folder.new)) }
    ensures reading { F.tells → IfErr result (λ e. e ≡ ReadFault
        → PutsSome (map (copy_in (F.held folder.old)) plan.now.files)
        (F.held folder.old) (F.held folder.new)) }
    ensures device { F.tells
        → release.now.entries ≡ map (entry_in (F.held folder.old)) plan.now.files
        → IfErr result IsDevice }
    ensures readings { F.records → (from : List ℕ) (start : List FolderAnswer)
        → All (IsSourced from) plan.now.files
        → ReadsEach plan.now.files release.now.entries start (F.answers folder.old)
        → IfErr result (ReadsChange from start (F.answers folder.new)) }
    ensures late { IfErr result IsLate }
    ensures counted { FaultsCounted (F.count folder.old) (F.count folder.new) result }
{
    copy_files(
        alloc,
        plan.files.as_slice(),
        release.entries.as_slice(),
        folder,
    )?;
    put_new(&plan.manifest, release.application.as_slice(), folder)?;
    put_file(&plan.deployment, release.deployment.as_slice(), folder)
}

// Publishes, where these names stand in the folder.
fn publish_names<F: Folder>(
    alloc: Global,
    options: &Options,
    names: &[Name],
    folder: &mut F,
) -> Result<Published, PublishFault>
    requires options { IsPublishable options.now }
    requires fit { early_of options.now ≡ None }
    requires ascending { IsStrictlySortedBy (slice_cmp nat_cmp) names.now }
    requires names { F.tells → IsNames (F.held folder.old) names.now }
    ensures told { F.tells
        → PublishesFiles options.now names.now (F.held folder.old) (F.held folder.new) result }
    ensures answer { IfOk result (IsAnswer options.now) }
    ensures readings { F.records → IfErr result
        (ReadsChange options.now.from (F.answers folder.old) (F.answers folder.new)) }
    ensures late { IfErr result IsLate }
    ensures counted { FaultsCounted (F.count folder.old) (F.count folder.new) result }
{
    let plan = plan(alloc, options, names)?;
    let entries = read_entries(alloc, plan.files.as_slice(), folder)?;
    let release = manifests_of(alloc, options, entries)?;
    write_release(alloc, &plan, &release, folder)?;
    Ok(Published {
        key: key_of(release),
        version: options.version,
        files: plan.files.as_slice().len() as u64,
    })
}

// Publishes, where the words and the minimum are no reason against it.
fn publish_fit<F: Folder>(
    alloc: Global,
    options: &Options,
    folder: &mut F,
) -> Result<Published, PublishFault>
    requires options { IsPublishable options.now }
    requires fit { early_of options.now ≡ None }
    ensures told { F.tells → (names : List (List ℕ)) → IsNames (F.held folder.old) names
        → PublishesFiles options.now names (F.held folder.old) (F.held folder.new) result }
    ensures answer { IfOk result (IsAnswer options.now) }
    ensures readings { F.records → IfErr result
        (ReadsChange options.now.from (F.answers folder.old) (F.answers folder.new)) }
    ensures late { IfErr result IsLate }
    ensures counted { FaultsCounted (F.count folder.old) (F.count folder.new) result }
{
    let names = list_names(alloc, folder)?;
    publish_names(alloc, options, names.as_slice(), folder)
}

/// Publishes the files below `from`: over a folder that tells, writes them below `to` with the
/// application manifest and the deployment manifest of the version, and writes over no file but the
/// deployment manifest. `is_publishable` tells whether the options are such that their manifests
/// can be written.
///
/// # Errors
///
/// The words and the minimum are judged before the folder is called. `ReadFault` and `WriteFault`
/// come only where the folder's count of faults rose, and any other answer leaves it.
///
/// Over a folder that tells, the error is the first refusal in the order of `PublishFault`, or the
/// folder failed, or memory ran out. Where there is a refusal nothing is written. Else some first
/// part may be, and not all: the input files in byte order of their names, the application
/// manifest, the deployment manifest. After `ReadFault` neither manifest is written, nor are all
/// the input files. After each error the deployment manifest is as it was, and so is each file that
/// stood.
///
/// Over a folder that records, `Changed` comes only where the folder gave the file that it names
/// twice, the second time as its last answer, with nothing put under the name between: the
/// difference is that of what it gave again from the size and the digest of what it gave first.
pub fn publish<F: Folder>(
    alloc: Global,
    options: &Options,
    folder: &mut F,
) -> Result<Published, PublishFault>
    requires { IsPublishable options.now }
    ensures { IsPublish F.Folder options.now folder.old folder.new result }
{
    check_options(alloc, options)?;
    publish_fit(alloc, options, folder)
}
