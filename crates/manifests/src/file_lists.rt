// Whether files are ones that an application can have beside one another.
ghost use Rattle.std.specs.Prelude.{◌≡◌, ◌↔◌, IsTrue, IfOk};
ghost use Rattle.manifests.specs.Applications.{locals};
ghost use Rattle.manifests.specs.FileLists.{AreFiles, NamesDiffer};

use crate::FileEntry;
use small_types::CopyFault;
use small_types::limits::{FILE_COUNT_LIMIT, LOCAL_COUNT_LIMIT};
use std::alloc::Global;
use std::collections::BTreeSet;

// How many of the files are data files.
fn count_data(files: &[FileEntry]) -> usize
    ensures { result ≡ locals files.now }
{
    files.iter().filter(|entry| entry.local).count()
}

// Whether no two of the files have one name.
fn have_other_names(alloc: Global, files: &[FileEntry]) -> Result<bool, CopyFault>
    ensures { IfOk result (λ answer. IsTrue answer ↔ NamesDiffer files.now) }
{
    let mut names = BTreeSet::new(alloc);
    for entry in files {
        if names.contains(entry.name.as_str()) {
            return Ok(false);
        }
        let name = String::from_str(alloc, entry.name.as_str())?;
        names.insert(name)?;
    }
    Ok(true)
}

/// Whether one application can have these files: they are at most 16,384 and their names differ,
/// and among them are at most 256 data files. It fails only for want of memory, which the
/// comparison of the names takes.
pub fn are_files(alloc: Global, files: &[FileEntry]) -> Result<bool, CopyFault>
    ensures { IfOk result (λ answer. IsTrue answer ↔ AreFiles files.now) }
{
    if files.len() > FILE_COUNT_LIMIT || count_data(files) > LOCAL_COUNT_LIMIT {
        return Ok(false);
    }
    Ok(have_other_names(alloc, files)?)
}
