// The files that come with a group.
ghost use Rattle.std.specs.Prelude.{◌≡◌, filter, IfErr, IfOk, OnOk};
ghost use Rattle.machine.specs.Groups.{group_files, is_in};
ghost use Rattle.file_groups.specs.Refused.{HasGroup, IsRefused};
ghost use Rattle.file_groups.specs.declared.fault.GroupFault.TheVariants as fault;

use crate::GroupFault;
use manifests::FileEntry;
use small_types::{CopyFault, Duplicate, List, Text};
use std::alloc::{AllocFailed, Global};
use store_state::{View, is_in_group};

// Those of the files that are program files of the group, in their order.
fn files_of(alloc: Global, files: &[FileEntry], group: &Text) -> Result<Vec<FileEntry>, GroupFault>
    ensures files { IfOk result (λ found. found.items ≡ filter (is_in group.now) files.now) }
    ensures memory { IfErr result (λ reason. reason ≡ fault.Memory) }
{
    let mut found = Vec::new(alloc);
    for entry in files {
        if is_in_group(entry, group) {
            let copy = match entry.copy(alloc) {
                Ok(copy) => copy,
                Err(CopyFault::Memory) => return Err(GroupFault::Memory),
            };
            if let Err(AllocFailed { .. }) = found.push(copy) {
                return Err(GroupFault::Memory);
            }
        }
    }
    Ok(found)
}

/// The program files of the group that the application of the view lists, in the manifest's order.
/// `NoGroup` comes exactly where it lists none.
pub fn plan(alloc: Global, view: &View, group: &Text) -> Result<List<FileEntry>, GroupFault>
    ensures files { IfOk result (λ files. files ≡ group_files group.now view.now.application) }
    ensures some { OnOk result (HasGroup group.now view.now.application) }
    ensures refused { IfErr result (IsRefused group.now view.now.application) }
{
    if !view.lists_group(group) {
        return Err(GroupFault::NoGroup);
    }
    let files = files_of(alloc, view.application.files.as_slice(), group)?;
    Ok(List::from_vec(files))
}
