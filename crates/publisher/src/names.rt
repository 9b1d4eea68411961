// The names of the files in a folder.
ghost use Rattle.std.specs.Prelude.{◌≡◌, IfOk, IfErr, IsPermutation, OnOk};
ghost use Rattle.std.specs.Cmp.Lexicographic.{slice_cmp};
ghost use Rattle.std.specs.List.{IsDistinct};
ghost use Rattle.std.specs.List.Sorted.{IsStrictlySortedBy};
ghost use Rattle.std.specs.Ordering.{nat_cmp};
ghost use Rattle.std.specs.Str.{bytes_eq};
ghost use Rattle.folders.specs.Files.{IsNames};
ghost use Rattle.publisher.specs.Faults.{FaultsCounted, IsReading};
ghost use Rattle.publisher.specs.Readings.{AnswersMore};

use crate::PublishFault;
use crate::fault::fault_of_reading;
use folders::Folder;
use small_types::{List, Name};
use std::alloc::Global;

// The names in byte order, each of them once.
fn in_order(names: List<Name>) -> Vec<Name>
    ensures ascending { IsStrictlySortedBy (slice_cmp nat_cmp) result.items }
    ensures all { IsDistinct bytes_eq names → IsPermutation names result.items }
{
    let mut names = names.into_vec();
    names.sort_unstable();
    names.dedup();
    names
}

// The names of the files in the folder, in byte order, each of them once.
pub(crate) fn list_names<F: Folder>(
    alloc: Global,
    folder: &mut F,
) -> Result<Vec<Name>, PublishFault>
    ensures names { F.tells → IfOk result (λ names. IsNames (F.held folder.old) names.items) }
    ensures ascending { IfOk result (λ names. IsStrictlySortedBy (slice_cmp nat_cmp) names.items) }
    ensures kept { F.tells → F.held folder.new ≡ F.held folder.old }
    ensures noted { F.records
        → OnOk result (AnswersMore (F.answers folder.old) (F.answers folder.new)) }
    ensures reading { IfErr result IsReading }
    ensures counted { FaultsCounted (F.count folder.old) (F.count folder.new) result }
{
    match folder.list(alloc) {
        Ok(names) => Ok(in_order(names)),
        Err(fault) => Err(fault_of_reading(fault)),
    }
}
