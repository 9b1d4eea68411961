// The views that are not in use.
ghost use Rattle.std.specs.Prelude.{◌≡◌, ◌==◌, ℕ, filter, length, map, not, IfOk, OnErr, OnOk};
ghost use Rattle.std.specs.List.{list_any};
ghost use Rattle.std.specs.List.Sorted.{IsSorted};
ghost use Rattle.std.specs.Ordering.{nat_cmp};
ghost use Rattle.small_types.specs.declared.room.Room.{Room};
ghost use Rattle.machine.specs.CleanRow.{removable};
ghost use Rattle.store_state.specs.declared.change.Change.TheVariants as change;
ghost use Rattle.store_state.specs.Change.{effect};
ghost use Rattle.store_state.specs.Tables.{table_shape};

use crate::CleanFault;
use crate::used_numbers::{is_among, numbers_in_use};
use small_types::List;
use std::alloc::Global;
use store_state::{StoreState, View};

// The numbers of those views whose numbers are not among the used ones, which stand in order.
fn unused_among(alloc: Global, views: &[View], used: &[u64]) -> Result<Vec<u64>, CleanFault>
    requires { IsSorted nat_cmp used.now }
    ensures { IfOk result (λ found. found.items
        ≡ filter (λ number. not (list_any (λ n. n == number) used.now))
        (map (λ view. view.number) views.now)) }
{
    let mut found = Vec::new(alloc);
    for view in views {
        if !is_among(used, view.number) {
            found.push(view.number)?;
        }
    }
    Ok(found)
}

/// The numbers of the kept views that are neither current nor previous of any application nor
/// leased, in their order. It fails only for want of memory.
pub fn removable(alloc: Global, state: &StoreState) -> Result<List<u64>, CleanFault>
    ensures { IfOk result (λ numbers. (room : Room)
        → numbers ≡ removable (table_shape room state.now)) }
{
    let used = numbers_in_use(alloc, state)?;
    let found = unused_among(alloc, state.views.as_slice(), used.as_slice())?;
    Ok(List::from_vec(found))
}

/// Takes the removable views out of the tables, with the contents that no program file has then, and
/// answers how many they were. It fails only for want of memory, and then changes nothing.
pub fn clean(alloc: Global, state: &mut StoreState) -> Result<usize, CleanFault>
    ensures ok { OnOk result (state.new ≡ effect change.Clean state.old) }
    ensures count { IfOk result (λ count. (room : Room)
        → count ≡ length (removable (table_shape room state.old))) }
    ensures err { OnErr result (state.new ≡ state.old) }
{
    let numbers = removable(alloc, state)?;
    state.drop_views(&numbers);
    Ok(numbers.as_slice().len())
}
