// The numbers of the views that are in use.
ghost use Rattle.std.specs.Prelude.{◌≡◌, ◌==◌, ◌++◌, ℕ, flat_map, map, option_to_list, IfOk, OnOk};
ghost use Rattle.std.specs.List.{list_any};
ghost use Rattle.std.specs.List.Sorted.{IsSorted};
ghost use Rattle.std.specs.Ordering.{nat_cmp};
ghost use Rattle.machine.specs.InUse.{is_in_use};
ghost use Rattle.cleaner.specs.Used.{named_numbers};

use crate::CleanFault;
use machine::{AppState, Lease};
use std::alloc::Global;
use store_state::StoreState;

// Adds the number, where there is one.
fn add_number(numbers: &mut Vec<u64>, number: Option<u64>) -> Result<(), CleanFault>
    ensures { OnOk result (numbers.new.items ≡ numbers.old.items ++ option_to_list number) }
{
    if let Some(number) = number {
        numbers.push(number)?;
    }
    Ok(())
}

// Adds the numbers of the views that are current and previous of the application.
fn add_app(numbers: &mut Vec<u64>, app: &AppState) -> Result<(), CleanFault>
    ensures { OnOk result (numbers.new.items ≡ numbers.old.items ++ named_numbers app.now) }
{
    add_number(numbers, app.current)?;
    add_number(numbers, app.previous)?;
    Ok(())
}

// The numbers of the views that are current and previous of the applications.
fn of_apps(alloc: Global, apps: &[AppState]) -> Result<Vec<u64>, CleanFault>
    ensures { IfOk result (λ numbers. numbers.items ≡ flat_map named_numbers apps.now) }
{
    let mut numbers = Vec::new(alloc);
    for app in apps {
        add_app(&mut numbers, app)?;
    }
    Ok(numbers)
}

// Adds the numbers of the views that are leased.
fn add_leases(numbers: &mut Vec<u64>, leases: &[Lease]) -> Result<(), CleanFault>
    ensures { OnOk result (numbers.new.items
        ≡ numbers.old.items ++ map (λ lease. lease.view) leases.now) }
{
    for lease in leases {
        numbers.push(lease.view)?;
    }
    Ok(())
}

// The numbers of the views that are current, previous or leased, in order. One may stand several
// times.
pub(crate) fn numbers_in_use(alloc: Global, state: &StoreState) -> Result<Vec<u64>, CleanFault>
    ensures order { IfOk result (λ used. IsSorted nat_cmp used.items) }
    ensures used { IfOk result (λ used. (number : ℕ) → list_any (λ n. n == number) used.items
        ≡ is_in_use number state.now.apps state.now.leases) }
{
    let mut used = of_apps(alloc, state.apps.as_slice())?;
    add_leases(&mut used, state.leases.as_slice())?;
    used.sort_unstable();
    Ok(used)
}

// Whether the number is among those, which stand in order.
pub(crate) fn is_among(used: &[u64], number: u64) -> bool
    requires { IsSorted nat_cmp used.now }
    ensures { result ≡ list_any (λ n. n == number) used.now }
{
    used.binary_search(&number).is_ok()
}
