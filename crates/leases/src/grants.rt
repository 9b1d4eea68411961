// Giving and ending leases. None of it takes memory.
ghost use Rattle.std.specs.Prelude.{◌≡◌, ◌↔◌, IsSome, IsTrue, IfErr, IfOk, OnErr, OnOk};
ghost use Rattle.machine.specs.Leases.{lease_of, without_lease};
ghost use Rattle.store_state.specs.Change.{leased};
ghost use Rattle.leases.specs.Leases.{HasRoom, IsLeased, IsMissing, IsRefused};

use crate::LeaseFault;
use small_types::limits::{LEASE_LIMIT, NUMBER_LIMIT};
use store_state::StoreState;

/// Whether one more lease may be given: `LeasesFull` comes exactly where there are 1,024 leases,
/// and else `Spent` exactly where the next number is 2^62.
pub fn check_room(state: &StoreState) -> Result<(), LeaseFault>
    ensures ok { OnOk result (HasRoom state.now) }
    ensures refused { IfErr result (IsRefused state.now) }
{
    state.are_tables();
    if state.leases.as_slice().len() >= LEASE_LIMIT {
        return Err(LeaseFault::LeasesFull);
    }
    if state.next_lease >= NUMBER_LIMIT {
        return Err(LeaseFault::Spent {
            next: state.next_lease,
        });
    }
    Ok(())
}

/// Adds a lease on the view, gives it the next number, which it answers, and raises that number. It
/// is refused exactly where `check_room` says so. An `Err` changes nothing.
pub fn grant(state: &mut StoreState, view: u64) -> Result<u64, LeaseFault>
    ensures number { IfOk result (λ lease. lease ≡ state.old.next_lease) }
    ensures ok { OnOk result (state.new ≡ leased view state.old) }
    ensures room { OnOk result (HasRoom state.old) }
    ensures refused { IfErr result (IsRefused state.old) }
    ensures err { OnErr result (state.new ≡ state.old) }
{
    if let Err(fault) = check_room(state) {
        return Err(fault);
    }
    Ok(state.add_lease(view))
}

/// Takes the lease of that number out, and no other. `NoLease` comes exactly where none has it, and
/// changes nothing.
pub fn end(state: &mut StoreState, lease: u64) -> Result<(), LeaseFault>
    ensures ok { OnOk result (state.new
        ≡ record state.old { leases = without_lease lease state.old.leases }) }
    ensures there { OnOk result (IsSome (lease_of lease state.old.leases)) }
    ensures refused { IfErr result (IsMissing lease state.old) }
    ensures err { OnErr result (state.new ≡ state.old) }
{
    let Some(_) = state.lease(lease) else {
        return Err(LeaseFault::NoLease);
    };
    state.remove_lease(lease);
    Ok(())
}

/// Whether a lease names the view.
pub fn holds(state: &StoreState, view: u64) -> bool
    ensures { IsTrue result ↔ IsLeased view state.now.leases }
{
    let leases = state.leases.as_slice();
    leases.iter().any(|lease| lease.view == view)
}
