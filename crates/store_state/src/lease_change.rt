// What a launch and a finish change in the leases of the tables. None of it takes memory.
ghost use Rattle.std.specs.Prelude.{◌≡◌, ◌<◌, length};
ghost use Rattle.small_types.specs.declared.limits.TheConstants as limits;
ghost use Rattle.machine.specs.Leases.{without_lease};
ghost use Rattle.store_state.specs.Change.{leased};

use crate::StoreState;
use machine::Lease;

impl StoreState {
    /// Leases the view of that number, and answers the number of the lease, which is the next one.
    /// There are fewer than 1,024 leases before, and the next number is below 2 ^ 62.
    pub fn add_lease(&mut self, view: u64) -> u64
        requires room { length self.old.leases < limits.LEASE_LIMIT }
        requires next { self.old.next_lease < limits.NUMBER_LIMIT }
        ensures number { result ≡ self.old.next_lease }
        ensures tables { self.new ≡ leased view self.old }
    {
        let number = self.next_lease;
        self.leases.add(Lease { number, view });
        self.next_lease += 1;
        number
    }

    /// Ends the lease of that number, where there is one.
    pub fn remove_lease(&mut self, number: u64)
        ensures { self.new ≡ record self.old { leases = without_lease number self.old.leases } }
    {
        self.leases.remove(number);
    }
}
