// The leases of the tables.
ghost use Rattle.std.specs.Prelude.{◌≡◌, ◌<◌, ◌≤◌, ℕ, [], ◌∷◌, ◌++◌, length, map, AllPairs, IfOk};
ghost use Rattle.std.specs.List.Sorted.{IsBinarySearchResult, IsSearchInRange};
ghost use Rattle.std.specs.Ordering.{nat_cmp};
ghost use Rattle.small_types.specs.declared.limits.TheConstants as limits;
ghost use Rattle.machine.specs.Leases.{lease_of, without_lease};

use machine::Lease;
use small_types::limits::LEASE_LIMIT;
use std::alloc::{AllocError, Global};
use std::marker::Model;

/// Leases, with the room for as many as a store may have, which is 1,024. It is made with the list,
/// so that a lease is added without memory. Contracts see it as the list of the leases.
#[derive(Drop, Debug)]
pub struct LeaseList {
    held: Vec<Lease>,
}

impl Model for LeaseList {
    ghost use Rattle.std.specs.Prelude.{◌≤◌, List, vec_capacity};
    ghost use Rattle.small_types.specs.declared.limits.TheConstants as limits;
    ghost use Rattle.machine.specs.declared.lease.Lease.{Lease};

    ghost Value = { List Lease };

    ghost view = { λ l. l.held.items };

    ghost invariant = { λ l. limits.LEASE_LIMIT ≤ vec_capacity l.held };
}

impl LeaseList {
    // No leases, and the room for all that there may be.
    pub(crate) fn empty(alloc: Global) -> Result<LeaseList, AllocError>
        ensures { IfOk result (λ leases. leases ≡ []) }
    {
        let held = Vec::with_capacity(alloc, LEASE_LIMIT)?;
        Ok(LeaseList { held })
    }

    /// The leases, to be read.
    pub fn as_slice(&self) -> &[Lease]
        ensures { result.now ≡ self.now }
    {
        self.held.as_slice()
    }

    // Adds the lease at the end.
    pub(crate) fn add(&mut self, lease: Lease)
        requires { length self.old < limits.LEASE_LIMIT }
        ensures { self.new ≡ self.old ++ lease ∷ [] }
    {
        let _added = self.held.push(lease);
    }

    // Takes out the lease of that number, where there is one.
    pub(crate) fn remove(&mut self, number: u64)
        ensures { self.new ≡ without_lease number self.old }
    {
        self.held.retain(|lease| lease.number != number);
    }

    // Takes all leases out.
    pub(crate) fn clear(&mut self)
        ensures { self.new ≡ [] }
    {
        self.held.clear();
    }
}

// Where the lease of that number stands among leases in order, or where it would go.
fn place_of_lease(leases: &[Lease], number: u64) -> Result<usize, usize>
    ensures range { IsSearchInRange result (length leases.now) }
    ensures found { IsBinarySearchResult (λ lease. nat_cmp lease.number number) leases.now result }
{
    leases.binary_search_by(|lease| lease.number.cmp(&number))
}

// The lease of that number among leases in order.
pub(crate) fn find_lease(leases: &[Lease], number: u64) -> Option<Lease>
    requires { AllPairs (λ (m n : ℕ). m < n) (map (λ lease. lease.number) leases.now) }
    ensures { result ≡ lease_of number leases.now }
{
    match place_of_lease(leases, number) {
        Ok(place) => Some(leases[place]),
        Err(_) => None,
    }
}
