// Why a lease is not given or not ended.

/// Why a lease is not given, or not ended.
#[derive(Clone, Copy, Debug, PartialEq, Eq)]
pub enum LeaseFault {
    /// There are as many leases as may be, which is 1,024.
    LeasesFull,
    /// The number that is next, which is the greatest there may be, so that none is left to give.
    Spent { next: u64 },
    /// No lease has the number.
    NoLease,
}
