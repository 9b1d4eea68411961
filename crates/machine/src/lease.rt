// A lease of a view.

/// A view that is in use, and stays as it is until the lease ends.
#[derive(Clone, Copy, Debug, PartialEq, Eq)]
pub struct Lease {
    pub number: u64,
    /// The number of the view.
    pub view: u64,
}
