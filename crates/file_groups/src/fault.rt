// Why a group has no plan.

/// Why a group has no plan.
#[derive(Clone, Copy, Debug, PartialEq, Eq)]
pub enum GroupFault {
    /// The application of the view lists no program file of the group.
    NoGroup,
    /// There was no memory for the files.
    Memory,
}
