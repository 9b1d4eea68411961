// Why it is not known how much tables would weigh.
use data_migration::MigrateFault;

/// Why it is not known how much tables would weigh.
#[derive(Clone, Copy, Debug, PartialEq, Eq)]
pub enum WeightFault {
    /// There was no memory to find the data files that an update carries over.
    Memory,
}

impl From<MigrateFault> for WeightFault {
    fn from(_: MigrateFault) -> WeightFault {
        WeightFault::Memory
    }
}
