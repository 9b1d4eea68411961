use crate::{CopyFault, Duplicate, Text};
use std::alloc::Global;

/// What is asked of a host.
#[derive(Drop, Debug, PartialEq, Eq)]
pub struct Target {
    pub host: Text,
    pub port: u16,
    /// It begins with `/` and includes the query.
    pub path: Text,
}

impl Duplicate for Target {
    fn copy(&self, alloc: Global) -> Result<Self, CopyFault> {
        Ok(Target {
            host: self.host.copy(alloc)?,
            port: self.port,
            path: self.path.copy(alloc)?,
        })
    }
}
