use crate::{Key, Version};
use small_types::{CopyFault, Duplicate, Text};
use std::alloc::Global;

/// The identity of an application: its key, its version and its kind.
#[derive(Drop, Debug, PartialEq, Eq)]
pub struct Identity {
    pub key: Key,
    pub version: Version,
    pub kind: Text,
}

impl Duplicate for Identity {
    fn copy(&self, alloc: Global) -> Result<Self, CopyFault> {
        Ok(Identity {
            key: self.key.copy(alloc)?,
            version: self.version,
            kind: self.kind.copy(alloc)?,
        })
    }
}
