// Values that several tests make.
use small_types::{Bytes, List};
use std::alloc::{AllocError, Global};

pub(crate) fn bytes(alloc: Global, from: &[u8]) -> Result<Bytes, AllocError> {
    Ok(Bytes::from_vec(from.to_vec(alloc)?))
}

// The number of the one call that fails. With 0 none fails.
pub(crate) fn failing(alloc: Global, number: u64) -> Result<List<u64>, AllocError> {
    Ok(List::from_vec([number].to_vec(alloc)?))
}

pub(crate) fn same(a: &[u8], b: &[u8]) -> bool {
    a == b
}
