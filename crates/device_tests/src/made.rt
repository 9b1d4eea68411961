// Values that the tests of several devices make.
use small_types::{Bytes, List};
use std::alloc::{AllocError, Global};
use std::process::Abort;

pub(crate) fn bytes(alloc: Global, from: &[u8]) -> Result<Bytes, AllocError> {
    Ok(Bytes::from_vec(from.to_vec(alloc)?))
}

pub(crate) fn numbers(alloc: Global, from: &[u64]) -> Result<List<u64>, AllocError> {
    Ok(List::from_vec(from.to_vec(alloc)?))
}

pub(crate) fn same(a: &[u8], b: &[u8]) -> bool {
    a == b
}

// Ends the test with the number of the step that was wrong, where one was.
pub(crate) fn all_right(abort: &impl Abort, name: &str, wrong: Option<usize>) {
    if let Some(number) = wrong {
        panic!(abort; "{name}: step {number}");
    }
}
