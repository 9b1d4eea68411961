// What the tests of several devices compare.
use outside_real::Reason;
use std::alloc::{AllocError, Global};
use std::fs;

pub(crate) fn same(a: &[u8], b: &[u8]) -> bool {
    a == b
}

// What is said of a failure, or nothing where there was none.
fn said(alloc: Global, why: Option<&Reason>) -> Result<String, AllocError> {
    match why {
        Some(reason) => format!(in alloc; "{reason}"),
        None => Ok(String::new(alloc)),
    }
}

// Whether these words are said of a failure, or none where there was none.
pub(crate) fn is_said(alloc: Global, why: Option<&Reason>, want: &str) -> bool {
    match said(alloc, why) {
        Ok(words) => words.as_str() == want,
        Err(_) => false,
    }
}

// Whether there is a file or a folder at the path.
pub(crate) fn stands(rt: &HostRuntime, path: &str) -> bool {
    match fs::exists(rt, path) {
        Ok(found) => found,
        Err(_) => false,
    }
}

// Whether the file at the path has these bytes.
pub(crate) fn holds(rt: &HostRuntime, path: &str, want: &[u8]) -> bool {
    match fs::read(rt, path) {
        Ok(bytes) => same(&bytes, want),
        Err(_) => false,
    }
}
