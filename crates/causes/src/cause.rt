// Why one link did not serve.
use digest_list::Difference;
use std::fmt;

/// Why one link did not serve.
#[derive(Drop, Debug, PartialEq, Eq)]
pub enum Cause {
    /// The link failed: its count of faults rose.
    Down,
    /// Its site has nothing for the target.
    Missing,
    /// It answered a length above the limit. This comes for texts alone.
    TooLong { length: u64, limit: u64 },
    /// Its bytes are not those that are listed. This comes for files alone.
    Differs(Difference),
}

impl fmt::Display for Cause {
    fn fmt<W: fmt::Write>(&self, f: &mut fmt::Formatter<W>) -> fmt::Result {
        match self {
            Cause::Down => write!(f, "the link failed"),
            Cause::Missing => write!(f, "missing"),
            Cause::TooLong { length, limit } => write!(f, "{length} bytes, at most {limit}"),
            Cause::Differs(difference) => write!(f, "{difference}"),
        }
    }
}
