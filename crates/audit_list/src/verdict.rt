// Whether the bytes of a content match.
use digest_list::Difference;
use std::fmt;

/// What an audit says of a content.
#[derive(Drop, Debug, PartialEq, Eq)]
pub enum Verdict {
    /// Its bytes on the disk have its size, and each of its digests is theirs.
    Good,
    /// They do not, and this is the first difference.
    Bad { difference: Difference },
}

impl fmt::Display for Verdict {
    fn fmt<W: fmt::Write>(&self, f: &mut fmt::Formatter<W>) -> fmt::Result {
        match self {
            Verdict::Good => write!(f, "good"),
            Verdict::Bad { difference } => write!(f, "bad: {difference}"),
        }
    }
}
