// One line of an audit's list.
use crate::Verdict;

/// What an audit says of one content: at which place it stands among the contents of the store, from 0, what its
/// size is, and whether its bytes match.
#[derive(Drop, Debug, PartialEq, Eq)]
pub struct AuditLine {
    pub index: u32,
    pub size: u64,
    pub verdict: Verdict,
}
