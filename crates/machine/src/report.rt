// What a session did.
use crate::{Event, Reply};
use small_types::List;

/// A line that was run.
#[derive(Drop, Debug, PartialEq, Eq)]
pub struct ReportLine {
    pub event: Event,
    /// Its reply. A boot event has none.
    pub reply: Option<Reply>,
    /// The disk's count of calls at which the reply began; of a boot event, once it was durable.
    pub mark: u64,
    /// The links' count of failures at the line's end.
    pub failures: u64,
}

/// The lines so far, and the event in which the disk failed.
#[derive(Drop, Debug, PartialEq, Eq)]
pub struct Report {
    pub lines: List<ReportLine>,
    pub begun: Option<Event>,
}
