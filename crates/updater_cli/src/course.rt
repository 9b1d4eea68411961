// A session while it goes on.
use machine::{Event, ReportLine};
use updater::Updater;

/// The store, the moment of the next line in seconds, the lines so far, and the event in which the disk failed.
#[derive(Drop, Debug)]
pub(crate) struct Course {
    pub updater: Updater,
    pub now: u64,
    pub lines: Vec<ReportLine>,
    pub begun: Option<Event>,
}
