// What a line of jobs answers beside what other lines do.

/// An answer that only lines of jobs give.
#[derive(Clone, Copy, Debug, PartialEq, Eq)]
pub enum JobReply {
    /// The number of a new job, and how many files it has left to fetch.
    Job { job: u64, left: u64 },
    /// The number of the job, and how many files it has left to fetch.
    Step { job: u64, left: u64 },
    /// The job is gone.
    Abandoned,
    /// No open job has the number.
    NoJob,
    /// The job has no file left to fetch.
    Done,
    /// There are as many open jobs as may be, which is 16.
    JobsFull,
    /// How many files the job still has to fetch.
    NotReady { left: u64 },
}
