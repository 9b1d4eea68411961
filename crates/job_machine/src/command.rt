// What a line of jobs asks for.
use small_types::Bytes;

/// A command on the installations that are open at once.
#[derive(Drop, Debug, PartialEq, Eq)]
pub enum JobCommand {
    /// `begin URL`: a job for the release whose deployment manifest is at the address. Both of its
    /// manifests are heard, and the blocks of all its files are counted from then on.
    Begin { url: Bytes },
    /// `step J`: one file of the job is fetched.
    Step { job: u64 },
    /// `commit J`: the release of the job, of which every file was fetched, becomes the current
    /// view of its application.
    Commit { job: u64 },
    /// `abandon J`: the job is gone.
    Abandon { job: u64 },
}
