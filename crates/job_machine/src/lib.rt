//! Jobs of a session: what their lines ask for and answer, and the machine with jobs that they are
//! steps of. It stands on the machine without them, on no device, and has no tables.
#![tactic(auto)]

mod command;
mod laws;
mod reply;

pub use command::JobCommand;
pub use laws::{
    begun_jobs_take_their_need, commits_install, job_refusals_change_nothing,
    jobs_keep_their_release, jobs_leave_the_store, jobs_may_be_interleaved,
    lines_with_jobs_are_answered, lines_without_jobs_are_as_ever, one_job_refusal_is_given,
    runs_fold, session_steps_keep_sound,
};
pub use reply::JobReply;
