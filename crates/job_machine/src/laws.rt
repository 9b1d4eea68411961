// What is true of lines of jobs, with no code.
ghost use Rattle.job_machine.specs.PlainRuns.{RunsAreOfTheMachine, RunsFold};
ghost use Rattle.job_machine.specs.Interleaved.{JobsMayBeInterleaved};
ghost use Rattle.job_machine.specs.JobLaws.{BegunJobsTakeTheirNeed, CommitsBringWholeFiles, CommitsInstall, JobLinesAreAnswered, JobMemoryChangesNothing, JobRefusalsChangeNothing, JobRowsAreExact, JobsKeepTheirRelease, JobsLeaveTheStore, LinesBesideAreAnswered, LinesWithoutJobsAreAsEver, OneJobRefusalIsGiven, SessionRunsKeepSound, SessionStepsKeepAddresses, SessionStepsKeepSound, SessionsBeginSoundWithJobs};

/// At most one refusal of a line of jobs is given, where none of its refusals is a free choice.
/// That of a step at its file is one, and so are those of `begin` where a manifest was not heard.
pub fn one_job_refusal_is_given()
    ensures rows { JobRowsAreExact }
    ensures one { OneJobRefusalIsGiven }
{}

/// A refused line of jobs changes nothing, and nor does want of memory: after a commit that is
/// refused its job stays.
pub fn job_refusals_change_nothing()
    ensures given { JobRefusalsChangeNothing }
    ensures memory { JobMemoryChangesNothing }
{}

/// No line that begins, advances or abandons a job changes the store.
pub fn jobs_leave_the_store()
    ensures { JobsLeaveTheStore }
{}

/// A commit is an install of the release of its job, on the store of its line and at its moment, of
/// a version that may come to that store. In a sound session the files are those of the release.
pub fn commits_install()
    ensures install { CommitsInstall }
    ensures files { CommitsBringWholeFiles }
{}

/// Where no job is open each line of the machine is answered as it is there.
pub fn lines_without_jobs_are_as_ever()
    ensures { LinesWithoutJobsAreAsEver }
{}

/// A run with jobs leaves the store that the run without them leaves: begin, step and abandon are
/// left out, and each commit is an install of its job's release at its place and moment. From a
/// sound session each line that is left is answered so by the machine where no job is open.
pub fn runs_fold()
    ensures effects { RunsFold }
    ensures steps { RunsAreOfTheMachine }
{}

/// A sound session stays sound over each line and over a run, whatever jobs are open, and the files
/// that its jobs have left keep their addresses.
pub fn session_steps_keep_sound()
    ensures begun { SessionsBeginSoundWithJobs }
    ensures steps { SessionStepsKeepSound }
    ensures runs { SessionRunsKeepSound }
    ensures addresses { SessionStepsKeepAddresses }
{}

/// Each line of jobs has an answer other than want of memory, in a sound session whose files have
/// addresses. So a commit that is not refused installs. Each line of the machine has one beside open
/// jobs.
pub fn lines_with_jobs_are_answered()
    ensures jobs { JobLinesAreAnswered }
    ensures others { LinesBesideAreAnswered }
{}

/// A job is of the release that its begin heard, and has its number, as long as it is open.
pub fn jobs_keep_their_release()
    ensures { JobsKeepTheirRelease }
{}

/// A new job counts as many blocks, beside views and other jobs, as its begin needs.
pub fn begun_jobs_take_their_need()
    ensures { BegunJobsTakeTheirNeed }
{}

/// There is an interleaving: a job begins in a sound session, another application is updated
/// between its files, and the job is committed.
pub fn jobs_may_be_interleaved()
    ensures { JobsMayBeInterleaved }
{}
