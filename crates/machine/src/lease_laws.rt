// What is true of launches, of the views that leases keep, and of what is read in them.
ghost use Rattle.machine.specs.LeaseLaws.{FreeLaunchesAreGranted, LaunchesAreSound, LaunchesReachMinimums, LeasedViewsAreSound, LeasedViewsStay, LeasesAreNew, ReadsAgree, ReadsAreOfFiles};

/// A launch that is answered with a lease hands out the view that was current, which is one whole
/// release and not below the minimum of its application.
pub fn launches_are_sound()
    ensures { LaunchesAreSound }
{}

/// The version of a launched view is not below any minimum that its application had before.
pub fn launches_reach_minimums()
    ensures { LaunchesReachMinimums }
{}

/// Where nothing is due and a lease is free, a launch is answered with a lease, or there was no
/// memory.
pub fn free_launches_are_granted()
    ensures { FreeLaunchesAreGranted }
{}

/// No number of a lease is given twice, and while a lease lives its view keeps its program files.
pub fn leased_views_stay()
    ensures new { LeasesAreNew }
    ensures views { LeasedViewsStay }
{}

/// In a sound store the view of each lease is kept, and is one whole release.
pub fn leased_views_are_sound()
    ensures { LeasedViewsAreSound }
{}

/// What is read on a lease is a part of a file that matches what its release lists; and reads of
/// one name on one lease show parts of one file.
pub fn reads_are_of_files()
    ensures files { ReadsAreOfFiles }
    ensures agree { ReadsAgree }
{}
