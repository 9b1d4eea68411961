// What is true of an install, with no code.
ghost use Rattle.machine.specs.InstallLaws.{InstallRefusalsAreExact, InstallsAreCurrent, InstallsHaveOneReply, InstallsKeepMinimums, InstallsKeepSound, InstallsKeepValid, InstallsReachMinimums, MigrationsAreOne, MigrationsExist, StoresMayBeUpdated, WantedFilesSuffice};

/// An install leads from a valid store to one.
pub fn installs_keep_valid()
    ensures { InstallsKeepValid }
{}

/// An install leads from a sound store to one: each view is one whole release.
pub fn installs_keep_sound()
    ensures { InstallsKeepSound }
{}

/// After an install the new view is the current one, and the one that was is previous. No other application changes.
pub fn installs_are_current()
    ensures { InstallsAreCurrent }
{}

/// A minimum that held holds after an install, or one that is not below it; and the installed version is not below the
/// minimum that then holds.
pub fn installs_keep_minimums()
    ensures keep { InstallsKeepMinimums }
    ensures reach { InstallsReachMinimums }
{}

/// An install is refused in one way: where the manifests are heard, no refusal but one at a file is
/// a free choice. And two installs from one store that heard the same have one reply.
pub fn one_install_is_given()
    ensures refusals { InstallRefusalsAreExact }
    ensures reply { InstallsHaveOneReply }
{}

/// The data files of a new version are one list, where the old ones are in order of their names.
pub fn migrations_are_one()
    ensures one { MigrationsAreOne }
    ensures exist { MigrationsExist }
{}

/// There is an update of a sound store that leads to one: with a previous view, a data file kept
/// aside, and a listed file that does not stand.
pub fn stores_may_be_updated()
    ensures { StoresMayBeUpdated }
{}

/// The wanted files bring each content that no kept view has, each once, and take the blocks that are counted.
pub fn wanted_files_suffice()
    ensures { WantedFilesSuffice }
{}
