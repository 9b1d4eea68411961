// What is true of the machine, with no code.
ghost use Rattle.machine.specs.Laws.{AddressesAreShort, AtSetsTheMoment, BlocksAreRoundedUp, RoomStays, CommandsAreAnswered, ContentsAreCompared, ContentsCountOnce, EmptyStoresAreSound, EntriesStayInOrder, EventsHaveSteps, FreeBlocksAreThoseOfViews, JoinedAddressesAreShort, JoinedAddressesMayBeHeld, JobsCountMore, MemoryChangesNothing, MinimumsAreShown, MinimumsNeverFall, MomentsStayFew, NoRefusalIsGivenWherePassed, OneEntryIsMade, OneRefusalIsGiven, OnlyBootsChangeTheBoot, OtherEntriesStay, OthersLeaveTheMoment, ReadAddressesMayBeHeld, ReadApplicationsMayBeHeld, ReadDeploymentsMayBeHeld, RefusedChecksCount, RefusalsAreFirst, RefusalsChangeNothing, RefusalsComeInOrder, RowsAreExact, RowsChangeNothing, RunsKeepSound, SessionsBeginSound, StepsKeepSound, StepsKeepSoundSessions, StepsKeepValid, StoresMayBeUsed};

/// A change of an entry leaves the entries in order of their keys.
pub fn entries_stay_in_order()
    ensures { EntriesStayInOrder }
{}

/// A change of an entry makes the entry of its key, and no other: every other key has what it had.
pub fn one_entry_is_changed()
    ensures made { OneEntryIsMade }
    ensures others { OtherEntriesStay }
{}

/// Two files count as one content exactly where their sizes and their lists of digests are equal.
pub fn contents_are_compared()
    ensures { ContentsAreCompared }
{}

/// Of the files of one content one counts for blocks, and bytes take as few blocks as hold them.
pub fn blocks_are_counted()
    ensures contents { ContentsCountOnce }
    ensures bytes { BlocksAreRoundedUp }
{}

/// Where no job is open, the free blocks are those that no file of a view takes. Open jobs make the
/// count no smaller.
pub fn blocks_of_jobs_are_counted()
    ensures none { FreeBlocksAreThoseOfViews }
    ensures more { JobsCountMore }
{}

/// What a manifest says is what a valid store may hold: texts are UTF-8, versions have 16 bits, names are names.
pub fn read_manifests_may_be_held()
    ensures deployments { ReadDeploymentsMayBeHeld }
    ensures applications { ReadApplicationsMayBeHeld }
{}

/// The host and the path of an address that a text spells, or a codebase beside a base, have at
/// most 2,048 bytes together.
pub fn addresses_are_short()
    ensures read { AddressesAreShort }
    ensures joined { JoinedAddressesAreShort }
{}

/// Such an address is one that a valid store may hold.
pub fn read_addresses_may_be_held()
    ensures read { ReadAddressesMayBeHeld }
    ensures joined { JoinedAddressesMayBeHeld }
{}

/// The empty store is sound, for each room with as many blocks as a store may have, and with halves of no less than the
/// least length or none; and so is one with files in use.
pub fn some_stores_are_sound()
    ensures empty { EmptyStoresAreSound }
    ensures used { StoresMayBeUsed }
{}

/// Where the first refusals of a command are passed and the next one is given, its reply is an
/// answer; and a refusal that is given is the first that is not passed.
pub fn refusals_come_in_order()
    ensures answer { RefusalsComeInOrder }
    ensures first { RefusalsAreFirst }
{}

/// At most one refusal of a command is given, and none where all are passed, where none of its
/// refusals is a free choice. Those of `install` are none but the last, and those of `check` none,
/// where the manifests are heard; those of `group` are none but the last; those of every other command
/// are none.
pub fn one_refusal_is_given()
    ensures rows { RowsAreExact }
    ensures one { OneRefusalIsGiven }
    ensures none { NoRefusalIsGivenWherePassed }
{}

/// A refusal that leaves everything as it was changes nothing, and each refusal is so, but that of a
/// check that no link answers: it counts as made.
pub fn refusals_change_nothing()
    ensures given { RefusalsChangeNothing }
    ensures rows { RowsChangeNothing }
    ensures checks { RefusedChecksCount }
{}

/// In each valid store each command has an answer other than want of memory, and each event that
/// may come a step with such an answer; an install and a check at least where they hear nothing, and a
/// group in each sound store.
pub fn commands_are_answered()
    ensures commands { CommandsAreAnswered }
    ensures events { EventsHaveSteps }
{}

/// Want of memory changes nothing.
pub fn memory_changes_nothing()
    ensures { MemoryChangesNothing }
{}

/// `require` shows the minimum that then holds.
pub fn minimums_are_shown()
    ensures { MinimumsAreShown }
{}

/// The moment of the next line is that of an answered `at`, and every other event leaves it. It stays within its limit.
pub fn moments_are_set()
    ensures set { AtSetsTheMoment }
    ensures left { OthersLeaveTheMoment }
    ensures few { MomentsStayFew }
{}

/// A step from a valid store leads to one.
pub fn steps_keep_valid()
    ensures { StepsKeepValid }
{}

/// A step from a sound store leads to one, and so does a run.
pub fn steps_keep_sound()
    ensures steps { StepsKeepSound }
    ensures runs { RunsKeepSound }
{}

/// A session begins sound over a sound store, and a step from a sound session leads to one; an
/// install or a group where there is no open job.
pub fn sessions_stay_sound()
    ensures begun { SessionsBeginSound }
    ensures steps { StepsKeepSoundSessions }
{}

/// No step changes the room, and a boot event alone changes the number of the last boot.
pub fn steps_keep_numbers()
    ensures room { RoomStays }
    ensures boot { OnlyBootsChangeTheBoot }
{}

/// A minimum that held holds after a run, or one that is not below it.
pub fn minimums_never_fall()
    ensures { MinimumsNeverFall }
{}
