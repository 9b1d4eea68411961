// What is true of groups, with no code.
ghost use Rattle.machine.specs.GroupLaws.{AnsweredGroupsStand, FilesStandInOneOrder, GroupFilesSuffice, GroupsHaveOneReply, GroupsMayCome};

/// The wanted files of a group bring each content of it that no kept view has, each once, and take the blocks that are
/// counted.
pub fn group_files_suffice()
    ensures { GroupFilesSuffice }
{}

/// A group has one reply, the number of its files, which stand in one order with those that stood. Each of them is found
/// in the leased view from then on.
pub fn one_group_is_given()
    ensures reply { GroupsHaveOneReply }
    ensures order { FilesStandInOneOrder }
    ensures stands { AnsweredGroupsStand }
{}

/// There is a group that comes to a sound store, with a file that no kept view has, and leads to one.
pub fn groups_may_come()
    ensures { GroupsMayCome }
{}
