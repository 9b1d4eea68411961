// What is true of the weight of tables, with no code.
ghost use Rattle.machine.specs.WeightLaws.{GroupsWeigh, InstallsWeigh, PutsWeigh, RequiresWeigh};

/// A law: what a refusal for want of room in the tables compares is what the tables of the store
/// weigh that the command leaves where it is not refused.
pub fn new_tables_are_weighed()
    ensures require { RequiresWeigh }
    ensures put { PutsWeigh }
    ensures group { GroupsWeigh }
    ensures install { InstallsWeigh }
{}
