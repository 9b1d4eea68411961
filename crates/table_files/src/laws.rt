// What is true of what tables hold, with no code.
ghost use Rattle.table_files.specs.Laws.{ChangesKeepItems, HeldAreUsed};

/// A change that fits loses nothing and takes nothing twice: what the tables held and what it
/// brings are, in some order, what they hold then and what it lets go.
pub fn changes_keep_items()
    ensures { ChangesKeepItems }
{}

/// Tables hold as many blocks as their files take, where each file has as many as its length needs.
pub fn held_are_used()
    ensures { HeldAreUsed }
{}
