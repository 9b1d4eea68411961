// The numbers of the session that is shown.

/// The blocks of its store: one for each of the two contents that are installed.
pub const BLOCKS: u64 = 2;

/// The first number of the version that is installed first, which is the size of its file too.
pub const FIRST: u64 = 1;

/// The same of the version that is installed over it.
pub const SECOND: u64 = 2;

/// The same of the version that is offered then.
pub const THIRD: u64 = 3;
