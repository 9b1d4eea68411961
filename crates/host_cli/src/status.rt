// The statuses of a run, each once.

/// So many connections were accepted.
pub const STATUS_DONE: u8 = 0;

/// The words are others, and nothing is done.
pub const STATUS_WORDS: u8 = 1;

/// The door failed to accept a connection.
pub const STATUS_MISSED: u8 = 2;

/// There was no memory for the file that the last connection asks for.
pub const STATUS_MEMORY: u8 = 6;
