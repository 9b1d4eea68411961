ghost use Rattle.std.specs.Prelude.{◌≡◌};
ghost use Rattle.updater_cli.specs.Status.{code_of};

/// How a run ends.
#[derive(Clone, Copy, Debug, PartialEq, Eq)]
pub(crate) enum Status {
    /// All was read and done.
    Done,
    /// The words are none that are known.
    Words,
    /// The source failed.
    SourceFault,
    /// The sink failed.
    SinkFault,
    /// The disk failed.
    DiskFault,
    /// The disk holds no store.
    NotAStore,
    /// There was no memory.
    Memory,
    /// There is more input than a session takes.
    TooMuchInput,
}

impl Status {
    /// The exit status of the program.
    pub fn code(self) -> u8
        ensures { result ≡ code_of self }
    {
        match self {
            Status::Done => 0,
            Status::Words => 1,
            Status::SourceFault => 2,
            Status::SinkFault => 3,
            Status::DiskFault => 4,
            Status::NotAStore => 5,
            Status::Memory => 6,
            Status::TooMuchInput => 8,
        }
    }
}
