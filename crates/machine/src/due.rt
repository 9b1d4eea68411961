// Whether an application may start.
use identity::Version;

/// What stands before a start of an installed application.
#[derive(Clone, Copy, Debug, PartialEq, Eq)]
pub enum Due {
    /// Its version is below its minimum, which is this one.
    Required {
        minimum: Version,
    },
    /// It is to be checked before each start, and no install or check came since the last one.
    CheckFirst,
    /// This newer version is offered, which the user neither skipped nor went back from.
    Offered {
        version: Version,
    },
    /// Nothing.
    Clear {
        /// Whether the time for its next check has come.
        check_due: bool,
    },
}
