// What a line answers.
use crate::{LineFault, ListRow, ShowRow};
use causes::Cause;
use identity::{Key, Version};
use manifest_parts::ManifestFault;
use manifests::ReleaseFault;
use small_types::{Bytes, Limit, List, Target};

/// The answer of a line.
#[derive(Drop, Debug, PartialEq, Eq)]
pub enum Reply {
    /// The session's moment from the next line on.
    At {
        now: u64,
    },
    /// The minimum that holds after the line.
    Minimum {
        version: Version,
    },
    /// This version of the application is installed, as the view of this number.
    Installed {
        key: Key,
        version: Version,
        view: u64,
    },
    /// The version that is offered, where the heard one is above the current one, and the minimum that holds after
    /// the line.
    Checked {
        offer: Option<Version>,
        minimum: Option<Version>,
    },
    /// The offer that is not wanted.
    Skipped {
        version: Version,
    },
    /// The version that is current from then on.
    Current {
        version: Version,
    },
    /// A new lease on a view of this version, and whether the time for the next check has come.
    Lease {
        lease: u64,
        version: Version,
        check_due: bool,
    },
    /// The length of the file in bytes, and those that were asked for.
    Read {
        length: u64,
        bytes: Bytes,
    },
    /// The data file has the bytes that were given.
    Put,
    /// The data file is gone.
    Removed,
    /// The number of files of the group, which stands in the leased view.
    Group {
        files: u64,
    },
    /// The lease is gone.
    Finished {
        lease: u64,
    },
    /// The number of views that are gone.
    Cleaned {
        views: u64,
    },
    /// A row for each application, in order of their printed keys.
    Listed {
        rows: List<ListRow>,
    },
    /// What is known of the application.
    Shown {
        row: ShowRow,
    },
    /// The application has no current view; or, where it is to be shown, it is not known.
    NotInstalled,
    /// No lease has the number.
    NoLease,
    /// No program file of the leased view's release has the group.
    NoGroup,
    /// The application has no previous view.
    NoPrevious,
    /// No version is offered.
    NothingOffered,
    /// No program file of that name stands in the leased view, or it has no such data file.
    NoFile,
    /// No data file can be put under the name: its first part is `.pre`, or it has more than 235 bytes.
    BadName,
    /// The application is to be checked before each start, and no install or check came since the last one.
    CheckFirst,
    /// The minimum of the application, below which its current version is.
    Required {
        minimum: Version,
    },
    /// A newer version that is offered, which the user neither skipped nor went back from.
    Offered {
        version: Version,
    },
    /// There are as many leases as may be, which is 1,024.
    LeasesFull,
    /// The version that is current, which the heard one is not above.
    NotNewer {
        have: Version,
    },
    /// The minimum of the application, below which the version is that would become current.
    BelowMinimum {
        minimum: Version,
    },
    /// The line would take a count above its limit.
    TooMany {
        what: Limit,
        limit: u64,
    },
    /// The number that is next, which is the greatest there may be, so that none is left to give.
    Spent {
        next: u64,
    },
    /// The blocks that the line needs, and those that are free, which are fewer.
    Full {
        need: u64,
        free: u64,
    },
    /// What the tables would weigh after the line, and what they may weigh, which is less.
    TableFull {
        weight: u64,
        room: u64,
    },
    /// No link gave the target: one cause for each link, in their order.
    AllLinks {
        target: Target,
        causes: List<Cause>,
    },
    /// Why a manifest is refused.
    Manifest {
        fault: ManifestFault,
    },
    /// Why the two manifests are not those of one release.
    Release {
        fault: ReleaseFault,
    },
    /// The key of the manifest that was heard, which is another one than that of the line.
    IdentityDiffers {
        found: Key,
    },
    /// An address that is no URL within its limit, or that names no host.
    BadUrl,
    /// An address of another scheme than `http`.
    NotHttp,
    /// The line is no command.
    Line {
        fault: LineFault,
    },
    /// The line found no memory. It changed nothing.
    Memory,
}
