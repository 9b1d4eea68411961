// What replies show of applications.
use identity::{Key, Version};
use small_types::{Target, Text};

/// An application, as `list` shows it.
#[derive(Drop, Debug, PartialEq, Eq)]
pub struct ListRow {
    pub key: Key,
    /// The version of its current view.
    pub current: Option<Version>,
}

/// An application, as `show` shows it.
#[derive(Drop, Debug, PartialEq, Eq)]
pub struct ShowRow {
    pub key: Key,
    /// The version of its current view.
    pub current: Option<Version>,
    /// The version of its previous view.
    pub previous: Option<Version>,
    /// The version below which it does not run.
    pub minimum: Option<Version>,
    /// A newer version that a check heard of.
    pub offer: Option<Version>,
    /// An offer that the user does not want.
    pub skipped: Option<Version>,
    /// The version from which the user went back.
    pub excluded: Option<Version>,
    /// The moment of the last check, in seconds.
    pub last_check: Option<u64>,
    /// Whether an install or a check came since the last start.
    pub checked: bool,
    /// The file that its current view starts.
    pub entry: Option<Text>,
    /// The address that updates come from.
    pub provider: Option<Target>,
}
