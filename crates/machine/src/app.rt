use identity::{Key, Version};
use small_types::Target;

/// What is known of an application.
#[derive(Drop, Debug, PartialEq, Eq)]
pub struct AppState {
    pub key: Key,
    /// The address that updates come from. An application with a current view has one.
    pub provider: Option<Target>,
    /// The number of the view that runs.
    pub current: Option<u64>,
    /// The number of the view that ran before it.
    pub previous: Option<u64>,
    /// The version below which it does not run.
    pub minimum: Option<Version>,
    /// A newer version that a check heard of.
    pub offer: Option<Version>,
    /// An offer that the user does not want.
    pub skipped: Option<Version>,
    /// The version from which the user went back.
    pub excluded: Option<Version>,
    /// The moment of the last check, in seconds.
    pub last_check: Option<u64>,
    /// Whether an install or a check came since the last start.
    pub checked: bool,
}
