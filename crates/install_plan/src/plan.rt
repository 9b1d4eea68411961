// What an install comes to.
use manifests::{Application, Deployment};
use small_types::{List, Target};

/// A file that an install fetches.
#[derive(Drop, Debug, PartialEq, Eq)]
pub struct WantedFile {
    /// Its place among the files of the application.
    pub place: usize,
    pub target: Target,
}

/// What an install comes to once its manifests are heard.
#[derive(Drop, Debug, PartialEq, Eq)]
pub struct InstallPlan {
    pub deployment: Deployment,
    pub application: Application,
    /// The address that was given.
    pub url: Target,
    /// The address of the application manifest.
    pub base: Target,
    /// The address that updates come from.
    pub provider: Target,
    /// The files that are fetched, in their order.
    pub wanted: List<WantedFile>,
}
