// What is published, and what will be written.
use identity::Version;
use manifests::Rule;
use small_types::{List, Name, Text};

/// What a mark makes of a file.
#[derive(Drop, Debug, PartialEq, Eq)]
pub enum MarkKind {
    /// It is a data file, of which each version has its own.
    Local,
    /// It is fetched with this group.
    Group(Text),
}

/// A mark on a file.
#[derive(Drop, Debug, PartialEq, Eq)]
pub struct Mark {
    pub kind: MarkKind,
    /// The name of the file below the folder that is published.
    pub file: Name,
}

/// What is published, and how.
#[derive(Drop, Debug, PartialEq, Eq)]
pub struct Options {
    /// The name of the application.
    pub name: Text,
    /// The version that is published.
    pub version: Version,
    /// The file that is started, below the folder that is published.
    pub entry: Name,
    /// The folder that is published.
    pub from: Name,
    /// The folder that is written to.
    pub to: Name,
    /// Who publishes it.
    pub publisher: Text,
    /// The least version that may run afterwards.
    pub minimum: Option<Version>,
    /// When a new version is looked for.
    pub rule: Rule,
    /// The address that updates come from.
    pub provider: Option<Text>,
    /// Whether the names of written files end in `.deploy`.
    pub mapped: bool,
    /// The marks on files, in order.
    pub marks: List<Mark>,
}

/// A file that will be written.
#[derive(Drop, Debug, PartialEq, Eq)]
pub struct PlannedFile {
    /// The name of the file that is read.
    pub source: Name,
    /// Its name in the application, which is that below the folder that is published.
    pub file: Name,
    /// The name that it is written under.
    pub target: Name,
    /// The group that it is fetched with.
    pub group: Option<Text>,
    /// Whether it is a data file.
    pub local: bool,
}

/// What will be written.
#[derive(Drop, Debug, PartialEq, Eq)]
pub struct PublishPlan {
    /// The files, in byte order of their names.
    pub files: List<PlannedFile>,
    /// The name that the application manifest is written under.
    pub manifest: Name,
    /// The name that the deployment manifest is written under.
    pub deployment: Name,
}
