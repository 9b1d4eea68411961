// What manifests say.

use digest_list::DigestList;
use identity::{Identity, Version};
use small_types::{CopyFault, Duplicate, List, Name, Text};
use std::alloc::Global;

/// When a new version is looked for.
#[derive(Clone, Copy, Debug, PartialEq, Eq)]
pub enum Rule {
    /// Never.
    Never,
    /// Before each start.
    Before,
    /// Where the last look is so many seconds ago.
    Age { seconds: u64 },
}

/// A file of an application.
#[derive(Drop, Debug, PartialEq, Eq)]
pub struct FileEntry {
    /// Its name, with `/` between parts.
    pub name: Name,
    /// Its length in bytes, at most 268,435,456, and of a data file at most 1,048,576.
    pub size: u64,
    /// Its digests.
    pub list: DigestList,
    /// The group that it is fetched with; a file without one is fetched when the application is installed.
    pub group: Option<Text>,
    /// Whether it is a data file, of which each version has its own.
    pub local: bool,
}

impl Duplicate for FileEntry {
    fn copy(&self, alloc: Global) -> Result<Self, CopyFault> {
        Ok(FileEntry {
            name: self.name.copy(alloc)?,
            size: self.size,
            list: self.list.copy(alloc)?,
            group: self.group.copy(alloc)?,
            local: self.local,
        })
    }
}

/// What a deployment manifest says.
#[derive(Drop, Debug, PartialEq, Eq)]
pub struct Deployment {
    pub identity: Identity,
    /// Whether the application is installed. An application that is only run online is refused.
    pub install: bool,
    /// The least version that may run, at most the version.
    pub minimum: Option<Version>,
    /// Whether the names of files on the server end in `.deploy`.
    pub mapped: bool,
    pub rule: Rule,
    /// The address that updates come from.
    pub provider: Option<Text>,
    /// The address of the application manifest, to be joined to that of the deployment manifest.
    pub codebase: Text,
    /// The identity of the application manifest.
    pub app: Identity,
    /// The length of the application manifest in bytes, at most 4,194,304.
    pub app_size: u64,
    /// Its digests.
    pub app_list: DigestList,
}

impl Duplicate for Deployment {
    fn copy(&self, alloc: Global) -> Result<Self, CopyFault> {
        let provider = self.provider.copy(alloc)?;
        let codebase = self.codebase.copy(alloc)?;
        let app_list = self.app_list.copy(alloc)?;
        let identity = self.identity.copy(alloc)?;
        let app = match self.app.copy(alloc) {
            Ok(app) => app,
            Err(fault) => {
                drop(identity);
                return Err(fault);
            }
        };
        Ok(Deployment {
            identity,
            install: self.install,
            minimum: self.minimum,
            mapped: self.mapped,
            rule: self.rule,
            provider,
            codebase,
            app,
            app_size: self.app_size,
            app_list,
        })
    }
}

/// What an application manifest says.
#[derive(Drop, Debug, PartialEq, Eq)]
pub struct Application {
    pub identity: Identity,
    /// The file that is started.
    pub entry: Text,
    /// What it is started with.
    pub parameters: Text,
    /// At most 16,384 files, of names that differ.
    pub files: List<FileEntry>,
}

impl Duplicate for Application {
    fn copy(&self, alloc: Global) -> Result<Self, CopyFault> {
        let entry = self.entry.copy(alloc)?;
        let parameters = self.parameters.copy(alloc)?;
        let files = self.files.copy(alloc)?;
        Ok(Application {
            identity: self.identity.copy(alloc)?,
            entry,
            parameters,
            files,
        })
    }
}

/// A deployment and its application, as their manifests were read together.
#[derive(Drop, Debug, PartialEq, Eq)]
pub struct Release {
    pub deployment: Deployment,
    pub application: Application,
}

impl Duplicate for Release {
    fn copy(&self, alloc: Global) -> Result<Self, CopyFault> {
        let deployment = self.deployment.copy(alloc)?;
        match self.application.copy(alloc) {
            Ok(application) => Ok(Release {
                deployment,
                application,
            }),
            Err(fault) => {
                drop(deployment);
                Err(fault)
            }
        }
    }
}
