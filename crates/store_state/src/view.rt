// What the tables have of views and of their files.
ghost use Rattle.std.specs.Prelude.{◌≡◌, ◌≢◌, ◌↔◌, [], List, IfOk, IsTrue, bytes_eq};
ghost use Rattle.std.specs.List.{list_any};
ghost use Rattle.std.specs.Option.{option_copied};
ghost use Rattle.manifests.specs.declared.facts.FileEntry.{FileEntry};
ghost use Rattle.machine.specs.Groups.{group_files, group_stands, is_in};
ghost use Rattle.store_state.specs.Locals.{local_named, outside_locals};

use crate::fields::count_outside;
use crate::local_files::find_local;
use digest_list::DigestList;
use manifests::{Application, Deployment, FileEntry};
use small_types::{CopyFault, Duplicate, List, Name, Target, Text};
use std::alloc::Global;

/// How the bytes of a file are held: the numbers of its blocks, in the order of its bytes.
pub type Stored = List<u32>;

/// What program files of one size and one list of digests share.
#[derive(Drop, Debug, PartialEq, Eq)]
pub struct Content {
    /// Its length in bytes.
    pub size: u64,
    pub list: DigestList,
    pub held: Stored,
}

impl Duplicate for Content {
    fn copy(&self, alloc: Global) -> Result<Self, CopyFault> {
        Ok(Content {
            size: self.size,
            list: self.list.copy(alloc)?,
            held: self.held.copy(alloc)?,
        })
    }
}

/// A data file of a view.
#[derive(Drop, Debug, PartialEq, Eq)]
pub struct LocalFile {
    pub name: Name,
    /// Its length in bytes.
    pub length: u64,
    pub held: Stored,
}

impl Duplicate for LocalFile {
    fn copy(&self, alloc: Global) -> Result<Self, CopyFault> {
        Ok(LocalFile {
            name: self.name.copy(alloc)?,
            length: self.length,
            held: self.held.copy(alloc)?,
        })
    }
}

/// A version that was installed.
#[derive(Drop, Debug, PartialEq, Eq)]
pub struct View {
    pub number: u64,
    pub deployment: Deployment,
    pub application: Application,
    /// The address of the application manifest.
    pub base: Target,
    /// The optional groups that stand, in the order in which they came.
    pub groups: List<Text>,
    /// The data files, in order of their names.
    pub locals: List<LocalFile>,
}

impl View {
    // Copies of its manifests.
    fn copy_manifests(&self, alloc: Global) -> Result<(Deployment, Application), CopyFault>
        ensures { IfOk result (λ made. (made.0 ≡ self.now.deployment)
            × (made.1 ≡ self.now.application)) }
    {
        let deployment = self.deployment.copy(alloc)?;
        match self.application.copy(alloc) {
            Ok(application) => Ok((deployment, application)),
            Err(CopyFault::Memory) => {
                drop(deployment);
                Err(CopyFault::Memory)
            }
        }
    }

    // Copies of its address, its groups and its data files.
    fn copy_files(&self, alloc: Global) -> Result<(Target, List<Text>, List<LocalFile>), CopyFault>
        ensures { IfOk result (λ made. (made.0 ≡ self.now.base) × (made.1 ≡ self.now.groups)
            × (made.2 ≡ self.now.locals)) }
    {
        let base = self.base.copy(alloc)?;
        let groups = self.groups.copy(alloc)?;
        Ok((base, groups, self.locals.copy(alloc)?))
    }

    // The view of its number with these manifests, and with this address, these groups and these
    // data files.
    fn of_copies(
        &self,
        manifests: (Deployment, Application),
        files: (Target, List<Text>, List<LocalFile>),
    ) -> View
        ensures { result ≡ record self.now {
          deployment = manifests.0;
          application = manifests.1;
          base = files.0;
          groups = files.1;
          locals = files.2;
        } }
    {
        let (deployment, application) = manifests;
        let (base, groups, locals) = files;
        View {
            number: self.number,
            deployment,
            application,
            base,
            groups,
            locals,
        }
    }
}

impl Duplicate for View {
    fn copy(&self, alloc: Global) -> Result<Self, CopyFault> {
        let manifests = self.copy_manifests(alloc)?;
        match self.copy_files(alloc) {
            Ok(files) => Ok(self.of_copies(manifests, files)),
            Err(CopyFault::Memory) => {
                drop(manifests);
                Err(CopyFault::Memory)
            }
        }
    }
}

impl View {
    /// Whether the group stands.
    pub fn has_group(&self, group: &Text) -> bool
        ensures { result ≡ group_stands group.now self.now.groups }
    {
        is_one_of(self.groups.as_slice(), group)
    }

    /// The data file of that name.
    pub fn local(&self, name: &Name) -> Option<&LocalFile>
        ensures { option_copied result ≡ local_named name.now self.now.locals }
    {
        find_local(self.locals.as_slice(), name)
    }

    /// How many of its data files are outside `.pre`.
    pub fn outside_count(&self) -> usize
        ensures { result ≡ outside_locals self.now.locals }
    {
        count_outside(self.locals.as_slice())
    }

    /// Whether the application lists a program file of the group.
    pub fn lists_group(&self, group: &Text) -> bool
        ensures { IsTrue result
            ↔ ◌≢◌ {A = List FileEntry} (group_files group.now self.now.application) [] }
    {
        is_listed(self.application.files.as_slice(), group)
    }
}

/// Whether the file is a program file of the group.
pub fn is_in_group(entry: &FileEntry, group: &Text) -> bool
    ensures { result ≡ is_in group.now entry.now }
{
    match &entry.group {
        Some(other) => !entry.local && is_text(other, group),
        None => false,
    }
}

// Whether one of the files is.
fn is_listed(files: &[FileEntry], group: &Text) -> bool
    ensures { result ≡ list_any (is_in group.now) files.now }
{
    files.iter().any(|entry| is_in_group(entry, group))
}

// Whether the texts are equal.
fn is_text(text: &Text, other: &Text) -> bool
    ensures { result ≡ bytes_eq text.now other.now }
{
    text.as_bytes() == other.as_bytes()
}

// Whether the group is among them.
pub(crate) fn is_one_of(groups: &[Text], group: &Text) -> bool
    ensures { result ≡ list_any (bytes_eq group.now) groups.now }
{
    groups.iter().any(|other| is_text(group, other))
}
