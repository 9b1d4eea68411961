// A folder in memory none of whose calls fail.
ghost use Rattle.std.specs.Prelude.{◌≡◌, List, [], IfOk, OnOk, OnErr};
ghost use Rattle.folders.specs.declared.folder.Held.{Held};
ghost use Rattle.folders.specs.Files.{file_in, IsNames, Puts};
ghost use Rattle.folders.specs.Folder.{FailsCounted};
ghost use Rattle.folders.specs.MemFolder.{folder_failing, folder_held};
ghost use Rattle.folders.specs.Found.{Finds, IsWithin};

use folders::{Folder, FolderFault, Found, Held, MemFolder};
use small_types::{Bytes, List, Name};
use std::alloc::Global;

/// A folder in memory none of whose calls fail. They may still find no memory.
#[derive(Drop)]
pub(crate) struct SureFolder {
    folder: MemFolder,
    ghost works: { folder_failing folder ≡ [] },
}

impl SureFolder {
    ghost use Rattle.folders.specs.Files.{distinct};
    ghost use Rattle.generated_release.specs.SureFolder.{sure_held};
    ghost use Rattle.std.specs.Prelude.{true};

    /// A folder of these files, whose names differ. It takes no memory.
    pub(crate) fn new(alloc: Global, files: List<Held>) -> SureFolder
        requires { distinct files ≡ true }
        ensures { sure_held result ≡ files }
    {
        SureFolder {
            folder: MemFolder::new(alloc, files, List::from_vec(Vec::new(alloc))),
        }
    }

    /// The folder in memory.
    pub(crate) fn into_folder(self) -> MemFolder
        ensures held { folder_held result ≡ sure_held self }
        ensures works { folder_failing result ≡ [] }
    {
        self.folder
    }
}

impl Folder for SureFolder {
    ghost tells = { Unit {0} };

    ghost held = { λ f. folder_held f.folder };

    ghost count = { λ _. 0 };

    ghost records = { ⊥ };

    ghost answers = { λ _. [] };

    fn list(&mut self, alloc: Global) -> Result<List<Name>, FolderFault> {
        self.folder.list(alloc)
    }

    fn get(&mut self, alloc: Global, name: &Name) -> Result<Option<Bytes>, FolderFault> {
        self.folder.get(alloc, name)
    }

    fn get_within(
        &mut self,
        alloc: Global,
        name: &Name,
        limit: u64,
        into: &mut Bytes,
    ) -> Result<Found, FolderFault> {
        self.folder.get_within(alloc, name, limit, into)
    }

    fn put(&mut self, name: &Name, bytes: &[u8]) -> Result<(), FolderFault> {
        self.folder.put(name, bytes)
    }

    fn faults(&self) -> u64 {
        0
    }

    ghost names_differ = { λ f told. f.folder.differ };
}
