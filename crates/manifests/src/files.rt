// The files that were read so far.
ghost use Rattle.std.specs.Prelude.{◌≡◌, ◌++◌, ◌∷◌, [], IfOk, IfErr, length};
ghost use Rattle.manifests.specs.Applications.{is_taken, locals};

use crate::FileEntry;
use manifest_parts::ManifestFault;
use small_types::{List, Name};
use std::alloc::Global;
use std::collections::BTreeSet;
use std::marker::Model;

/// Files in order, with their names in a set and the number of data files. Contracts see the list of them.
#[derive(Drop)]
pub(crate) struct Files {
    entries: Vec<FileEntry>,
    names: BTreeSet<String>,
    data_files: usize,
}

impl Model for Files {
    ghost use Rattle.std.specs.Prelude.{List};
    ghost use Rattle.manifests.specs.declared.facts.FileEntry.{FileEntry};
    ghost use Rattle.manifests.specs.Files.{AreKnown};

    ghost Value = { List FileEntry };

    ghost view = { λ f. f.entries.items };

    ghost invariant = { λ f. AreKnown f.entries.items f.names f.data_files };
}

// How many data files the file is.
fn one_if_data(entry: &FileEntry) -> usize
    ensures { result ≡ locals (entry.now ∷ []) }
{
    if entry.local { 1 } else { 0 }
}

impl Files {
    /// No files.
    pub(crate) fn new(alloc: Global) -> Files
        ensures { result ≡ [] }
    {
        Files {
            entries: Vec::new(alloc),
            names: BTreeSet::new(alloc),
            data_files: 0,
        }
    }

    /// Whether one of them has the name.
    pub(crate) fn has(&self, name: &Name) -> bool
        ensures { result ≡ is_taken self.now name.now }
    {
        self.names.contains(name.as_str())
    }

    /// How many there are.
    pub(crate) fn count(&self) -> usize
        ensures { result ≡ length self.now }
    {
        self.entries.len()
    }

    /// How many of them are data files.
    pub(crate) fn count_data(&self) -> usize
        ensures { result ≡ locals self.now }
    {
        self.data_files
    }

    /// These files and one more.
    pub(crate) fn with(self, alloc: Global, entry: FileEntry) -> Result<Files, ManifestFault>
        ensures added { IfOk result (λ files. files ≡ self ++ entry ∷ []) }
        ensures memory { IfErr result (λ e. e ≡ ManifestFault.Memory) }
    {
        let Files {
            mut entries,
            mut names,
            data_files,
        } = self;
        let name = String::from_str(alloc, entry.name.as_str())?;
        names.insert(name)?;
        let data_files = data_files + one_if_data(&entry);
        entries.push(entry)?;
        Ok(Files {
            entries,
            names,
            data_files,
        })
    }

    /// The files.
    pub(crate) fn into_list(self) -> List<FileEntry>
        ensures { result ≡ self }
    {
        let Files { entries, .. } = self;
        List::from_vec(entries)
    }
}
