// A folder in memory.
ghost use Rattle.std.specs.Prelude.{◌≡◌, ◌≤◌, [], true, not, find, filter, vec_len, vec_capacity, Err, IfOk, OnOk, OnErr};
ghost use Rattle.std.specs.List.{list_any};
ghost use Rattle.std.specs.Option.{option_copied};
ghost use Rattle.folders.specs.declared.folder.FolderFault.TheVariants.{Failed, Memory};
ghost use Rattle.folders.specs.Files.{is_named, file_in, names_of, distinct, IsNames, Puts};
ghost use Rattle.folders.specs.Folder.{FailsCounted};
ghost use Rattle.folders.specs.Found.{Finds, IsUnread, IsWithin};

use crate::{Folder, FolderFault, Found, Held};
use outside::FailingCalls;
use small_types::{Bytes, Duplicate, List, Name};
use std::alloc::Global;
use std::mem::replace;

// Whether a file has this name.
fn has_file(files: &[Held], name: &Name) -> bool
    ensures { result ≡ list_any (is_named name.now) files.now }
{
    files.iter().any(|file| has_name(file, name))
}

/// Whether the names of the files differ.
pub fn are_distinct(files: &[Held]) -> bool
    ensures { result ≡ distinct files.now }
{
    match files.split_first() {
        None => true,
        Some((first, rest)) => !has_file(rest, &first.name) && are_distinct(rest),
    }
}

// Whether the file has this name.
fn has_name(file: &Held, name: &Name) -> bool
    ensures { result ≡ is_named name.now file.now }
{
    file.name == *name
}

// The file of this name.
fn find_file<'a>(files: &'a [Held], name: &Name) -> Option<&'a Held>
    ensures { option_copied result ≡ find (is_named name.now) files.now }
{
    files.iter().find(|file| has_name(file, name))
}

// Drops the file of this name, if there is one.
fn drop_file(files: &mut Vec<Held>, name: &Name)
    ensures items { files.new.items
        ≡ filter (λ file. not (is_named name.now file)) files.old.items }
    ensures shorter { vec_len files.new ≤ vec_len files.old }
    ensures capacity { vec_capacity files.new ≡ vec_capacity files.old }
{
    files.retain(|file| !has_name(file, name));
}

// Copies of the names of the files.
fn copied_names(alloc: Global, files: &[Held]) -> Result<Vec<Name>, FolderFault>
    ensures names { IfOk result (λ names. names.items ≡ names_of files.now) }
    ensures memory { OnErr result (result ≡ Err Memory) }
{
    let mut made = Vec::new(alloc);
    for file in files {
        made.push(file.name.copy(alloc)?)?;
    }
    Ok(made)
}

// Puts the file in place of one of its name, if there is memory. Else nothing changes.
fn replace_file(files: &mut Vec<Held>, file: Held) -> Result<(), FolderFault>
    ensures put { OnOk result (Puts files.old.items files.new.items file.name file.bytes) }
    ensures differ { distinct files.old.items ≡ true → distinct files.new.items ≡ true }
    ensures err { OnErr result (files.new.items ≡ files.old.items) }
    ensures memory { OnErr result (result ≡ Err Memory) }
{
    files.reserve(1)?;
    drop_file(files, &file.name);
    files.push_reserved(file);
    Ok(())
}

/// Files in memory. Its calls whose numbers, counted from 1, the list `failing` has are to fail. A
/// call for which it finds no memory answers `Memory`.
#[derive(Drop, Debug)]
pub struct MemFolder {
    alloc: Global,
    files: List<Held>,
    failing: FailingCalls,
    ghost differ: { distinct files ≡ true },
}

impl MemFolder {
    ghost use Rattle.folders.specs.MemFolder.{folder_held, folder_faults, folder_failing, folder_calls, CountsCall};

    /// A folder of these files, whose names differ: `are_distinct` tells. It takes no memory.
    pub fn new(alloc: Global, files: List<Held>, failing: List<u64>) -> MemFolder
        requires { distinct files ≡ true }
        ensures held { folder_held result ≡ files }
        ensures faults { folder_faults result ≡ 0 }
        ensures failing { folder_failing result ≡ failing }
        ensures calls { folder_calls result ≡ 0 }
    {
        MemFolder {
            alloc,
            files,
            failing: FailingCalls::new(failing),
        }
    }

    /// What stands in it.
    pub fn files(&self) -> &List<Held>
        ensures { result.now ≡ folder_held self.now }
    {
        &self.files
    }

    // Counts a call, which fails where its number is in the list.
    fn begin(&mut self) -> Result<(), FolderFault>
        ensures failed { OnErr result (result ≡ Err Failed) }
        ensures counted { CountsCall self.old self.new result }
        ensures cause { FailsCounted (folder_faults self.old) (folder_faults self.new) result }
        ensures held { folder_held self.new ≡ folder_held self.old }
    {
        if self.failing.next() {
            self.failing.fail();
            return Err(FolderFault::Failed);
        }
        Ok(())
    }

    // Puts a copy of the bytes under the name, if there is memory. Else nothing changes.
    fn put_copy(&mut self, name: &Name, bytes: &[u8]) -> Result<(), FolderFault>
        ensures put { OnOk result
            (Puts (folder_held self.old) (folder_held self.new) name.now bytes.now) }
        ensures kept { OnErr result (folder_held self.new ≡ folder_held self.old) }
        ensures memory { OnErr result (result ≡ Err Memory) }
        ensures uncounted { self.new.failing ≡ self.old.failing }
    {
        let file = Held {
            name: name.copy(self.alloc)?,
            bytes: Bytes::from_slice(self.alloc, bytes)?,
        };
        let empty = List::from_vec(Vec::new(self.alloc));
        let mut files = replace(&mut self.files, empty).into_vec();
        let done = replace_file(&mut files, file);
        self.files = List::from_vec(files);
        done
    }
}

impl Folder for MemFolder {
    ghost use Rattle.folders.specs.MemFolder.{folder_held, folder_faults, folder_failing, folder_calls, CountsCall, KeepsBuffer};

    ghost tells = { Unit {0} };

    ghost held = { λ f. f.files };

    ghost count = { λ f. f.failing.faults };

    ghost records = { ⊥ };

    ghost answers = { λ _. [] };

    fn list(&mut self, alloc: Global) -> Result<List<Name>, FolderFault>
        ensures names { IfOk result (IsNames (folder_held self.old)) }
        ensures kept { folder_held self.new ≡ folder_held self.old }
        ensures cause { FailsCounted (folder_faults self.old) (folder_faults self.new) result }
        ensures counted { CountsCall self.old self.new result }
    {
        self.begin()?;
        let mut names = copied_names(alloc, self.files.as_slice())?;
        names.sort_unstable();
        Ok(List::from_vec(names))
    }

    fn get(&mut self, alloc: Global, name: &Name) -> Result<Option<Bytes>, FolderFault>
        ensures found { IfOk result (λ bytes. bytes ≡ file_in name.now (folder_held self.old)) }
        ensures kept { folder_held self.new ≡ folder_held self.old }
        ensures cause { FailsCounted (folder_faults self.old) (folder_faults self.new) result }
        ensures counted { CountsCall self.old self.new result }
    {
        self.begin()?;
        let Some(file) = find_file(self.files.as_slice(), name) else {
            return Ok(None);
        };
        Ok(Some(file.bytes.copy(alloc)?))
    }

    fn get_within(
        &mut self,
        alloc: Global,
        name: &Name,
        limit: u64,
        into: &mut Bytes,
    ) -> Result<Found, FolderFault>
        ensures found { IfOk result
            (Finds (file_in name.now (folder_held self.old)) into.new) }
        ensures within { IfOk result (IsWithin limit into.new) }
        ensures unread { IfOk result (IsUnread into.old into.new) }
        ensures buffer { KeepsBuffer into.old into.new result }
        ensures kept { folder_held self.new ≡ folder_held self.old }
        ensures cause { FailsCounted (folder_faults self.old) (folder_faults self.new) result }
        ensures counted { CountsCall self.old self.new result }
    {
        self.begin()?;
        let Some(file) = find_file(self.files.as_slice(), name) else {
            return Ok(Found::Nothing);
        };
        let length = file.bytes.as_slice().len() as u64;
        if length > limit {
            return Ok(Found::TooLong { length });
        }
        *into = file.bytes.copy(alloc)?;
        Ok(Found::Whole)
    }

    fn put(&mut self, name: &Name, bytes: &[u8]) -> Result<(), FolderFault>
        ensures put { OnOk result
            (Puts (folder_held self.old) (folder_held self.new) name.now bytes.now) }
        ensures kept { OnErr result (folder_held self.new ≡ folder_held self.old) }
        ensures cause { FailsCounted (folder_faults self.old) (folder_faults self.new) result }
        ensures counted { CountsCall self.old self.new result }
    {
        self.begin()?;
        self.put_copy(name, bytes)
    }

    fn faults(&self) -> u64 {
        self.failing.faults
    }

    ghost names_differ = { λ f told. f.differ };
}
