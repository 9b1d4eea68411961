// A folder of the file system.
ghost use Rattle.std.specs.Prelude.{◌≡◌, ◌≤◌, ◌+◌, ◌++◌, List, [], true, length, min, Some, None, Ok, IfOk, IfErr, IfSome, OnOk, OnErr, if◌then◌else◌};
ghost use Rattle.std.proofs.Common.{refl};
ghost use Rattle.folders.specs.Files.{file_in, distinct, IsNames, Puts};
ghost use Rattle.folders.specs.Folder.{FailsCounted};
ghost use Rattle.folders.specs.Found.{Finds, IsUnread, IsWithin};
ghost use Rattle.folders.specs.Told.{told_file, told_into, told_list, told_put, told_within};
ghost use Rattle.folders.specs.declared.folder.FolderFault.TheVariants.{Failed};
ghost use Rattle.folders.specs.declared.folder.Found.TheVariants.{Whole};
ghost use Rattle.folders.specs.declared.folder.Held.{Held};

use crate::counted::raise;
use crate::folder_get::get_file;
use crate::folder_list::list_files;
use crate::folder_put::put_file;
use crate::folder_told::FolderTold;
use crate::reason::{Reason, keep};
use folders::{Folder, FolderFault, Found};
use small_types::{Bytes, List, Name};
use std::alloc::Global;
use std::fs::File;
use std::io;
use std::io::ErrorKind;
use std::mem::replace;
use std::rt::Files;

// The fault that an error is. The system's own want of memory is a fault of the folder, and keeps its number. Else want of
// memory is that of the program. Where it is not, the first reason is kept.
fn fault_of(why: &mut Option<Reason>, error: io::Error) -> FolderFault {
    match error.kind() {
        ErrorKind::OutOfMemory if error.raw_os_error().is_none() => FolderFault::Memory,
        _ => {
            let _ = keep(why, error);
            FolderFault::Failed
        }
    }
}

// What a call gave, or its fault.
fn kept<T: Drop>(why: &mut Option<Reason>, done: io::Result<T>) -> Result<T, FolderFault>
    ensures { IfOk result (λ value. done ≡ Ok value) }
{
    match done {
        Ok(value) => Ok(value),
        Err(error) => Err(fault_of(why, error)),
    }
}

// Whether a file was read. One that is too long for that fails.
fn read_whole(found: Found) -> io::Result<bool>
    ensures { IfOk result (λ whole. whole ≡ true → found ≡ Whole) }
{
    match found {
        Found::Whole => Ok(true),
        Found::Nothing => Ok(false),
        Found::TooLong { .. } => Err(io::Error::new(
            ErrorKind::FileTooLarge,
            "a file in it is too long to be read at once",
        )),
    }
}

// Counts a call that failed, and none for which there was no memory.
fn counted<T: Drop>(faults: &mut u64, done: Result<T, FolderFault>) -> Result<T, FolderFault>
    ensures result { result ≡ done }
    ensures cause { FailsCounted faults.old faults.new result }
    ensures raised { IfErr result
        (λ e. e ≡ Failed → faults.new ≡ min (faults.old + 1) 0xffff_ffff_ffff_ffff) }
{
    if let Err(FolderFault::Failed) = done {
        raise(faults);
    }
    done
}

/// A folder of the file system and all folders below it, over a runtime's files. It tells no
/// content. Names have `/` between their parts. It follows no symbolic link below the folder: a
/// call that meets one fails, and so does one that meets anything else that is neither a file nor a
/// folder. Whether a link stands at a part of a path is looked at before the path is used, so that
/// a link which another process makes between the two may be followed.
///
/// It keeps a record of its calls with their answers, which only clauses see. Each call notes exactly what it answered;
/// one of a listing or a reading that failed notes nothing. What the files are follows from that, as long as the answers
/// are those of a folder whose files nobody else changes (`FolderIsHonest`).
#[derive(Drop)]
pub struct RealFolder<R: Files<File = File> + AllocGlobal + Clone + Drop> {
    rt: R,
    path: String,
    last: Option<String>,
    told: FolderTold,
    faults: u64,
    why: Option<Reason>,
}

impl<R: Files<File = File> + AllocGlobal + Clone + Drop> RealFolder<R> {
    ghost use Rattle.outside_real.specs.RealFolder.{real_answers, real_faults};

    /// The folder at this path, which is looked at by each call and not before. At an empty path each call fails, and
    /// where no folder stands only the readings do not: they find nothing.
    pub fn new(rt: R, path: String) -> RealFolder<R>
        ensures faults { real_faults result ≡ 0 }
        ensures answers { real_answers result ≡ [] }
    {
        RealFolder {
            rt,
            path,
            last: None,
            told: FolderTold::new(),
            faults: 0,
            why: None,
        }
    }

    /// The path of the folder.
    pub fn path(&self) -> &str {
        self.path.as_str()
    }

    /// Why the first call that failed did, those aside for which there was no memory.
    pub fn why(&self) -> Option<&Reason> {
        self.why.as_ref()
    }

    // Puts the bytes of the file of this name in place of those of the buffer, in its memory where that is enough.
    fn read(
        &mut self,
        alloc: Global,
        name: &Name,
        limit: u64,
        into: &mut Bytes,
    ) -> Result<Found, FolderFault>
        ensures within { IfOk result (IsWithin limit into.new) }
        ensures unread { IfOk result (IsUnread into.old into.new) }
        ensures answers { real_answers self.new ≡ real_answers self.old }
        ensures faults { real_faults self.new ≡ real_faults self.old }
    {
        let mut bytes = replace(into, Bytes::from_vec(Vec::new(alloc))).into_vec();
        let path = self.path.as_str();
        let done = get_file(&self.rt, alloc, path, name.as_str(), limit, &mut bytes);
        *into = Bytes::from_vec(bytes);
        kept(&mut self.why, done)
    }

    // The same without a limit of the caller.
    fn read_at_once(
        &mut self,
        alloc: Global,
        name: &Name,
        into: &mut Bytes,
    ) -> Result<bool, FolderFault>
        ensures answers { real_answers self.new ≡ real_answers self.old }
        ensures faults { real_faults self.new ≡ real_faults self.old }
    {
        let found = self.read(alloc, name, u64::MAX, into)?;
        kept(&mut self.why, read_whole(found))
    }

    // The bytes of the file of this name.
    fn read_new(&mut self, alloc: Global, name: &Name) -> Result<Option<Bytes>, FolderFault>
        ensures answers { real_answers self.new ≡ real_answers self.old }
        ensures faults { real_faults self.new ≡ real_faults self.old }
    {
        let mut bytes = Bytes::from_vec(Vec::new(alloc));
        if self.read_at_once(alloc, name, &mut bytes)? {
            Ok(Some(bytes))
        } else {
            Ok(None)
        }
    }
}

// Each method makes a call of the folder and then notes it with its answer.
impl<R: Files<File = File> + AllocGlobal + Clone + Drop> Folder for RealFolder<R> {
    ghost use Rattle.outside_real.specs.RealFolder.{FolderIsHonest, OnlyLooks, real_answers, real_faults, real_files};

    ghost tells = { ⊥ };

    ghost held = { λ _. [] };

    ghost count = { λ f. f.faults };

    ghost records = { Unit {0} };

    ghost answers = { λ f. f.told.answers.noted };

    ghost names_differ = { λ f told. refl };

    /// The names of the files, in byte order. It fails where a name is not UTF-8, holds a backslash or is no file
    /// name, of a folder too. Files whose names end in `:unfinished`, which are what `put` left where it was stopped,
    /// are passed over.
    fn list(&mut self, alloc: Global) -> Result<List<Name>, FolderFault>
        ensures noted { real_answers self.new ≡ real_answers self.old ++ told_list result }
        ensures names { (files : List Held) → FolderIsHonest files self.new
            → IfOk result (IsNames (real_files files self.old)) }
        ensures looks { OnlyLooks self.old self.new }
        ensures cause { FailsCounted (real_faults self.old) (real_faults self.new) result }
    {
        let done = list_files(&self.rt, alloc, self.path.as_str());
        let done = kept(&mut self.why, done);
        self.told.list(&done);
        counted(&mut self.faults, done)
    }

    /// The bytes of the file of this name, or `None` where none stands there, as where a folder does. A file that becomes
    /// shorter while it is read fails.
    fn get(&mut self, alloc: Global, name: &Name) -> Result<Option<Bytes>, FolderFault>
        ensures noted { real_answers self.new ≡ real_answers self.old ++ told_file name.now result }
        ensures found { (files : List Held) → FolderIsHonest files self.new
            → IfOk result (λ bytes. bytes ≡ file_in name.now (real_files files self.old)) }
        ensures looks { OnlyLooks self.old self.new }
        ensures cause { FailsCounted (real_faults self.old) (real_faults self.new) result }
    {
        let done = self.read_new(alloc, name);
        self.told.file(name, &done);
        counted(&mut self.faults, done)
    }

    /// Puts the bytes of the file of this name in place of those of the buffer, in its memory where that is enough.
    /// A file that becomes shorter while it is read fails.
    fn get_into(
        &mut self,
        alloc: Global,
        name: &Name,
        into: &mut Bytes,
    ) -> Result<bool, FolderFault>
        ensures noted { real_answers self.new ≡ real_answers self.old
            ++ told_into name.now into.new result }
        ensures found { (files : List Held) → FolderIsHonest files self.new
            → IfOk result (λ found. file_in name.now (real_files files self.old)
            ≡ (if found then Some into.new else None)) }
        ensures looks { OnlyLooks self.old self.new }
        ensures cause { FailsCounted (real_faults self.old) (real_faults self.new) result }
    {
        let done = self.read_at_once(alloc, name, into);
        self.told.buffer(name, into, done);
        counted(&mut self.faults, done)
    }

    /// The same for a file of at most `limit` bytes. Of a longer one its length is asked, and no room is had for it.
    fn get_within(
        &mut self,
        alloc: Global,
        name: &Name,
        limit: u64,
        into: &mut Bytes,
    ) -> Result<Found, FolderFault>
        ensures noted { real_answers self.new ≡ real_answers self.old
            ++ told_within name.now into.new result }
        ensures found { (files : List Held) → FolderIsHonest files self.new
            → IfOk result (Finds (file_in name.now (real_files files self.old)) into.new) }
        ensures within { IfOk result (IsWithin limit into.new) }
        ensures unread { IfOk result (IsUnread into.old into.new) }
        ensures looks { OnlyLooks self.old self.new }
        ensures cause { FailsCounted (real_faults self.old) (real_faults self.new) result }
    {
        let done = self.read(alloc, name, limit, into);
        self.told.within(name, into, done);
        counted(&mut self.faults, done)
    }

    /// Makes these bytes the file of this name, and the folders that it wants. They are written
    /// beside it under its name with `:unfinished` behind it, locked from others, and made durable,
    /// before the file gets its name, so that a stop leaves the file as it was or as it is to be. A
    /// file that comes to stand there in the meantime is never replaced, where the file system has
    /// hard links; one that stood there before is. An entry is made durable at once where it is the
    /// first in its folder since a file went elsewhere or where it replaces one; else before a file
    /// goes to another folder. A call that fails may leave new folders, and else leaves what stood;
    /// but where the file system has no hard links, a file is replaced though its entry cannot be
    /// made durable and the call fails.
    fn put(&mut self, name: &Name, bytes: &[u8]) -> Result<(), FolderFault>
        ensures noted { real_answers self.new ≡ real_answers self.old
            ++ told_put name.now bytes.now result }
        ensures put { (files : List Held) → OnOk result
            (Puts (real_files files self.old) (real_files files self.new) name.now bytes.now) }
        ensures kept { (files : List Held) → OnErr result
            (real_files files self.new ≡ real_files files self.old) }
        ensures told { (files : List Held) → FolderIsHonest files self.new
            → FolderIsHonest files self.old }
        ensures cause { FailsCounted (real_faults self.old) (real_faults self.new) result }
    {
        let alloc = self.rt.alloc();
        let path = self.path.as_str();
        let done = put_file(&self.rt, alloc, path, &mut self.last, name.as_str(), bytes);
        let done = kept(&mut self.why, done);
        self.told.put(name, bytes, done);
        counted(&mut self.faults, done)
    }

    fn faults(&self) -> u64 {
        self.faults
    }
}
