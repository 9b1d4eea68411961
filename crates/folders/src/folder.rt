// Where files stand.
ghost use Rattle.std.specs.Prelude.{◌≡◌, ℕ, List, ◌++◌, true, Some, None, IfOk, OnOk, OnErr, if◌then◌else◌};
ghost use Rattle.folders.specs.declared.answer.FolderAnswer.{FolderAnswer};
ghost use Rattle.folders.specs.declared.folder.Held.{Held};
ghost use Rattle.folders.specs.declared.folder.FolderFault.TheVariants.{Memory};
ghost use Rattle.folders.specs.Files.{file_in, distinct, IsNames, Puts};
ghost use Rattle.folders.specs.Folder.{FailsCounted};
ghost use Rattle.folders.specs.Found.{Finds, IsUnread, IsWithin};
ghost use Rattle.folders.specs.Told.{told_file, told_into, told_list, told_put, told_within};

use small_types::{Bytes, CopyFault, List, Name};
use std::alloc::{AllocError, AllocFailed, Global};
use std::error::Error;
use std::fmt;

/// A file: its name and its bytes.
#[derive(Drop, Debug)]
pub struct Held {
    pub name: Name,
    pub bytes: Bytes,
}

/// Why a call on a folder failed.
#[derive(Clone, Copy, Debug, PartialEq, Eq)]
pub enum FolderFault {
    /// The folder failed: its count of faults rose.
    Failed,
    /// There was no memory for it. The count of faults stays.
    Memory,
}

impl fmt::Display for FolderFault {
    fn fmt<W: fmt::Write>(&self, f: &mut fmt::Formatter<W>) -> fmt::Result {
        match self {
            FolderFault::Failed => write!(f, "the folder failed"),
            FolderFault::Memory => write!(f, "out of memory"),
        }
    }
}

impl Error for FolderFault {}

impl From<AllocError> for FolderFault {
    ghost from_gives = { λ _ e. e ≡ Memory };

    fn from(_: AllocError) -> FolderFault {
        FolderFault::Memory
    }
}

impl<T: Drop> From<AllocFailed<T>> for FolderFault {
    ghost from_gives = { λ _ e. e ≡ Memory };

    fn from(_: AllocFailed<T>) -> FolderFault {
        FolderFault::Memory
    }
}

impl From<CopyFault> for FolderFault {
    ghost from_gives = { λ _ e. e ≡ Memory };

    fn from(_: CopyFault) -> FolderFault {
        FolderFault::Memory
    }
}

/// What a reading of at most so many bytes found.
#[derive(Clone, Copy, Debug, PartialEq, Eq)]
pub enum Found {
    /// There is no such file.
    Nothing,
    /// The file has at most so many bytes. They were read.
    Whole,
    /// It has more: so many. They were not read.
    TooLong { length: u64 },
}

/// Files by their names, which differ. One that tells says what stands in it. One that records says what its calls
/// answered, also where what stands in it is not known.
pub trait Folder {
    /// Whether it tells what stands in it.
    ghost tells: { Type 0 };

    /// What stands in it.
    ghost held: { Self → List Held };

    /// How often it failed.
    ghost count: { Self → ℕ };

    /// Whether it says what its calls answered.
    ghost records: { Type 0 };

    /// What they answered, the first first.
    ghost answers: { Self → List FolderAnswer };

    /// The names of the files, in byte order.
    fn list(&mut self, alloc: Global) -> Result<List<Name>, FolderFault>
        ensures names { tells → IfOk result (IsNames (held self.old)) }
        ensures kept { tells → held self.new ≡ held self.old }
        ensures noted { records → answers self.new ≡ answers self.old ++ told_list result }
        ensures cause { FailsCounted (count self.old) (count self.new) result };

    /// The bytes of the file of this name, or `None` exactly where there is none.
    fn get(&mut self, alloc: Global, name: &Name) -> Result<Option<Bytes>, FolderFault>
        ensures found { tells → IfOk result (λ bytes. bytes ≡ file_in name.now (held self.old)) }
        ensures kept { tells → held self.new ≡ held self.old }
        ensures noted { records → answers self.new ≡ answers self.old
            ++ told_file name.now result }
        ensures cause { FailsCounted (count self.old) (count self.new) result };

    /// Puts the bytes of the file of this name in place of those of the buffer, whose memory may serve
    /// for them. `false` comes exactly where there is no such file. After anything but `true` the buffer
    /// may have any bytes.
    fn get_into(
        &mut self,
        alloc: Global,
        name: &Name,
        into: &mut Bytes,
    ) -> Result<bool, FolderFault>
        ensures found { tells → IfOk result (λ found.
            file_in name.now (held self.old) ≡ (if found then Some into.new else None)) }
        ensures kept { tells → held self.new ≡ held self.old }
        ensures noted { records → answers self.new ≡ answers self.old
            ++ told_into name.now into.new result }
        ensures cause { FailsCounted (count self.old) (count self.new) result }
    {
        match self.get(alloc, name) {
            Ok(Some(bytes)) => {
                *into = bytes;
                Ok(true)
            }
            Ok(None) => Ok(false),
            Err(fault) => Err(fault),
        }
    }

    /// Puts the bytes of the file of this name in place of those of the buffer, as `get_into` does, where they are at
    /// most `limit`. A file of more bytes is not read, and no room is had for it: it answers how many they are. Where it
    /// answers that, or that there is none, the buffer is as it was, or empty; after an error it may have any bytes.
    fn get_within(
        &mut self,
        alloc: Global,
        name: &Name,
        limit: u64,
        into: &mut Bytes,
    ) -> Result<Found, FolderFault>
        ensures found { tells → IfOk result (Finds (file_in name.now (held self.old)) into.new) }
        ensures within { IfOk result (IsWithin limit into.new) }
        ensures unread { IfOk result (IsUnread into.old into.new) }
        ensures kept { tells → held self.new ≡ held self.old }
        ensures noted { records → answers self.new ≡ answers self.old
            ++ told_within name.now into.new result }
        ensures cause { FailsCounted (count self.old) (count self.new) result };

    /// Makes these bytes the file of this name, in place of one that stands there. A call that fails
    /// changes nothing.
    fn put(&mut self, name: &Name, bytes: &[u8]) -> Result<(), FolderFault>
        ensures put { tells
            → OnOk result (Puts (held self.old) (held self.new) name.now bytes.now) }
        ensures kept { tells → OnErr result (held self.new ≡ held self.old) }
        ensures noted { records → answers self.new ≡ answers self.old
            ++ told_put name.now bytes.now result }
        ensures cause { FailsCounted (count self.old) (count self.new) result };

    /// How often it failed. The count never falls.
    fn faults(&self) -> u64
        ensures { result ≡ count self.now };

    /// The names of what stands in it differ.
    ghost names_differ: { (f : Self) → tells → distinct (held f) ≡ true };
}
