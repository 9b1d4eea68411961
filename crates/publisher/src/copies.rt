// The writing of a release. Each input file is read again, and is to be as it was.
ghost use Rattle.std.specs.Prelude.{◌≡◌, ◌≤◌, ◌++◌, ℕ, List, All, IfErr, IfOk, IfSome, OnOk, OnErr, map, Err, None};
ghost use Rattle.folders.specs.declared.answer.FolderAnswer.{FolderAnswer};
ghost use Rattle.folders.specs.Files.{Puts, file_in};
ghost use Rattle.folders.specs.Told.{told_put};
ghost use Rattle.digest_list.specs.Matches.{Matches};
ghost use Rattle.publisher.specs.declared.fault.PublishFault.TheVariants.{Memory};
ghost use Rattle.publisher.specs.Changes.{IsChangeOf, IsLate};
ghost use Rattle.publisher.specs.Entries.{AreEntries, IsEntry};
ghost use Rattle.publisher.specs.Faults.{FaultsCounted, IsDevice, IsWriting};
ghost use Rattle.publisher.specs.Publication.{bytes_in, copy_in, entry_in};
ghost use Rattle.publisher.specs.Puts.{AreApart, AreNew, PutsEach, PutsSome};
ghost use Rattle.publisher.specs.Readings.{CopiesFile, IsSourced, ReadsChange, ReadsEach, ReadsFile, ShowsOther};

use crate::PublishFault;
use crate::entries::read_file;
use crate::fault::fault_of_putting;
use digest_list::difference_of;
use folders::Folder;
use manifests::FileEntry;
use publish_plan::PlannedFile;
use small_types::limits::FILE_SIZE_LIMIT;
use small_types::{Bytes, Duplicate, Name};
use std::alloc::Global;

/// Puts the bytes under the name.
pub(crate) fn put_file<F: Folder>(
    name: &Name,
    bytes: &[u8],
    folder: &mut F,
) -> Result<(), PublishFault>
    ensures put { F.tells
        → OnOk result (Puts (F.held folder.old) (F.held folder.new) name.now bytes.now) }
    ensures kept { F.tells → OnErr result (F.held folder.new ≡ F.held folder.old) }
    ensures noted { F.records → F.answers folder.new ≡ F.answers folder.old
        ++ told_put name.now bytes.now result }
    ensures writing { IfErr result IsWriting }
    ensures counted { FaultsCounted (F.count folder.old) (F.count folder.new) result }
{
    match folder.put(name, bytes) {
        Ok(()) => Ok(()),
        Err(fault) => Err(fault_of_putting(fault)),
    }
}

/// Puts the bytes under the name, under which no file stands.
pub(crate) fn put_new<F: Folder>(
    name: &Name,
    bytes: &[u8],
    folder: &mut F,
) -> Result<(), PublishFault>
    requires { F.tells → file_in name.now (F.held folder.old) ≡ None }
    ensures put { F.tells
        → OnOk result (Puts (F.held folder.old) (F.held folder.new) name.now bytes.now) }
    ensures kept { F.tells → OnErr result (F.held folder.new ≡ F.held folder.old) }
    ensures noted { F.records → F.answers folder.new ≡ F.answers folder.old
        ++ told_put name.now bytes.now result }
    ensures writing { IfErr result IsWriting }
    ensures counted { FaultsCounted (F.count folder.old) (F.count folder.new) result }
{
    put_file(name, bytes, folder)
}

// Whether the bytes are those of the entry.
fn compare(alloc: Global, entry: &FileEntry, bytes: &[u8]) -> Result<(), PublishFault>
    requires { entry.now.size ≤ FILE_SIZE_LIMIT }
    ensures same { OnOk result (Matches entry.now.list entry.now.size bytes.now) }
    ensures unchanged { Matches entry.now.list entry.now.size bytes.now
        → OnErr result (result ≡ Err Memory) }
    ensures change { IfErr result (IsChangeOf entry.now bytes.now) }
{
    match difference_of(alloc, &entry.list, entry.size, bytes)? {
        None => Ok(()),
        Some(difference) => Err(PublishFault::Changed {
            file: entry.name.copy(alloc)?,
            difference,
        }),
    }
}

// The bytes of the file, read again, where they are those of the entry.
fn read_again<F: Folder>(
    alloc: Global,
    file: &PlannedFile,
    entry: &FileEntry,
    folder: &mut F,
) -> Result<Bytes, PublishFault>
    requires { IsEntry file.now entry.now }
    ensures same { IfOk result (Matches entry.now.list entry.now.size) }
    ensures bytes { F.tells → IfOk result (λ bytes. bytes ≡ bytes_in (F.held folder.old) file.now) }
    ensures kept { F.tells → F.held folder.new ≡ F.held folder.old }
    ensures noted { F.records → IfOk result (λ bytes.
        ReadsFile file.now.source bytes (F.answers folder.old) (F.answers folder.new)) }
    ensures other { F.records → IfErr result
        (ShowsOther file.now entry.now (F.answers folder.old) (F.answers folder.new)) }
    ensures device { F.tells → entry.now ≡ entry_in (F.held folder.old) file.now
        → IfErr result IsDevice }
    ensures late { IfErr result IsLate }
    ensures counted { FaultsCounted (F.count folder.old) (F.count folder.new) result }
{
    let bytes = read_file(alloc, &file.source, folder)?;
    compare(alloc, entry, bytes.as_slice())?;
    Ok(bytes)
}

// Puts the bytes of the file, which are those of its entry, into the version's folder, where the
// file does not stand yet.
fn put_copy<F: Folder>(
    file: &PlannedFile,
    _entry: &FileEntry,
    bytes: &[u8],
    folder: &mut F,
) -> Result<(), PublishFault>
    requires same { Matches _entry.now.list _entry.now.size bytes.now }
    requires new { F.tells → file_in file.now.target (F.held folder.old) ≡ None }
    ensures put { F.tells
        → OnOk result (Puts (F.held folder.old) (F.held folder.new) file.now.target bytes.now) }
    ensures kept { F.tells → OnErr result (F.held folder.new ≡ F.held folder.old) }
    ensures noted { F.records → F.answers folder.new ≡ F.answers folder.old
        ++ told_put file.now.target bytes.now result }
    ensures writing { IfErr result IsWriting }
    ensures counted { FaultsCounted (F.count folder.old) (F.count folder.new) result }
{
    put_new(&file.target, bytes, folder)
}

// Reads the file again, and puts its bytes into the version's folder where they are those of the
// entry.
fn copy_file<F: Folder>(
    alloc: Global,
    file: &PlannedFile,
    entry: &FileEntry,
    folder: &mut F,
) -> Result<(), PublishFault>
    requires entry { IsEntry file.now entry.now }
    requires new { F.tells → file_in file.now.target (F.held folder.old) ≡ None }
    ensures put { F.tells → OnOk result (Puts (F.held folder.old) (F.held folder.new)
        file.now.target (bytes_in (F.held folder.old) file.now)) }
    ensures kept { F.tells → OnErr result (F.held folder.new ≡ F.held folder.old) }
    ensures noted { F.records → OnOk result
        (CopiesFile file.now (F.answers folder.old) (F.answers folder.new)) }
    ensures other { F.records → IfErr result
        (ShowsOther file.now entry.now (F.answers folder.old) (F.answers folder.new)) }
    ensures device { F.tells → entry.now ≡ entry_in (F.held folder.old) file.now
        → IfErr result IsDevice }
    ensures late { IfErr result IsLate }
    ensures counted { FaultsCounted (F.count folder.old) (F.count folder.new) result }
{
    let bytes = read_again(alloc, file, entry, folder)?;
    put_copy(file, entry, bytes.as_slice(), folder)
}

/// Reads each file again, and puts its bytes into the version's folder where they are those of its
/// entry.
pub(crate) fn copy_files<F: Folder>(
    alloc: Global,
    files: &[PlannedFile],
    entries: &[FileEntry],
    folder: &mut F,
) -> Result<(), PublishFault>
    requires entries { AreEntries files.now entries.now }
    requires apart { AreApart files.now }
    requires new { F.tells → AreNew files.now (F.held folder.old) }
    ensures put { F.tells → OnOk result (PutsEach (map (copy_in (F.held folder.old)) files.now)
        (F.held folder.old) (F.held folder.new)) }
    ensures part { F.tells → OnErr result (PutsSome (map (copy_in (F.held folder.old)) files.now)
        (F.held folder.old) (F.held folder.new)) }
    ensures device { F.tells → entries.now ≡ map (entry_in (F.held folder.old)) files.now
        → IfErr result IsDevice }
    ensures readings { F.records → (from : List ℕ) (start : List FolderAnswer)
        → All (IsSourced from) files.now
        → ReadsEach files.now entries.now start (F.answers folder.old)
        → IfErr result (ReadsChange from start (F.answers folder.new)) }
    ensures late { IfErr result IsLate }
    ensures counted { FaultsCounted (F.count folder.old) (F.count folder.new) result }
{
    for i in 0..files.len() {
        copy_file(alloc, &files[i], &entries[i], folder)?;
    }
    Ok(())
}
