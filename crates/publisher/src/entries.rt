// The first reading of the input files.
ghost use Rattle.std.specs.Prelude.{◌≡◌, ◌≤◌, [], All, IfOk, IfErr, OnErr, length, unwrap_or, Err};
ghost use Rattle.folders.specs.Files.{file_in};
ghost use Rattle.digest_list.specs.Digest.{IsSized};
ghost use Rattle.manifests.specs.Applications.{size_limit};
ghost use Rattle.publisher.specs.declared.fault.PublishFault.TheVariants.{Memory};
ghost use Rattle.publisher.specs.Entries.{AreEntries, IsEntry};
ghost use Rattle.publisher.specs.Faults.{FaultsCounted, IsReading};
ghost use Rattle.publisher.specs.Outcome.{Fails, Gives};
ghost use Rattle.publisher.specs.Publication.{bytes_in, digests_of as digests_in, entry_of as entry_with, read_entries as read_all, read_entry as read_one};
ghost use Rattle.publisher.specs.Readings.{IsFirstReading, ReadsEach, ReadsEntry, ReadsFile};

use crate::PublishFault;
use crate::fault::fault_of_reading;
use digest_list::{Algorithm, Digest, DigestList};
use folders::{Folder, Found};
use manifests::FileEntry;
use publish_plan::PlannedFile;
use sha2::{Digest as Hash, Sha256};
use small_types::limits::{FILE_SIZE_LIMIT, LOCAL_SIZE_LIMIT};
use small_types::{Bytes, Duplicate, List, Name};
use std::alloc::Global;

/// The bytes of the file of this name. A file that is gone reads as empty.
pub(crate) fn read_file<F: Folder>(
    alloc: Global,
    name: &Name,
    folder: &mut F,
) -> Result<Bytes, PublishFault>
    ensures bytes { F.tells
        → IfOk result (λ bytes. bytes ≡ unwrap_or (file_in name.now (F.held folder.old)) []) }
    ensures kept { F.tells → F.held folder.new ≡ F.held folder.old }
    ensures noted { F.records → IfOk result (λ bytes.
        ReadsFile name.now bytes (F.answers folder.old) (F.answers folder.new)) }
    ensures reading { IfErr result IsReading }
    ensures counted { FaultsCounted (F.count folder.old) (F.count folder.new) result }
{
    match folder.get(alloc, name) {
        Ok(Some(bytes)) => Ok(bytes),
        Ok(None) => Ok(Bytes::from_vec(Vec::new(alloc))),
        Err(fault) => Err(fault_of_reading(fault)),
    }
}

/// The SHA-256 digest of the bytes, alone.
pub(crate) fn digests_of(alloc: Global, bytes: &[u8]) -> Result<DigestList, PublishFault>
    ensures digests { IfOk result (λ list. list ≡ digests_in bytes.now) }
    ensures sized { IfOk result (All IsSized) }
    ensures memory { OnErr result (result ≡ Err Memory) }
{
    let sum = Sha256::digest(bytes);
    let digest = Digest {
        algorithm: Algorithm::Sha256,
        value: Bytes::from_slice(alloc, &sum)?,
    };
    let mut digests = Vec::new(alloc);
    digests.push(digest)?;
    Ok(DigestList::from_list(List::from_vec(digests)).unwrap())
}

// What the application manifest says of a file of these bytes.
fn entry_of(alloc: Global, file: &PlannedFile, bytes: &[u8]) -> Result<FileEntry, PublishFault>
    ensures entry { IfOk result (λ entry. entry ≡ entry_with file.now bytes.now) }
    ensures sized { IfOk result (λ entry. All IsSized entry.list) }
    ensures memory { OnErr result (result ≡ Err Memory) }
{
    Ok(FileEntry {
        name: file.file.copy(alloc)?,
        size: bytes.len() as u64,
        list: digests_of(alloc, bytes)?,
        group: file.group.copy(alloc)?,
        local: file.local,
    })
}

// The most bytes of the file, of which a data file has its own.
fn limit_of(file: &PlannedFile) -> u64
    ensures { result ≡ size_limit file.now.local }
{
    if file.local {
        LOCAL_SIZE_LIMIT
    } else {
        FILE_SIZE_LIMIT
    }
}

// The bytes of the file, which are within its limit. A file that is gone reads as empty, and one that is longer is not read.
fn read_within<F: Folder>(
    alloc: Global,
    file: &PlannedFile,
    folder: &mut F,
) -> Result<Bytes, PublishFault>
    ensures bytes { F.tells
        → IfOk result (λ bytes. bytes ≡ bytes_in (F.held folder.old) file.now) }
    ensures within { IfOk result (λ bytes. length bytes ≤ size_limit file.now.local) }
    ensures refused { F.tells
        → IfErr result (λ e. Fails e (read_one (F.held folder.old) file.now)) }
    ensures kept { F.tells → F.held folder.new ≡ F.held folder.old }
    ensures noted { F.records → IfOk result (λ bytes.
        ReadsFile file.now.source bytes (F.answers folder.old) (F.answers folder.new)) }
    ensures fault { IfErr result IsFirstReading }
    ensures counted { FaultsCounted (F.count folder.old) (F.count folder.new) result }
{
    let mut bytes = Bytes::from_vec(Vec::new(alloc));
    match folder.get_within(alloc, &file.source, limit_of(file), &mut bytes) {
        Ok(Found::Whole) => Ok(bytes),
        Ok(Found::Nothing) => Ok(bytes),
        Ok(Found::TooLong { length }) => Err(PublishFault::FileTooLong {
            file: file.file.copy(alloc)?,
            length,
        }),
        Err(fault) => Err(fault_of_reading(fault)),
    }
}

// What the application manifest says of the file, once it is read.
fn read_entry<F: Folder>(
    alloc: Global,
    file: &PlannedFile,
    folder: &mut F,
) -> Result<FileEntry, PublishFault>
    ensures told { F.tells → Gives (λ e. e) result (read_one (F.held folder.old) file.now) }
    ensures entry { IfOk result (IsEntry file.now) }
    ensures kept { F.tells → F.held folder.new ≡ F.held folder.old }
    ensures noted { F.records → IfOk result (λ entry.
        ReadsEntry file.now entry (F.answers folder.old) (F.answers folder.new)) }
    ensures fault { IfErr result IsFirstReading }
    ensures counted { FaultsCounted (F.count folder.old) (F.count folder.new) result }
{
    let bytes = read_within(alloc, file, folder)?;
    entry_of(alloc, file, bytes.as_slice())
}

/// What the application manifest says of the files, each of which is read once.
pub(crate) fn read_entries<F: Folder>(
    alloc: Global,
    files: &[PlannedFile],
    folder: &mut F,
) -> Result<List<FileEntry>, PublishFault>
    ensures told { F.tells → Gives (λ es. es) result (read_all (F.held folder.old) files.now) }
    ensures entries { IfOk result (AreEntries files.now) }
    ensures kept { F.tells → F.held folder.new ≡ F.held folder.old }
    ensures noted { F.records → IfOk result (λ entries.
        ReadsEach files.now entries (F.answers folder.old) (F.answers folder.new)) }
    ensures fault { IfErr result IsFirstReading }
    ensures counted { FaultsCounted (F.count folder.old) (F.count folder.new) result }
{
    let mut entries = Vec::new(alloc);
    for file in files {
        let entry = read_entry(alloc, file, folder)?;
        entries.push(entry)?;
    }
    Ok(List::from_vec(entries))
}
