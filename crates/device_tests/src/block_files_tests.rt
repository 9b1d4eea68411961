// What no clause says of contents in blocks: that the calls answer, which calls of the disk they
// make, and worked values.
ghost use Rattle.std.specs.Prelude.{◌≡◌, length, IfOk};
ghost use Rattle.file_store.specs.Stores.{draft_blocks, draft_size};
ghost use Rattle.small_types.specs.Blocks.{count_for};

use crate::made::{bytes, numbers};
use block_files::{
    PartFault, copy_content, has_bytes, read_part, used_contents_stay, write_content,
};
use disks::{Disk, MemDisk};
use file_store::{FileFault, FileStore, are_apart};
use small_types::{Bytes, List};
use std::alloc::{AllocError, Global};
use std::test::Fail;

// So many bytes: they go up from 0 to 250, and begin again.
fn content_of(alloc: Global, size: usize) -> Result<Vec<u8>, AllocError> {
    let mut made = vec![in alloc; 0; size]?;
    for (place, byte) in made.iter_mut().enumerate() {
        *byte = (place % 251) as u8;
    }
    Ok(made)
}

// The same with another last byte.
fn changed(alloc: Global, content: &[u8]) -> Result<Vec<u8>, AllocError> {
    let mut made = content.to_vec(alloc)?;
    if let Some(last) = made.last_mut() {
        *last = 255;
    }
    Ok(made)
}

fn blocks_of(alloc: Global, from: &[u32]) -> Result<List<u32>, AllocError> {
    Ok(List::from_vec(from.to_vec(alloc)?))
}

// A store of 70 blocks from the place 100 on, of which some are in use: free are the blocks 0, 2, 3,
// 5, 6, 7, 9 and so on.
fn store_of(alloc: Global) -> Result<FileStore, FileFault> {
    let taken = blocks_of(alloc, &[61, 1, 4, 8, 15, 16, 23, 42])?;
    if are_apart(alloc, 70, &taken)? {
        FileStore::new(alloc, 70, 100, &taken)
    } else {
        Err(FileFault::Memory)
    }
}

// An empty disk whose calls of these numbers fail, counted from 1.
fn disk_of(alloc: Global, failing: &[u64]) -> Result<MemDisk, AllocError> {
    Ok(MemDisk::new(alloc, bytes(alloc, &[])?, numbers(alloc, failing)?))
}

// A part of a content, with the faults of a file store.
fn part_of(
    alloc: Global,
    files: &FileStore,
    disk: &mut MemDisk,
    blocks: &List<u32>,
    size: u64,
    from: u64,
    count: u64,
) -> Result<Bytes, FileFault>
    requires { length blocks.now ≡ count_for size }
{
    match read_part(alloc, files, disk, blocks, size, from, count) {
        Ok(part) => Ok(part),
        Err(PartFault::DiskFault) => Err(FileFault::DiskFault),
        Err(PartFault::Memory) => Err(FileFault::Memory),
    }
}

// The bytes from a place on, at most so many.
fn shown(content: &[u8], from: u64, count: u64) -> &[u8] {
    let rest = content.get(from as usize..).unwrap_or(&[]);
    rest.get(..count as usize).unwrap_or(rest)
}

// Whether each of some parts of the content in the blocks is what the bytes have there.
fn parts_are(
    alloc: Global,
    files: &FileStore,
    disk: &mut MemDisk,
    blocks: &List<u32>,
    content: &[u8],
) -> Result<bool, FileFault>
    requires { length blocks.now ≡ count_for (length content.now) }
{
    let size = content.len() as u64;
    let places = [
        (0, 30_000),
        (1, 1),
        (4_095, 2),
        (4_096, 5_000),
        (99_999, 7),
        (0, u64::MAX),
        (u64::MAX, 1),
    ];
    for (from, count) in places {
        let part = part_of(alloc, files, disk, blocks, size, from, count)?;
        if part.as_slice() != shown(content, from, count) {
            return Ok(false);
        }
    }
    Ok(true)
}

// Whether the content in the blocks is just these bytes, and neither the others nor longer ones.
fn is_only(
    files: &FileStore,
    disk: &mut MemDisk,
    blocks: &List<u32>,
    content: &[u8],
    other: &[u8],
) -> Result<bool, FileFault>
    requires { length blocks.now ≡ count_for (length content.now) }
{
    let size = content.len() as u64;
    let same = has_bytes(files, disk, blocks, size, content)?;
    let differs = !has_bytes(files, disk, blocks, size, other)?;
    let longer = has_bytes(files, disk, blocks, size, b"twenty letters of it")?;
    Ok(same && (differs || size == 0) && !longer)
}

// The blocks of a copy of the content in these blocks, by way of a buffer of 9,000 bytes.
fn copy_of(
    alloc: Global,
    files: &mut FileStore,
    disk: &mut MemDisk,
    blocks: &List<u32>,
    size: u64,
) -> Result<List<u32>, FileFault>
    requires { length blocks.now ≡ count_for size }
    ensures { IfOk result (λ copied. length copied ≡ count_for size) }
{
    let mut draft = files.begin(alloc, size)?;
    let mut buffer = [9; 9_000];
    copy_content(files, disk, blocks, &mut draft, &mut buffer)?;
    Ok(draft.into_blocks())
}

// Writes the content, reads it, and copies it. The number of the first step that came to something
// else.
fn steps(
    alloc: Global,
    files: &mut FileStore,
    disk: &mut MemDisk,
    content: &[u8],
    other: &[u8],
) -> Result<Option<usize>, FileFault> {
    let size = content.len() as u64;
    let blocks = write_content(files, alloc, disk, content)?.into_blocks();
    let written = disk.written() == size;
    let parts = parts_are(alloc, files, disk, &blocks, content)?;
    let only = is_only(files, disk, &blocks, content, other)?;
    let copied = copy_of(alloc, files, disk, &blocks, size)?;
    let same = has_bytes(files, disk, &copied, size, content)?;
    let elsewhere = size == 0 || copied.as_slice() != blocks.as_slice();
    let kept = has_bytes(files, disk, &blocks, size, content)?;
    let steps = [
        written,
        parts,
        only,
        same,
        elsewhere,
        kept,
        disk.written() == 2 * size,
    ];
    Ok(steps.iter().position(|right| !*right))
}

// The same of a content of so many bytes, on an empty disk whose calls of these numbers fail, with
// the count of its faults.
fn run_of(
    alloc: Global,
    size: usize,
    failing: &[u64],
) -> Result<(Result<Option<usize>, FileFault>, u64), FileFault> {
    let content = content_of(alloc, size)?;
    let other = changed(alloc, &content)?;
    let mut files = store_of(alloc)?;
    let mut disk = disk_of(alloc, failing)?;
    let ended = steps(alloc, &mut files, &mut disk, &content, &other);
    let faults = disk.faults();
    drop(disk);
    Ok((ended, faults))
}

#[test]
fn contents_are_written_read_and_copied(rt: HostRuntime) -> Result<(), Fail> {
    used_contents_stay::<MemDisk>();
    for size in [0, 1, 4_096, 4_097, 100_000] {
        let found = run_of(rt.alloc(), size, &[])?;
        assert!(rt; found == (Ok(None), 0));
    }
    Ok(())
}

#[test]
fn each_call_of_the_disk_may_fail(rt: HostRuntime) -> Result<(), Fail> {
    // Blocks 0 and 2 are written by two calls. Five of the parts take 2, 1, 2, 1 and 2 reads, the
    // comparisons 2 and 2, the copy 2 reads and 2 writes, and the last two comparisons 2 each.
    for number in 1..=22 {
        let found = run_of(rt.alloc(), 4_097, &[number])?;
        assert!(rt; found == (Err(FileFault::DiskFault), 1), "call {number}");
    }
    let found = run_of(rt.alloc(), 4_097, &[23])?;
    assert!(rt; found == (Ok(None), 0));
    Ok(())
}

// How a content ends that needs a block more than the 62 that are free, and how many are free then.
fn too_long(alloc: Global) -> Result<(Option<FileFault>, u64, u64), FileFault> {
    let content = content_of(alloc, 62 * 4_096 + 1)?;
    let mut files = store_of(alloc)?;
    let mut disk = disk_of(alloc, &[])?;
    let fault = write_content(&mut files, alloc, &mut disk, &content).err();
    let written = disk.written();
    drop(disk);
    Ok((fault, files.free(), written))
}

#[test]
fn a_content_that_is_too_long_is_not_written(rt: HostRuntime) -> Result<(), Fail> {
    let full = FileFault::Full { need: 63, free: 62 };
    assert!(rt; too_long(rt.alloc())? == (Some(full), 62, 0));
    Ok(())
}

#[test]
fn blocks_are_judged(rt: HostRuntime) -> Result<(), Fail> {
    let rows: [(u64, &[u32], bool); 7] = [
        (0, &[], true),
        (0, &[0], false),
        (1, &[0], true),
        (1, &[1], false),
        (3, &[2, 0, 1], true),
        (3, &[2, 0, 2], false),
        (3, &[0, 1, u32::MAX], false),
    ];
    for (blocks, taken, want) in rows {
        let taken = blocks_of(rt.alloc(), taken)?;
        assert!(rt; are_apart(rt.alloc(), blocks, &taken)? == want);
    }
    let none = blocks_of(rt.alloc(), &[])?;
    assert!(rt; are_apart(rt.alloc(), u64::MAX, &none).is_err());
    Ok(())
}

#[test]
fn faults_have_their_texts(rt: HostRuntime) -> Result<(), Fail> {
    let disk = PartFault::DiskFault.to_string(rt.alloc())?;
    assert!(rt; disk.as_str() == "the disk failed");
    let memory = PartFault::Memory.to_string(rt.alloc())?;
    assert!(rt; memory.as_str() == "out of memory");
    Ok(())
}
