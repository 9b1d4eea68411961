// What no clause says of the drafts of a line: that their calls answer, and worked values.
ghost use Rattle.std.specs.Prelude.{◌≤◌};
ghost use Rattle.file_store.specs.Stores.{AreUsed, blocks_of_all};

use crate::made::{bytes, numbers, same};
use digest_list::{Algorithm, Digest, DigestList};
use disks::{Disk, MemDisk};
use file_store::{FileFault, FileStore};
use line_drafts::{DraftFault, LineDrafts};
use links::{Link, LinkFault, Links, MemLink, Page, Single, are_distinct};
use mirrors::Mirrors;
use small_types::{CopyFault, List, Target, Text};
use std::alloc::{AllocError, Global};
use std::test::Fail;

// SHA-256 of `abc`.
const OF_ABC: &[u8] = b"ungWv48Bz+pBQUDeXa4iI7ADYaOWF3qctBD/YfIAFa0=";

fn target(alloc: Global, path: &str) -> Result<Target, AllocError> {
    Ok(Target {
        host: Text::from_string(String::from_str(alloc, "demo.test")?),
        port: 80,
        path: Text::from_string(String::from_str(alloc, path)?),
    })
}

fn list_of_abc(alloc: Global) -> Result<DigestList, CopyFault> {
    let Ok(digest) = Digest::read(alloc, Algorithm::Sha256, OF_ABC) else {
        return Err(CopyFault::Memory);
    };
    let digests = List::from_vec(vec![in alloc; digest]?);
    DigestList::from_list(digests).ok_or(CopyFault::Memory)
}

// A link that has these bytes at `/a`.
fn link_of(alloc: Global, content: &[u8]) -> Result<MemLink, LinkFault> {
    let page = Page {
        target: target(alloc, "/a")?,
        bytes: bytes(alloc, content)?,
    };
    let mut pages = Vec::new(alloc);
    let Ok(()) = pages.push(page) else {
        return Err(LinkFault::Memory);
    };
    if !are_distinct(&pages) {
        return Err(LinkFault::Memory);
    }
    Ok(MemLink::new(alloc, List::from_vec(pages), numbers(alloc, &[])?))
}

// So many bytes, which go up from 0 to 250 and begin again.
fn content_of(alloc: Global, size: usize) -> Result<Vec<u8>, AllocError> {
    let mut made = vec![in alloc; 0; size]?;
    for (place, byte) in made.iter_mut().enumerate() {
        *byte = (place % 251) as u8;
    }
    Ok(made)
}

// What a fault says, in short.
#[derive(Clone, Copy, Debug, PartialEq, Eq)]
enum Said {
    NoLink,
    Full(u64, u64),
    Disk,
    Memory,
}

fn said_of(fault: &DraftFault) -> Said {
    match fault {
        DraftFault::AllLinks { .. } => Said::NoLink,
        DraftFault::Full { need, free } => Said::Full(*need, *free),
        DraftFault::DiskFault => Said::Disk,
        DraftFault::Memory => Said::Memory,
    }
}

// A store of 8 blocks from the place 100 on, of which block 1 is in use.
fn store_of(alloc: Global) -> Result<FileStore, FileFault> {
    let taken = List::from_vec([1].to_vec(alloc)?);
    FileStore::new(alloc, 8, 100, &taken)
}

// A file of so many bytes, and its digests.
#[derive(Drop)]
struct Wanted {
    target: Target,
    size: u64,
    list: DigestList,
    ghost small: { size ≤ 40000 },
}

fn wanted_file(alloc: Global, path: &str, size: u64) -> Result<Wanted, CopyFault>
    requires { size ≤ 40000 }
{
    Ok(Wanted {
        target: target(alloc, path)?,
        size,
        list: list_of_abc(alloc)?,
    })
}

// Fetches a file, and writes the content behind it.
fn fill<L: Links>(
    alloc: Global,
    disk: &mut MemDisk,
    files: &mut FileStore,
    links: &mut L,
    drafts: &mut LineDrafts,
    wanted: &Wanted,
    content: &[u8],
) -> Result<(), DraftFault>
    requires { AreUsed files.old (blocks_of_all drafts.old) }
    ensures { AreUsed files.new (blocks_of_all drafts.new) }
{
    if let Err(fault) = drafts.fetch(
        alloc,
        disk,
        files,
        links,
        &wanted.target,
        wanted.size,
        &wanted.list,
    ) {
        return Err(fault);
    }
    match drafts.write(alloc, disk, files, content) {
        Ok(()) => Ok(()),
        Err(fault) => Err(fault),
    }
}

// A line that does so, and seals its drafts. Where a file does not come, it answers the fault and
// how many blocks were free before it gave the drafts up.
fn line<L: Links>(
    alloc: Global,
    disk: &mut MemDisk,
    files: &mut FileStore,
    links: &mut L,
    wanted: &Wanted,
    content: &[u8],
) -> Result<List<List<u32>>, (Said, u64)> {
    let mut drafts = LineDrafts::new(alloc);
    if let Err(fault) = fill(alloc, disk, files, links, &mut drafts, wanted, content) {
        let free = files.free();
        drafts.abandon(files);
        return Err((said_of(&fault), free));
    }
    let free = files.free();
    match drafts.seal(disk, files) {
        Ok(lists) => Ok(lists),
        Err(fault) => Err((said_of(&fault), free)),
    }
}

// Whether the blocks are these, and the content is read from them.
fn reads(
    alloc: Global,
    files: &FileStore,
    disk: &mut MemDisk,
    blocks: &List<u32>,
    want: &[u32],
    content: &[u8],
) -> Result<bool, FileFault> {
    let count = blocks.as_slice().len();
    if blocks.as_slice() != want || count != content.len().div_ceil(4096) {
        return Ok(false);
    }
    let mut read = vec![in alloc; 0; content.len()]?;
    let n = files.read_content(disk, blocks, content.len() as u64, 0, &mut read)?;
    Ok(n == content.len() && same(&read, content))
}

// What a line came to: what it said and how many blocks were free then, unless it was sealed and
// both contents were read back; how many blocks are free; the calls and bytes that it cost.
#[derive(Clone, Copy, Debug, PartialEq, Eq)]
struct Came {
    said: Option<(Said, u64)>,
    read: bool,
    free: u64,
    calls: u64,
    written: u64,
}

// Whether the sealed contents are `abc` in block 0 and the other one in the blocks 2 and 3.
fn both_read(
    alloc: Global,
    files: &FileStore,
    disk: &mut MemDisk,
    lists: &List<List<u32>>,
    content: &[u8],
) -> Result<bool, FileFault> {
    match lists.as_slice() {
        [first, second] => {
            let one = reads(alloc, files, disk, first, &[0], b"abc")?;
            let other = reads(alloc, files, disk, second, &[2, 3], content)?;
            Ok(one && other)
        }
        _ => Ok(false),
    }
}

// The line that fetches `abc` and writes 5,000 bytes, over a disk whose call of that number fails.
fn line_with<L: Links>(alloc: Global, links: &mut L, failing: u64) -> Result<Came, FileFault> {
    let mut files = store_of(alloc)?;
    let mut disk = MemDisk::new(alloc, bytes(alloc, &[])?, numbers(alloc, &[failing])?);
    let wanted = match wanted_file(alloc, "/a", 3) {
        Ok(wanted) => wanted,
        Err(CopyFault::Memory) => return Err(FileFault::Memory),
    };
    let content = content_of(alloc, 5_000)?;
    let (said, read) = match line(alloc, &mut disk, &mut files, links, &wanted, &content) {
        Ok(lists) => (None, both_read(alloc, &files, &mut disk, &lists, &content)?),
        Err(said) => (Some(said), false),
    };
    Ok(Came {
        said,
        read,
        free: files.free(),
        calls: disk.calls(),
        written: disk.written(),
    })
}

// What comes of it where the call of a number fails, counted from 1: the first link gives other
// bytes, which are written too, so the file costs two writes of 3 bytes.
const LINES: &[(u64, Came)] = &[
    (
        0,
        Came {
            said: None,
            read: true,
            free: 4,
            calls: 4,
            written: 5_006,
        },
    ),
    (
        1,
        Came {
            said: Some((Said::Disk, 7)),
            read: false,
            free: 7,
            calls: 1,
            written: 3,
        },
    ),
    (
        2,
        Came {
            said: Some((Said::Disk, 7)),
            read: false,
            free: 7,
            calls: 2,
            written: 6,
        },
    ),
    (
        3,
        Came {
            said: Some((Said::Disk, 6)),
            read: false,
            free: 7,
            calls: 3,
            written: 5_006,
        },
    ),
    (
        4,
        Came {
            said: Some((Said::Disk, 4)),
            read: false,
            free: 7,
            calls: 4,
            written: 5_006,
        },
    ),
];

#[test]
fn a_line_is_sealed_or_given_up(rt: HostRuntime) -> Result<(), Fail> {
    let alloc = rt.alloc();
    for (failing, want) in LINES.iter() {
        let mut boxes: Vec<Box<dyn Link>> = Vec::new(alloc);
        for content in [b"abd", b"abc"] {
            boxes.push(Box::new(alloc, link_of(alloc, content)?)?)?;
        }
        assert!(rt; boxes.len() == 2);
        let mut links = Mirrors::new(alloc, boxes);
        let came = line_with(alloc, &mut links, *failing)?;
        assert!(rt; came == *want, "the call {failing} fails");
    }
    Ok(())
}

// What is said of a file of so many bytes at the path where a link has `abc` at `/a`, how many
// blocks are free then, and how often the link was asked.
fn refused(alloc: Global, path: &str, size: u64) -> Result<(Option<Said>, u64, usize), LinkFault>
    requires { size ≤ 40000 }
{
    let Ok(mut files) = store_of(alloc) else {
        return Err(LinkFault::Memory);
    };
    let mut disk = MemDisk::new(alloc, bytes(alloc, &[])?, numbers(alloc, &[])?);
    let wanted = wanted_file(alloc, path, size)?;
    let mut links = Single {
        link: link_of(alloc, b"abc")?,
        asked: List::from_vec(Vec::new(alloc)),
    };
    let said = match line(alloc, &mut disk, &mut files, &mut links, &wanted, &[]) {
        Ok(_) => None,
        Err((said, _)) => Some(said),
    };
    Ok((said, files.free(), links.asked.as_slice().len()))
}

#[test]
fn files_are_refused(rt: HostRuntime) -> Result<(), Fail> {
    let alloc = rt.alloc();
    // An empty content takes no block.
    assert!(rt; refused(alloc, "/a", 3)? == (None, 6, 1));
    assert!(rt; refused(alloc, "/b", 3)? == (Some(Said::NoLink), 7, 1));
    assert!(rt; refused(alloc, "/a", 4)? == (Some(Said::NoLink), 7, 1));
    // Eight blocks are more than seven, and then nothing is asked for.
    assert!(rt; refused(alloc, "/a", 28_672)? == (Some(Said::NoLink), 7, 1));
    assert!(rt; refused(alloc, "/a", 28_673)? == (Some(Said::Full(8, 7)), 7, 0));
    Ok(())
}

// How many calls of the disk it takes to seal no drafts, and how many blocks are free then.
fn nothing_sealed(alloc: Global) -> Result<(bool, u64, u64), FileFault> {
    let mut files = store_of(alloc)?;
    let mut disk = MemDisk::new(alloc, bytes(alloc, &[])?, numbers(alloc, &[1])?);
    let is_sealed = LineDrafts::new(alloc).seal(&mut disk, &mut files).is_ok();
    Ok((is_sealed, disk.calls(), files.free()))
}

#[test]
fn no_drafts_need_no_sync(rt: HostRuntime) -> Result<(), Fail> {
    assert!(rt; nothing_sealed(rt.alloc())? == (true, 0, 7));
    Ok(())
}

// Writes the content into a draft, and copies it from there into another one.
fn write_twice(
    alloc: Global,
    disk: &mut MemDisk,
    files: &mut FileStore,
    drafts: &mut LineDrafts,
    content: &[u8],
) -> Result<(), DraftFault>
    requires { AreUsed files.old (blocks_of_all drafts.old) }
    ensures { AreUsed files.new (blocks_of_all drafts.new) }
{
    if let Err(fault) = drafts.write(alloc, disk, files, content) {
        return Err(fault);
    }
    let Ok(blocks) = drafts.all_blocks(alloc) else {
        return Err(DraftFault::Memory);
    };
    let count = blocks.as_slice().len();
    if count != content.len().div_ceil(4096) {
        return Ok(());
    }
    match drafts.copy(alloc, disk, files, &blocks, content.len() as u64) {
        Ok(()) => Ok(()),
        Err(fault) => Err(fault),
    }
}

// A line that does so, and seals its drafts. It answers the blocks of each, with those of all
// before the seal; or the fault, and how many blocks were free before it gave the drafts up.
fn copied(
    alloc: Global,
    disk: &mut MemDisk,
    files: &mut FileStore,
    content: &[u8],
) -> Result<(List<List<u32>>, List<u32>), (Said, u64)> {
    let mut drafts = LineDrafts::new(alloc);
    let made = write_twice(alloc, disk, files, &mut drafts, content);
    let free = files.free();
    if let Err(fault) = made {
        drafts.abandon(files);
        return Err((said_of(&fault), free));
    }
    let Ok(all) = drafts.all_blocks(alloc) else {
        drafts.abandon(files);
        return Err((Said::Memory, free));
    };
    match drafts.seal(disk, files) {
        Ok(lists) => Ok((lists, all)),
        Err(fault) => Err((said_of(&fault), free)),
    }
}

// Whether the content was sealed in the blocks 0 and 2, and its copy in 3 and 4.
fn both_copied(
    alloc: Global,
    files: &FileStore,
    disk: &mut MemDisk,
    lists: &List<List<u32>>,
    all: &List<u32>,
    content: &[u8],
) -> Result<bool, FileFault> {
    match lists.as_slice() {
        [first, second] => {
            let one = reads(alloc, files, disk, first, &[0, 2], content)?;
            let other = reads(alloc, files, disk, second, &[3, 4], content)?;
            Ok(one && other && all.as_slice() == [0, 2, 3, 4].as_slice())
        }
        _ => Ok(false),
    }
}

// Such a line over a content of so many bytes and a disk whose call of that number fails.
fn copy_with(alloc: Global, size: usize, failing: u64) -> Result<Came, FileFault> {
    let mut files = store_of(alloc)?;
    let mut disk = MemDisk::new(alloc, bytes(alloc, &[])?, numbers(alloc, &[failing])?);
    let content = content_of(alloc, size)?;
    let (said, read) = match copied(alloc, &mut disk, &mut files, &content) {
        Ok((lists, all)) => (
            None,
            both_copied(alloc, &files, &mut disk, &lists, &all, &content)?,
        ),
        Err(said) => (Some(said), false),
    };
    Ok(Came {
        said,
        read,
        free: files.free(),
        calls: disk.calls(),
        written: disk.written(),
    })
}

// What comes of it. The content takes two writes, its copy two reads and a write. Four blocks and
// as many again are more than seven.
const COPIES: &[(usize, u64, Came)] = &[
    (
        5_000,
        0,
        Came {
            said: None,
            read: true,
            free: 3,
            calls: 4,
            written: 10_000,
        },
    ),
    (
        5_000,
        3,
        Came {
            said: Some((Said::Disk, 5)),
            read: false,
            free: 7,
            calls: 2,
            written: 5_000,
        },
    ),
    (
        5_000,
        5,
        Came {
            said: Some((Said::Disk, 5)),
            read: false,
            free: 7,
            calls: 3,
            written: 10_000,
        },
    ),
    (
        16_000,
        0,
        Came {
            said: Some((Said::Full(4, 3), 3)),
            read: false,
            free: 7,
            calls: 2,
            written: 16_000,
        },
    ),
];

#[test]
fn a_content_is_copied(rt: HostRuntime) -> Result<(), Fail> {
    let alloc = rt.alloc();
    for (size, failing, want) in COPIES.iter() {
        let came = copy_with(alloc, *size, *failing)?;
        assert!(rt; came == *want, "{size} bytes, the call {failing} fails");
    }
    Ok(())
}
