// What a folder of the file system does with real files.
use crate::shown::{holds, is_said, same, stands};
use folders::{Folder, FolderFault, Found};
use outside_real::RealFolder;
use small_types::{Bytes, Name};
use std::alloc::{AllocError, Global};
use std::fs;
use std::fs::{File, Permissions};
use std::os::unix::fs::{PermissionsExt, symlink};
use std::process::Abort;
use std::test::Fail;

// A call of a folder and what it answers, what then stands at a path, or a change beside the folder.
#[derive(Drop)]
enum Step {
    // The names in the folder, each with a bar behind it.
    List(Result<&'static str, FolderFault>),
    // The bytes of the file, or a bar where there is none.
    Get(&'static str, Result<&'static [u8], FolderFault>),
    // The bytes of the file where they are at most so many, a bar where there is none, and a sign for each of its bytes where
    // it has more.
    Within(&'static str, u64, Result<&'static [u8], FolderFault>),
    Put(&'static str, &'static [u8], Result<(), FolderFault>),
    Faults(u64),
    Holds(&'static str, &'static [u8]),
    Absent(&'static str),
    // Another program writes a file, makes a link to a path or removes one of both.
    Write(&'static str, &'static [u8]),
    Link(&'static str, &'static str),
    Remove(&'static str),
}

const FAILED: FolderFault = FolderFault::Failed;

fn named(alloc: Global, name: &str) -> Result<Name, FolderFault> {
    Name::read(alloc, name.as_bytes()).ok().ok_or(FAILED)
}

// The names in the folder, each with a bar behind it.
fn list<F: Folder>(alloc: Global, folder: &mut F) -> Result<Vec<u8>, FolderFault> {
    let names = folder.list(alloc)?;
    let mut made = Vec::new(alloc);
    for name in names.as_slice() {
        made.extend_from_slice(name.as_bytes())?;
        made.push(b'|')?;
    }
    Ok(made)
}

// The bytes of the file, or a bar where there is none.
fn get<F: Folder>(alloc: Global, folder: &mut F, name: &str) -> Result<Vec<u8>, FolderFault> {
    let name = named(alloc, name)?;
    match folder.get(alloc, &name)? {
        Some(bytes) => Ok(bytes.into_vec()),
        None => Ok(b"|".to_vec(alloc)?),
    }
}

// The bytes of the file where they are at most so many, a bar where there is none, and a sign for each of its bytes where it
// has more.
fn within<F: Folder>(
    alloc: Global,
    folder: &mut F,
    name: &str,
    limit: u64,
) -> Result<Vec<u8>, FolderFault> {
    let name = named(alloc, name)?;
    let mut bytes = Bytes::from_slice(alloc, b"before")?;
    match folder.get_within(alloc, &name, limit, &mut bytes)? {
        Found::Whole => Ok(bytes.into_vec()),
        Found::Nothing => Ok(b"|".to_vec(alloc)?),
        Found::TooLong { length } => {
            let mut signs = Vec::new(alloc);
            for _ in 0..length {
                signs.push(b'>')?;
            }
            Ok(signs)
        }
    }
}

fn put<F: Folder>(
    alloc: Global,
    folder: &mut F,
    name: &str,
    bytes: &[u8],
) -> Result<(), FolderFault> {
    let name = named(alloc, name)?;
    folder.put(&name, bytes)
}

fn gives(got: Result<Vec<u8>, FolderFault>, want: Result<&[u8], FolderFault>) -> bool {
    match (got, want) {
        (Ok(bytes), Ok(want)) => same(&bytes, want),
        (Err(fault), Err(want)) => fault == want,
        _ => false,
    }
}

fn gives_text(got: Result<Vec<u8>, FolderFault>, want: Result<&str, FolderFault>) -> bool {
    match want {
        Ok(text) => gives(got, Ok(text.as_bytes())),
        Err(fault) => gives(got, Err(fault)),
    }
}

// Whether the step answers what it is to, or is done.
fn answers<F: Folder>(rt: &HostRuntime, folder: &mut F, step: &Step) -> bool {
    let alloc = rt.alloc();
    match step {
        Step::List(want) => gives_text(list(alloc, folder), *want),
        Step::Get(name, want) => gives(get(alloc, folder, name), *want),
        Step::Within(name, limit, want) => gives(within(alloc, folder, name, *limit), *want),
        Step::Put(name, bytes, want) => put(alloc, folder, name, bytes) == *want,
        Step::Faults(want) => folder.faults() == *want,
        Step::Holds(path, want) => holds(rt, path, want),
        Step::Absent(path) => !stands(rt, path),
        Step::Write(path, bytes) => fs::write(rt, path, *bytes).is_ok(),
        Step::Link(to, path) => symlink(rt, to, path).is_ok(),
        Step::Remove(path) => fs::remove_file(rt, path).is_ok(),
    }
}

// Asserts each step.
fn go<F: Folder>(abort: &impl Abort, rt: &HostRuntime, name: &str, folder: &mut F, steps: &[Step]) {
    for (number, step) in steps.iter().enumerate() {
        assert!(abort; answers(rt, folder, step), "{name}: step {number}");
    }
}

fn folder_at(rt: &HostRuntime, path: &str) -> Result<RealFolder<HostRuntime>, AllocError> {
    let alloc = rt.alloc();
    Ok(RealFolder::new(rt.clone()?, String::from_str(alloc, path)?))
}

// An empty folder at the path, whatever an earlier run left.
fn begin(rt: &HostRuntime, path: &str) -> Result<(), Fail> {
    let _ = fs::remove_dir_all(rt, path);
    fs::create_dir(rt, path)?;
    Ok(())
}

const PUT_AND_FOUND: &[Step] = &[
    Step::List(Ok("")),
    Step::Put("b/c d/e", b"1", Ok(())),
    Step::Put("b/c d/%", b"2", Ok(())),
    Step::Put("b.x", b"3", Ok(())),
    Step::Put("a", b"", Ok(())),
    Step::Put("b/c d/e", b"other", Ok(())),
    Step::List(Ok("a|b.x|b/c d/%|b/c d/e|")),
    Step::Get("b/c d/e", Ok(b"other")),
    Step::Get("a", Ok(b"")),
    Step::Get("c", Ok(b"|")),
    Step::Get("b.x/y", Ok(b"|")),
    Step::Get("b/x/y", Ok(b"|")),
    Step::Get("e", Ok(b"|")),
    Step::Get("b", Ok(b"|")),
    Step::Holds("site/b/c d/%", b"2"),
    Step::Within("b/c d/e", 5, Ok(b"other")),
    Step::Within("b/c d/e", 4, Ok(b">>>>>")),
    Step::Within("b/c d/e", 0, Ok(b">>>>>")),
    Step::Within("b/c d/e", u64::MAX, Ok(b"other")),
    Step::Within("a", 0, Ok(b"")),
    Step::Within("c", 9, Ok(b"|")),
    Step::Within("b", 9, Ok(b"|")),
    Step::Write("site/b.x", b"longer"),
    Step::Within("b.x", 5, Ok(b">>>>>>")),
    Step::Within("b.x", 6, Ok(b"longer")),
    Step::Write("site/b.x", b"longer than before"),
    Step::Within("b.x", 17, Ok(b">>>>>>>>>>>>>>>>>>")),
    Step::Within("b.x", 18, Ok(b"longer than before")),
    Step::Within("b.x", 19, Ok(b"longer than before")),
    Step::Faults(0),
    Step::Put("b", b"", Err(FAILED)),
    Step::Put("a/b", b"", Err(FAILED)),
    Step::Faults(2),
    Step::List(Ok("a|b.x|b/c d/%|b/c d/e|")),
];

#[test]
fn files_are_put_and_found(rt: HostRuntime) -> Result<(), Fail> {
    begin(&rt, "site")?;
    let mut site = folder_at(&rt, "site")?;
    go(&rt, &rt, "site", &mut site, PUT_AND_FOUND);
    fs::remove_dir_all(&rt, "site")?;
    Ok(())
}

// So many bytes that count up from one.
fn counted_from(alloc: Global, first: u8, length: usize) -> Result<Vec<u8>, AllocError> {
    let mut made = Vec::new(alloc);
    let mut next = first;
    for _ in 0..length {
        made.push(next)?;
        next = next.wrapping_add(1);
    }
    Ok(made)
}

// Whether these bytes, once they are written, are read: into the buffer, and as a value of their own.
fn is_read<F: Folder>(
    rt: &HostRuntime,
    site: &mut F,
    into: &mut Bytes,
    bytes: &[u8],
) -> Result<bool, FolderFault> {
    let alloc = rt.alloc();
    let name = named(alloc, "file")?;
    if fs::write(rt, "buffer/file", bytes).is_err() || !site.get_into(alloc, &name, into)? {
        return Ok(false);
    }
    Ok(same(into.as_slice(), bytes) && gives(get(alloc, site, "file"), Ok(bytes)))
}

// Whether no file is read into the buffer.
fn is_none<F: Folder>(alloc: Global, site: &mut F, into: &mut Bytes) -> Result<bool, FolderFault> {
    let name = named(alloc, "file")?;
    Ok(!site.get_into(alloc, &name, into)?)
}

// Files of other lengths one after the other, into the memory of the file before, and from a file that changed.
#[test]
fn files_are_read_into_one_buffer(rt: HostRuntime) -> Result<(), Fail> {
    let alloc = rt.alloc();
    begin(&rt, "buffer")?;
    let mut site = folder_at(&rt, "buffer")?;
    let mut into = Bytes::from_vec(Vec::new(alloc));
    assert!(rt; is_none(alloc, &mut site, &mut into)?);
    for (first, length) in [
        (1, 200_000),
        (2, 3),
        (3, 0),
        (4, 200_001),
        (5, 199_999),
        (6, 8_192),
    ] {
        let bytes = counted_from(alloc, first, length)?;
        assert!(rt; is_read(&rt, &mut site, &mut into, &bytes)?, "{length}");
    }
    fs::remove_file(&rt, "buffer/file")?;
    assert!(rt; is_none(alloc, &mut site, &mut into)?);
    assert!(rt; site.faults() == 0);
    fs::remove_dir_all(&rt, "buffer")?;
    Ok(())
}

// Whether a file of so many bytes, which takes no room on the disk, is told by its length where that is more than the limit.
fn is_too_long<F: Folder>(
    rt: &HostRuntime,
    path: &str,
    site: &mut F,
    length: u64,
) -> Result<bool, Fail> {
    let alloc = rt.alloc();
    File::create(rt, path)?.set_len(length)?;
    let Ok(name) = named(alloc, "file") else {
        return Ok(false);
    };
    let mut into = Bytes::from_vec(Vec::new(alloc));
    let found = site.get_within(alloc, &name, length.saturating_sub(1), &mut into);
    Ok(found == Ok(Found::TooLong { length }) && into.as_slice().is_empty() && site.faults() == 0)
}

// No room is had for a file that is too long: its length is more than any memory.
#[test]
fn long_files_are_not_read(rt: HostRuntime) -> Result<(), Fail> {
    begin(&rt, "long")?;
    let mut site = folder_at(&rt, "long")?;
    assert!(rt; is_too_long(&rt, "long/file", &mut site, 1 << 40)?);
    fs::remove_dir_all(&rt, "long")?;
    Ok(())
}

const LINKS: &[Step] = &[
    Step::Write("aside/f", b"secret"),
    Step::Link("../aside", "links/way"),
    Step::List(Err(FAILED)),
    Step::Get("way/f", Err(FAILED)),
    Step::Put("way/f", b"x", Err(FAILED)),
    Step::Put("way/g", b"x", Err(FAILED)),
    Step::Remove("links/way"),
    Step::Link("../aside/f", "links/f"),
    Step::List(Err(FAILED)),
    Step::Get("f", Err(FAILED)),
    Step::Within("f", 9, Err(FAILED)),
    Step::Put("f", b"x", Err(FAILED)),
    Step::Faults(8),
    Step::Holds("aside/f", b"secret"),
    Step::Absent("aside/g"),
    Step::Remove("links/f"),
];

const BAD_NAMES: &[Step] = &[
    Step::Write("links/a\\b", b""),
    Step::List(Err(FAILED)),
    Step::Remove("links/a\\b"),
    Step::Write("links/a:b", b""),
    Step::List(Err(FAILED)),
    Step::Remove("links/a:b"),
    Step::Write("links/a\nb", b""),
    Step::List(Err(FAILED)),
    Step::Remove("links/a\nb"),
    Step::List(Ok("")),
    Step::Faults(11),
];

#[test]
fn links_and_bad_names_fail(rt: HostRuntime) -> Result<(), Fail> {
    begin(&rt, "links")?;
    begin(&rt, "aside")?;
    let mut site = folder_at(&rt, "links")?;
    go(&rt, &rt, "links", &mut site, LINKS);
    let why = "something in it is a link, or neither a file nor a folder";
    assert!(rt; is_said(rt.alloc(), site.why(), why));
    go(&rt, &rt, "names", &mut site, BAD_NAMES);
    fs::remove_dir_all(&rt, "links")?;
    fs::remove_dir_all(&rt, "aside")?;
    Ok(())
}

const UNFINISHED: &[Step] = &[
    Step::Write("stopped/a:unfinished", b"half"),
    Step::List(Ok("")),
    Step::Put("a", b"whole", Ok(())),
    Step::Get("a", Ok(b"whole")),
    Step::Absent("stopped/a:unfinished"),
    Step::Write("stopped/b:unfinished", b"another one's"),
];

const LOCKED: &[Step] = &[
    Step::Put("b", b"mine", Err(FAILED)),
    Step::Faults(1),
    Step::List(Ok("a|")),
];

const LET_GO: &[Step] = &[Step::Put("b", b"mine", Ok(())), Step::Get("b", Ok(b"mine"))];

// Asserts the steps while another program has a lock of the file at the path.
fn go_locked<F: Folder>(
    abort: &impl Abort,
    rt: &HostRuntime,
    path: &str,
    site: &mut F,
    steps: &[Step],
) -> Result<(), Fail> {
    let other = File::open(rt, path)?;
    other.lock()?;
    go(abort, rt, "locked", site, steps);
    Ok(())
}

#[test]
fn what_was_never_finished_is_passed_over(rt: HostRuntime) -> Result<(), Fail> {
    begin(&rt, "stopped")?;
    let mut site = folder_at(&rt, "stopped")?;
    go(&rt, &rt, "unfinished", &mut site, UNFINISHED);
    go_locked(&rt, &rt, "stopped/b:unfinished", &mut site, LOCKED)?;
    go(&rt, &rt, "let go", &mut site, LET_GO);
    fs::remove_dir_all(&rt, "stopped")?;
    Ok(())
}

const OLD: &[Step] = &[Step::Put("a", b"old", Ok(()))];

const NOT_DURABLE: &[Step] = &[Step::Get("a", Ok(b"old"))];

const DURABLE: &[Step] = &[Step::Get("a", Ok(b"new"))];

const AFTER_A_STOP: &[Step] = &[
    Step::Absent("shut/a:unfinished"),
    Step::Absent("shut/a:replaced:unfinished"),
    Step::Write("shut/a:replaced:unfinished", b"left by a stop"),
    Step::List(Ok("a|")),
    Step::Put("a", b"newer", Ok(())),
    Step::Get("a", Ok(b"newer")),
    Step::Absent("shut/a:replaced:unfinished"),
];

// Whether a file is put while the entries of the folder at the path may be written and not read.
fn is_put_unread<F: Folder>(rt: &HostRuntime, path: &str, site: &mut F) -> Result<bool, Fail> {
    fs::set_permissions(rt, path, Permissions::from_mode(0o300))?;
    let done = put(rt.alloc(), site, "a", b"new").is_ok();
    fs::set_permissions(rt, path, Permissions::from_mode(0o700))?;
    Ok(done)
}

// Entries of a folder that may be written and not read can be made, but not made durable.
#[test]
fn what_cannot_be_made_durable_is_undone(rt: HostRuntime) -> Result<(), Fail> {
    begin(&rt, "shut")?;
    let mut site = folder_at(&rt, "shut")?;
    go(&rt, &rt, "old", &mut site, OLD);
    // Who is above permissions can read the folder, and the file is put.
    let is_put = is_put_unread(&rt, "shut", &mut site)?;
    let standing = if is_put { DURABLE } else { NOT_DURABLE };
    go(&rt, &rt, "standing", &mut site, standing);
    go(&rt, &rt, "after a stop", &mut site, AFTER_A_STOP);
    fs::remove_dir_all(&rt, "shut")?;
    Ok(())
}

const NO_FOLDER: &[Step] = &[
    Step::List(Err(FAILED)),
    Step::Put("a", b"x", Err(FAILED)),
    Step::Put("a/b", b"x", Err(FAILED)),
    Step::Faults(3),
];

const NOTHING_IN_NO_FOLDER: &[Step] = &[Step::Get("a", Ok(b"|")), Step::Absent("absent")];

// Asserts the steps of a folder at the path, and what it says of a failure.
fn assert_folder(
    abort: &impl Abort,
    rt: &HostRuntime,
    path: &str,
    steps: &[Step],
    reason: &str,
) -> Result<(), AllocError> {
    let mut site = folder_at(rt, path)?;
    go(abort, rt, path, &mut site, steps);
    assert!(abort; is_said(rt.alloc(), site.why(), reason), "{path}");
    assert!(abort; site.path() == path);
    Ok(())
}

#[test]
fn where_no_folder_stands(rt: HostRuntime) -> Result<(), Fail> {
    let reason = "No such file or directory";
    assert_folder(&rt, &rt, "absent", NO_FOLDER, reason)?;
    assert_folder(&rt, &rt, "", NO_FOLDER, reason)?;
    assert_folder(&rt, &rt, "absent", NOTHING_IN_NO_FOLDER, "")?;
    Ok(())
}
