// What a disk in a file does with real files.
use crate::shown::{holds, is_said, stands};
use disks::{Disk, Unknown};
use outside::Failed;
use outside_real::FileDisk;
use std::alloc::{AllocError, Allocator};
use std::fs::{File, Metadata, OpenOptions};
use std::io::ErrorKind;
use std::process::Abort;
use std::rt::Files;
use std::test::Fail;
use std::{fs, io};

// A system whose files can be read and not written.
#[derive(Drop)]
struct Sealed<R>(R);

impl<R: Files<File = File>> Files for Sealed<R> {
    type File = File;

    type Dir = R::Dir;

    fn open_file(&self, _how: &OpenOptions, path: &str) -> io::Result<File> {
        let mut how = OpenOptions::new();
        how.read(true);
        self.0.open_file(&how, path)
    }

    fn open_dir(&self, path: &str) -> io::Result<R::Dir> {
        self.0.open_dir(path)
    }

    fn metadata(&self, path: &str) -> io::Result<Metadata> {
        self.0.metadata(path)
    }

    fn symlink_metadata(&self, path: &str) -> io::Result<Metadata> {
        self.0.symlink_metadata(path)
    }

    fn copy(&self, _from: &str, _to: &str) -> io::Result<u64> {
        Err(io::Error::from(ErrorKind::Unsupported))
    }

    fn rename(&self, _from: &str, _to: &str) -> io::Result<()> {
        Err(io::Error::from(ErrorKind::Unsupported))
    }

    fn remove_file(&self, _path: &str) -> io::Result<()> {
        Err(io::Error::from(ErrorKind::Unsupported))
    }

    fn create_dir(&self, _path: &str) -> io::Result<()> {
        Err(io::Error::from(ErrorKind::Unsupported))
    }

    fn remove_dir(&self, _path: &str) -> io::Result<()> {
        Err(io::Error::from(ErrorKind::Unsupported))
    }

    fn remove_dir_all<B: Allocator>(&self, _alloc: B, _path: &str) -> io::Result<()> {
        Err(io::Error::from(ErrorKind::Unsupported))
    }
}

// A call of a disk and what it answers, or what then stands at its path.
#[derive(Drop)]
enum Step {
    Length(Result<u64, Failed>),
    Read(u64, Result<(usize, [u8; 6]), Failed>),
    Write(u64, &'static [u8], Result<(), Failed>),
    // To a length that it has, by its own word.
    Cut(u64, Result<(), Failed>),
    CutAll(Result<(), Failed>),
    Sync(Result<(), Failed>),
    // The calls of changes and syncs, the bytes that they were handed, and all faults.
    Counts(u64, u64, u64),
    Absent,
    Stands,
    Holds(&'static [u8]),
}

fn read_at<D: Disk>(disk: &mut D, place: u64) -> Result<(usize, [u8; 6]), Failed> {
    let mut buf = *b"......";
    let n = disk.read(place, &mut buf)?;
    Ok((n, buf))
}

fn cut<D: Disk>(disk: &mut D, size: u64) -> Result<(), Failed> {
    if size > disk.length()? {
        return Err(Failed);
    }
    disk.cut(size)
}

fn counts<D: Disk>(disk: &D) -> (u64, u64, u64) {
    (disk.calls(), disk.written(), disk.faults())
}

// Whether the step of the disk at the path answers what it is to.
fn answers<D: Disk>(rt: &HostRuntime, path: &str, disk: &mut D, step: &Step) -> bool {
    match step {
        Step::Length(want) => disk.length() == *want,
        Step::Read(place, want) => read_at(disk, *place) == *want,
        Step::Write(place, bytes, want) => disk.write_at(*place, bytes) == *want,
        Step::Cut(size, want) => cut(disk, *size) == *want,
        Step::CutAll(want) => disk.cut(0) == *want,
        Step::Sync(want) => disk.sync() == *want,
        Step::Counts(calls, written, faults) => counts(disk) == (*calls, *written, *faults),
        Step::Absent => !stands(rt, path),
        Step::Stands => stands(rt, path),
        Step::Holds(want) => holds(rt, path, want),
    }
}

// Asserts each step of the disk at the path.
fn go<D: Disk>(abort: &impl Abort, rt: &HostRuntime, path: &str, disk: &mut D, steps: &[Step]) {
    for (number, step) in steps.iter().enumerate() {
        assert!(abort; answers(rt, path, disk, step), "{path}: step {number}");
    }
}

fn disk_at(rt: &HostRuntime, path: &str) -> Result<FileDisk<HostRuntime, Unknown>, AllocError> {
    let path = String::from_str(rt.alloc(), path)?;
    Ok(FileDisk::new(rt.clone()?, path, Unknown))
}

// Asserts each step of a new disk at the path.
fn begin_and_go(
    abort: &impl Abort,
    rt: &HostRuntime,
    path: &str,
    steps: &[Step],
) -> Result<(), AllocError> {
    let mut disk = disk_at(rt, path)?;
    go(abort, rt, path, &mut disk, steps);
    Ok(())
}

// Nothing at these paths, whatever an earlier run left.
fn clear(rt: &HostRuntime, paths: &[&str]) {
    for path in paths {
        let _ = fs::remove_file(rt, *path);
        let _ = fs::remove_dir(rt, *path);
    }
}

const BEGINS: &[Step] = &[
    Step::Absent,
    Step::Length(Ok(0)),
    Step::Stands,
    Step::Write(2, b"abcd", Ok(())),
    Step::Sync(Ok(())),
    Step::Read(0, Ok((6, *b"\0\0abcd"))),
    Step::Read(4, Ok((2, *b"cd...."))),
    Step::Read(9, Ok((0, *b"......"))),
];

const GOES_ON: &[Step] = &[
    Step::Read(1, Ok((5, *b"\0abcd."))),
    Step::Write(0, b"AB", Ok(())),
    Step::Cut(4, Ok(())),
    Step::Length(Ok(4)),
    Step::Write(7, b"", Ok(())),
    Step::Sync(Ok(())),
    Step::Holds(b"ABab\0\0\0"),
    Step::Counts(4, 2, 0),
];

const IN_A_FOLDER: &[Step] = &[
    Step::Sync(Ok(())),
    Step::Stands,
    Step::Read(u64::MAX, Ok((0, *b"......"))),
    Step::Counts(1, 0, 0),
];

#[test]
fn a_file_keeps_what_was_written(rt: HostRuntime) -> Result<(), Fail> {
    clear(&rt, &["kept", "below/new", "below"]);
    begin_and_go(&rt, &rt, "kept", BEGINS)?;
    begin_and_go(&rt, &rt, "kept", GOES_ON)?;
    fs::create_dir(&rt, "below")?;
    begin_and_go(&rt, &rt, "below/new", IN_A_FOLDER)?;
    clear(&rt, &["kept", "below/new", "below"]);
    Ok(())
}

const LOCKED_OUT: &[Step] = &[Step::Write(0, b"yours", Err(Failed)), Step::Holds(b"mine")];

// It has failed in a change, and so it fails once the lock is free too.
const STILL_OUT: &[Step] = &[Step::Length(Err(Failed)), Step::Counts(1, 5, 2)];

const LET_IN: &[Step] = &[Step::Length(Ok(4)), Step::Counts(0, 0, 1)];

#[test]
fn one_disk_at_a_time_has_the_file(rt: HostRuntime) -> Result<(), Fail> {
    let path = "locked";
    clear(&rt, &[path]);
    let mut second = disk_at(&rt, path)?;
    let mut third = disk_at(&rt, path)?;
    let mut first = disk_at(&rt, path)?;
    go(
        &rt,
        &rt,
        path,
        &mut first,
        &[Step::Write(0, b"mine", Ok(()))],
    );
    go(&rt, &rt, path, &mut second, &[Step::Length(Err(Failed))]);
    go(&rt, &rt, path, &mut third, LOCKED_OUT);
    drop(first);
    go(&rt, &rt, path, &mut third, STILL_OUT);
    go(&rt, &rt, path, &mut second, LET_IN);
    assert!(rt; is_said(rt.alloc(), second.why(), "held by another program"));
    assert!(rt; second.path() == path);
    clear(&rt, &[path]);
    Ok(())
}

const NO_FILE: &[Step] = &[Step::Length(Err(Failed)), Step::Read(0, Err(Failed))];

// One call of each kind fails.
const ALL_FAIL: &[Step] = &[
    Step::Sync(Err(Failed)),
    Step::Length(Err(Failed)),
    Step::Read(1, Err(Failed)),
    Step::Write(0, b"", Err(Failed)),
    Step::CutAll(Err(Failed)),
];

// Asserts that what stands at the path is no file, and that this is said why.
fn assert_no_file(
    abort: &impl Abort,
    rt: &HostRuntime,
    path: &str,
    reason: &str,
) -> Result<(), AllocError> {
    let mut disk = disk_at(rt, path)?;
    assert!(abort; is_said(rt.alloc(), disk.why(), ""), "{path}");
    go(abort, rt, path, &mut disk, NO_FILE);
    go(abort, rt, path, &mut disk, ALL_FAIL);
    go(abort, rt, path, &mut disk, &[Step::Counts(3, 0, 7)]);
    assert!(abort; is_said(rt.alloc(), disk.why(), reason), "{path}");
    Ok(())
}

#[test]
fn what_is_no_file_fails(rt: HostRuntime) -> Result<(), Fail> {
    clear(&rt, &["folder"]);
    fs::create_dir(&rt, "folder")?;
    for (path, reason) in [
        ("folder", "Is a directory"),
        ("absent/file", "No such file or directory"),
        ("", "No such file or directory"),
    ] {
        assert_no_file(&rt, &rt, path, reason)?;
    }
    clear(&rt, &["folder"]);
    Ok(())
}

const STANDING: &[Step] = &[Step::Sync(Ok(())), Step::Read(1, Ok((5, *b"tands.")))];

// Asserts that the change fails in a sealed file, and then every call, also those that the system would answer.
fn assert_fails_once(
    abort: &impl Abort,
    rt: &HostRuntime,
    path: &str,
    change: &Step,
    written: u64,
) -> Result<(), AllocError> {
    let at = String::from_str(rt.alloc(), path)?;
    let mut disk = FileDisk::new(Sealed(rt.clone()?), at, Unknown);
    go(abort, rt, path, &mut disk, STANDING);
    assert!(abort; answers(rt, path, &mut disk, change));
    go(abort, rt, path, &mut disk, ALL_FAIL);
    assert!(abort; counts(&disk) == (5, written, 6));
    Ok(())
}

// A change, and how many bytes are to be written by then.
const CHANGES: &[(Step, u64)] = &[
    (Step::Write(0, b"ab", Err(Failed)), 2),
    (Step::Write(1 << 63, b"ab", Err(Failed)), 2),
    (Step::Write(u64::MAX, b"ab", Err(Failed)), 2),
    (Step::CutAll(Err(Failed)), 0),
];

#[test]
fn a_failed_change_is_the_last_call(rt: HostRuntime) -> Result<(), Fail> {
    let path = "sealed";
    clear(&rt, &[path]);
    fs::write(&rt, path, b"stands".as_slice())?;
    for (change, written) in CHANGES {
        assert_fails_once(&rt, &rt, path, change, *written)?;
    }
    assert!(rt; holds(&rt, path, b"stands"));
    clear(&rt, &[path]);
    Ok(())
}
