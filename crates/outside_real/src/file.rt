// The calls on one file, which is opened at the first of them.
ghost use Rattle.std.specs.Prelude.{◌≡◌, ◌≤◌, ◌-◌, length, drop, min, IfOk};

use std::fs::{File, OpenOptions, TryLockError};
use std::io;
use std::io::ErrorKind;
use std::os::fd::AsRawFd;
use std::os::unix::fs::FileExt;
use std::path::Path;
use std::rt::Files;

// Makes the entries of a folder durable.
pub(crate) fn sync_folder<R: Files<File = File>>(rt: &R, folder: &str) -> io::Result<()> {
    File::open(rt, folder)?.sync_all()
}

// Makes the file's entry in its folder durable.
fn sync_entry<R: Files<File = File>>(rt: &R, path: &str) -> io::Result<()> {
    let Some(folder) = Path::new(path).parent() else {
        return Ok(());
    };
    let folder = folder.as_str();
    let folder = if folder.is_empty() { "." } else { folder };
    sync_folder(rt, folder)
}

// Has reads of the file give what is on the disk: what waits to be written is written, and then the
// system drops its copies of the file's bytes, which a sync that failed earlier may have left other
// than the disk has them. POSIX knows the second step as advice alone, so a system, or a file
// system, may answer that it is done and keep the copies.
fn settle(file: &File) -> io::Result<()> {
    file.sync_all()?;
    match libc::posix_fadvise(file.as_raw_fd(), 0, 0, libc::POSIX_FADV_DONTNEED) {
        0 => Ok(()),
        error => Err(io::Error::from_raw_os_error(error)),
    }
}

// The file under a number that no standard stream has. Where one of the streams is closed, the
// system gives its number to the next file that is opened, and what is then written to the stream
// would go to the file.
fn beside_streams(file: File) -> io::Result<File> {
    if file.as_raw_fd() > libc::STDERR_FILENO {
        Ok(file)
    } else {
        file.try_clone()
    }
}

// Takes the file's lock.
fn lock(file: &File) -> io::Result<()> {
    match file.try_lock() {
        Ok(()) => Ok(()),
        Err(TryLockError::WouldBlock) => Err(io::Error::new(
            ErrorKind::WouldBlock,
            "held by another program",
        )),
        Err(TryLockError::Error(error)) => Err(error),
    }
}

// Opens the file, or makes an empty one, takes its lock and settles it. An empty file may be a new
// one, so its entry is made durable.
fn open<R: Files<File = File>>(rt: &R, path: &str) -> io::Result<File> {
    let mut options = OpenOptions::new();
    options.read(true).write(true).create(true);
    let file = beside_streams(options.open(rt, path)?)?;
    lock(&file)?;
    settle(&file)?;
    if size_of_file(&file)? == 0 {
        sync_entry(rt, path)?;
    }
    Ok(file)
}

// The file, opened if it is not yet.
pub(crate) fn opened<'a, R: Files<File = File>>(
    rt: &R,
    path: &str,
    file: &'a mut Option<File>,
) -> io::Result<&'a File> {
    if file.is_none() {
        *file = Some(open(rt, path)?);
    }
    match file {
        Some(found) => Ok(found),
        None => Err(io::Error::from(ErrorKind::NotFound)),
    }
}

pub(crate) fn size_of_file(file: &File) -> io::Result<u64> {
    Ok(file.metadata()?.len())
}

/// Reads what stands at the place in a file of this size, as far as there is room, and answers how
/// many bytes that are. It goes on after a call of the system that gave only some of them. A file
/// that ends before its size is an error.
pub fn read_from<F: FileExt>(file: &F, size: u64, place: u64, buf: &mut [u8]) -> io::Result<usize>
    ensures count { IfOk result (λ n. n ≡ min (size - place) (length buf.old)) }
    ensures rest { IfOk result (λ n. drop n buf.new ≡ drop n buf.old) }
{
    let n = size.saturating_sub(place).min(buf.len() as u64) as usize;
    if n == 0 {
        return Ok(0);
    }
    match file.read_exact_at(&mut buf[..n], place) {
        Ok(()) => Ok(n),
        Err(error) => Err(error),
    }
}

/// Writes all the bytes at the place. It goes on after a call of the system that took only some of
/// them. What a file has taken after an error is not told.
pub fn write_whole<F: FileExt>(file: &F, place: u64, bytes: &[u8]) -> io::Result<()> {
    file.write_all_at(bytes, place)
}

// Writes all the bytes. Where there are none, a place past the end still lengthens the file.
pub(crate) fn write_to(file: &File, place: u64, bytes: &[u8]) -> io::Result<()> {
    if !bytes.is_empty() {
        return write_whole(file, place, bytes);
    }
    if place > size_of_file(file)? {
        file.set_len(place)
    } else {
        Ok(())
    }
}

// Shortens the file, and never lengthens it.
pub(crate) fn cut_to(file: &File, size: u64) -> io::Result<()> {
    if size < size_of_file(file)? {
        file.set_len(size)
    } else {
        Ok(())
    }
}

// Makes the bytes and the length durable.
pub(crate) fn sync_to(file: &File) -> io::Result<()> {
    file.sync_data()
}
