// Writing a file below a folder, whole or not at all. The bytes are written and made durable beside the file, under a
// name that no file of a folder can have.
use crate::file::sync_folder;
use crate::folder_path::{
    Standing, folder_part, other_stands, path_below, standing_at, standing_of,
};
use small_types::Name;
use std::alloc::{AllocError, Global};
use std::fs::{File, TryLockError};
use std::io::ErrorKind;
use std::os::unix::fs::FileExt;
use std::rt::Files;
use std::{fs, io};

// What the name of a file ends with while it is written. The colon is a byte of no name.
const UNFINISHED: &str = ":unfinished";

// What the second name of a file ends with while another one takes its place.
const REPLACED: &str = ":replaced:unfinished";

// Whether a file of this name was never finished.
pub(crate) fn is_unfinished(name: &str) -> bool {
    name.ends_with(UNFINISHED)
}

// Where a file goes.
#[derive(Drop)]
struct Place {
    folder: String,
    file: String,
    unfinished: String,
    replaced: String,
}

// The path with this end.
fn path_with(alloc: Global, file: &str, end: &str) -> Result<String, AllocError> {
    let mut path = String::from_str(alloc, file)?;
    path.push_str(end)?;
    Ok(path)
}

fn place_of(alloc: Global, root: &str, name: &str) -> io::Result<Place> {
    let file = path_below(alloc, root, name)?;
    let folder = match folder_part(name) {
        Some(folder) => path_below(alloc, root, folder)?,
        None => String::from_str(alloc, root)?,
    };
    Ok(Place {
        folder,
        unfinished: path_with(alloc, file.as_str(), UNFINISHED)?,
        replaced: path_with(alloc, file.as_str(), REPLACED)?,
        file,
    })
}

// Makes a folder in another one, and its entry durable.
fn make_folder<R: Files<File = File>>(rt: &R, parent: &str, path: &str) -> io::Result<()> {
    fs::create_dir(rt, path)?;
    sync_folder(rt, parent)
}

// Makes those of these folders that do not stand. What stands there and is no folder fails, a symbolic link too.
fn make_folders<R: Files<File = File>>(
    rt: &R,
    alloc: Global,
    root: &str,
    folders: &str,
) -> io::Result<()> {
    let mut path = String::from_str(alloc, root)?;
    for part in folders.split('/') {
        let next = path_below(alloc, path.as_str(), part)?;
        match standing_at(rt, next.as_str())? {
            Standing::Folder => {}
            Standing::Nothing => make_folder(rt, path.as_str(), next.as_str())?,
            Standing::File { .. } => {
                return Err(io::Error::new(
                    ErrorKind::NotADirectory,
                    "a file in it stands where a folder is wanted",
                ));
            }
            Standing::Other => return Err(other_stands()),
        }
        path = next;
    }
    Ok(())
}

// Takes the lock of an unfinished file. One that another program holds is being written by it.
fn lock_unfinished(file: &File) -> io::Result<()> {
    match file.try_lock() {
        Ok(()) => Ok(()),
        Err(TryLockError::WouldBlock) => Err(io::Error::from(ErrorKind::AlreadyExists)),
        Err(TryLockError::Error(error)) => Err(error),
    }
}

// Makes an empty file at the path, and takes its lock.
fn create<R: Files<File = File>>(rt: &R, path: &str) -> io::Result<File> {
    let file = File::create_new(rt, path)?;
    if let Err(error) = lock_unfinished(&file) {
        let _ = fs::remove_file(rt, path);
        return Err(error);
    }
    Ok(file)
}

// Whether the open file is the one that stands at the path. What is no file there is none.
fn stands_there<R: Files<File = File>>(rt: &R, path: &str, file: &File) -> bool {
    let Ok(facts) = file.metadata() else {
        return false;
    };
    match standing_at(rt, path) {
        Ok(seen) => seen == standing_of(&facts),
        Err(_) => false,
    }
}

// Whether a file stands at the path, and no link or folder.
fn is_file_at<R: Files<File = File>>(rt: &R, path: &str) -> bool {
    matches!(standing_at(rt, path), Ok(Standing::File { .. }))
}

// Removes the file that an earlier run has left at the path, unless another one is still writing it.
fn clear<R: Files<File = File>>(rt: &R, path: &str) -> io::Result<()> {
    if !is_file_at(rt, path) {
        return Err(io::Error::from(ErrorKind::AlreadyExists));
    }
    let left = File::open(rt, path)?;
    lock_unfinished(&left)?;
    if !stands_there(rt, path, &left) {
        return Err(io::Error::from(ErrorKind::AlreadyExists));
    }
    fs::remove_file(rt, path)
}

// Makes an empty file at the path, in place of one that an earlier run has left there.
fn begin<R: Files<File = File>>(rt: &R, path: &str) -> io::Result<File> {
    match create(rt, path) {
        Err(error) if error.kind() == ErrorKind::AlreadyExists => {
            clear(rt, path)?;
            create(rt, path)
        }
        made => made,
    }
}

// Writes the bytes to an empty file, and makes them durable.
fn fill(file: &File, bytes: &[u8]) -> io::Result<()> {
    file.write_all_at(bytes, 0)?;
    file.sync_data()
}

// Makes a file of these bytes at the path, and nothing where that fails. The file is locked while it is held.
fn write_unfinished<R: Files<File = File>>(rt: &R, path: &str, bytes: &[u8]) -> io::Result<File> {
    let file = begin(rt, path)?;
    if let Err(error) = fill(&file, bytes) {
        let _ = fs::remove_file(rt, path);
        return Err(error);
    }
    Ok(file)
}

// Whether the error may say that the file system has no second names for a file.
fn has_no_links(error: &io::Error) -> bool {
    let kind = error.kind();
    kind == ErrorKind::PermissionDenied || kind == ErrorKind::Unsupported
}

// Gives the finished file its name, where none of that name was seen. A file that has come there since is kept, and
// the call fails; but where the file system knows no second name for a file, it is replaced.
fn finish_new<R: Files<File = File>>(rt: &R, place: &Place) -> io::Result<()> {
    match fs::hard_link(rt, place.unfinished.as_str(), place.file.as_str()) {
        Ok(()) => {
            let _ = fs::remove_file(rt, place.unfinished.as_str());
            Ok(())
        }
        Err(error) if has_no_links(&error) => {
            fs::rename(rt, place.unfinished.as_str(), place.file.as_str())
        }
        Err(error) => Err(error),
    }
}

// Gives the file that is to be replaced a second name, in place of one that an earlier run left there. Where the file
// system knows no second name for a file, it has none.
fn keep<R: Files<File = File>>(rt: &R, place: &Place) -> io::Result<()> {
    if is_file_at(rt, place.replaced.as_str()) {
        fs::remove_file(rt, place.replaced.as_str())?;
    }
    match fs::hard_link(rt, place.file.as_str(), place.replaced.as_str()) {
        Err(error) if !has_no_links(&error) => Err(error),
        _ => Ok(()),
    }
}

// Puts the finished file in place of the one that stands there.
fn replace<R: Files<File = File>>(rt: &R, place: &Place) -> io::Result<()> {
    keep(rt, place)?;
    let done = fs::rename(rt, place.unfinished.as_str(), place.file.as_str());
    if done.is_err() {
        let _ = fs::remove_file(rt, place.replaced.as_str());
    }
    done
}

// Gives the finished file its name. Where that fails, nothing is left of it.
fn finish<R: Files<File = File>>(rt: &R, place: &Place, is_new: bool) -> io::Result<()> {
    let done = if is_new {
        finish_new(rt, place)
    } else {
        replace(rt, place)
    };
    if done.is_err() {
        let _ = fs::remove_file(rt, place.unfinished.as_str());
    }
    done
}

// Makes the entries of the folder that was written last durable, if it is another one than this.
fn leave<R: Files<File = File>>(rt: &R, last: &mut Option<String>, folder: &str) -> io::Result<()> {
    let Some(left) = last else {
        return Ok(());
    };
    if left.as_str() == folder {
        return Ok(());
    }
    match sync_folder(rt, left.as_str()) {
        Err(error) if error.kind() != ErrorKind::NotFound => Err(error),
        _ => {
            *last = None;
            Ok(())
        }
    }
}

// Removes a file whose entry cannot be made durable; the one that it replaced takes its place again.
fn undo<R: Files<File = File>>(rt: &R, place: &Place, is_new: bool) {
    if is_new {
        let _ = fs::remove_file(rt, place.file.as_str());
    } else if is_file_at(rt, place.replaced.as_str()) {
        let _ = fs::rename(rt, place.replaced.as_str(), place.file.as_str());
    }
}

// Makes the entry of the file in its folder durable, or undoes what was done.
fn settle<R: Files<File = File>>(rt: &R, place: &Place, is_new: bool) -> io::Result<()> {
    let done = sync_folder(rt, place.folder.as_str());
    if done.is_err() {
        undo(rt, place, is_new);
    } else if !is_new {
        let _ = fs::remove_file(rt, place.replaced.as_str());
    }
    done
}

// Writes the file, durably but for the entry of a new file in the folder that was written last.
fn write_file<R: Files<File = File>>(
    rt: &R,
    last: &mut Option<String>,
    place: Place,
    is_new: bool,
    bytes: &[u8],
) -> io::Result<()> {
    leave(rt, last, place.folder.as_str())?;
    let held = write_unfinished(rt, place.unfinished.as_str(), bytes)?;
    finish(rt, &place, is_new)?;
    drop(held);
    if last.is_some() && is_new {
        return Ok(());
    }
    settle(rt, &place, is_new)?;
    *last = Some(place.folder);
    Ok(())
}

// Makes these bytes the file of this name below the root. What stands there and is no file fails. `last` is the folder
// that was written last, whose new entries may not be durable yet.
pub(crate) fn put_file<R: Files<File = File>>(
    rt: &R,
    alloc: Global,
    root: &str,
    last: &mut Option<String>,
    name: &str,
    bytes: &[u8],
) -> io::Result<()> {
    let place = place_of(alloc, root, name)?;
    if let Some(folders) = folder_part(name) {
        make_folders(rt, alloc, root, folders)?;
    }
    let is_new = match standing_at(rt, place.file.as_str())? {
        Standing::Nothing => true,
        Standing::File { .. } => false,
        Standing::Folder => {
            return Err(io::Error::new(
                ErrorKind::IsADirectory,
                "a folder in it stands where a file is wanted",
            ));
        }
        Standing::Other => return Err(other_stands()),
    };
    write_file(rt, last, place, is_new, bytes)
}
