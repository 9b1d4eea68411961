// The names of the files below a folder.
use crate::folder_path::{other_stands, path_below};
use crate::folder_put::is_unfinished;
use small_types::{List, Name, NameFault};
use std::alloc::Global;
use std::fs::{DirEntry, File};
use std::io::ErrorKind;
use std::rt::Files;
use std::{fs, io};

// What a walk over the folders found, and the folders where it has not been.
#[derive(Drop)]
struct Walk {
    names: Vec<Name>,
    folders: Vec<Name>,
}

// What is said of a name that no file of a folder has.
fn no_name() -> io::Error {
    io::Error::new(ErrorKind::InvalidData, "a name in it is no file name")
}

// The name of these bytes.
fn named(alloc: Global, text: &str) -> io::Result<Name> {
    match Name::read(alloc, text.as_bytes()) {
        Ok(name) => Ok(name),
        Err(NameFault::Bad) => Err(no_name()),
        Err(NameFault::Memory) => Err(io::Error::from(ErrorKind::OutOfMemory)),
    }
}

// The name of what stands in a folder, which is the root where there is none. A backslash is a byte of no name.
fn name_in(alloc: Global, folder: Option<&Name>, name: &str) -> io::Result<Name> {
    if name.contains('\\') {
        return Err(no_name());
    }
    match folder {
        None => named(alloc, name),
        Some(folder) => {
            let path = path_below(alloc, folder.as_str(), name)?;
            named(alloc, path.as_str())
        }
    }
}

impl Walk {
    // Adds what stands in a folder: a file, or a folder to be walked. Anything else fails, but a file that was never
    // finished is passed over.
    fn add<R: Files<File = File>>(
        &mut self,
        alloc: Global,
        folder: Option<&Name>,
        entry: &DirEntry<R, Global>,
    ) -> io::Result<()> {
        let kind = entry.file_type()?;
        if kind.is_file() && is_unfinished(entry.file_name()) {
            return Ok(());
        }
        let name = name_in(alloc, folder, entry.file_name())?;
        if kind.is_dir() {
            self.folders.push(name)?;
        } else if kind.is_file() {
            self.names.push(name)?;
        } else {
            return Err(other_stands());
        }
        Ok(())
    }

    // Adds all that stands in a folder at this path.
    fn add_all<R: Files<File = File> + AllocGlobal + Clone + Drop>(
        &mut self,
        rt: &R,
        folder: Option<&Name>,
        path: &str,
    ) -> io::Result<()> {
        for entry in fs::read_dir(rt, path)? {
            self.add(rt.alloc(), folder, &entry?)?;
        }
        Ok(())
    }
}

// The names of the files below the root, in byte order.
pub(crate) fn list_files<R: Files<File = File> + AllocGlobal + Clone + Drop>(
    rt: &R,
    alloc: Global,
    root: &str,
) -> io::Result<List<Name>> {
    let mut walk = Walk {
        names: Vec::new(alloc),
        folders: Vec::new(alloc),
    };
    walk.add_all(rt, None, root)?;
    for _ in 0..u64::MAX {
        let Some(folder) = walk.folders.pop() else {
            walk.names.sort_unstable();
            return Ok(List::from_vec(walk.names));
        };
        let path = path_below(alloc, root, folder.as_str())?;
        walk.add_all(rt, Some(&folder), path.as_str())?;
    }
    Err(other_stands())
}
