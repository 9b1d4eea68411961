// What stands at a path below a folder. No symbolic link is followed.
use std::alloc::Global;
use std::fs::Metadata;
use std::io::ErrorKind;
use std::os::unix::fs::MetadataExt;
use std::rt::Files;
use std::{fs, io};

// What stands at a path. A file is told from others by its device and its number there.
#[derive(Clone, Copy, Debug, PartialEq, Eq)]
pub(crate) enum Standing {
    Nothing,
    Folder,
    File { device: u64, number: u64 },
    Other,
}

// What is said of a link, and of anything else that is neither a file nor a folder.
pub(crate) fn other_stands() -> io::Error {
    io::Error::new(
        ErrorKind::Other,
        "something in it is a link, or neither a file nor a folder",
    )
}

// Whether the error says that nothing stands at the path.
fn says_absent(error: &io::Error) -> bool {
    let kind = error.kind();
    kind == ErrorKind::NotFound || kind == ErrorKind::NotADirectory
}

// What has these facts.
pub(crate) fn standing_of(facts: &Metadata) -> Standing {
    if facts.is_dir() {
        return Standing::Folder;
    }
    if facts.is_file() {
        return Standing::File {
            device: facts.dev(),
            number: facts.ino(),
        };
    }
    Standing::Other
}

// What stands at the path. A symbolic link at its end stands for itself.
pub(crate) fn standing_at<R: Files>(rt: &R, path: &str) -> io::Result<Standing> {
    match fs::symlink_metadata(rt, path) {
        Ok(facts) => Ok(standing_of(&facts)),
        Err(error) => {
            if says_absent(&error) {
                Ok(Standing::Nothing)
            } else {
                Err(error)
            }
        }
    }
}

// The path of a name below a folder. A folder of an empty path would be the root of all files.
pub(crate) fn path_below(alloc: Global, folder: &str, name: &str) -> io::Result<String> {
    if folder.is_empty() {
        return Err(io::Error::new(ErrorKind::InvalidInput, "an empty path is no folder's"));
    }
    let mut path = String::from_str(alloc, folder)?;
    path.push('/')?;
    path.push_str(name)?;
    Ok(path)
}

// The part of a name before its last slash, if it has one.
pub(crate) fn folder_part(name: &str) -> Option<&str> {
    match name.rsplit_once('/') {
        Some((folder, _)) => Some(folder),
        None => None,
    }
}
