// Reading a file below a folder.
ghost use Rattle.std.specs.Prelude.{IfOk};
ghost use Rattle.folders.specs.Found.{IsUnread, IsWithin};

use crate::folder_path::{
    Standing, folder_part, other_stands, path_below, standing_at, standing_of,
};
use folders::Found;
use std::alloc::Global;
use std::fs::File;
use std::io;
use std::io::{ErrorKind, Read};
use std::rt::Files;

// Whether these folders stand, each in the one before. A symbolic link among them fails.
fn are_folders<R: Files<File = File>>(
    rt: &R,
    alloc: Global,
    root: &str,
    folders: &str,
) -> io::Result<bool> {
    let mut path = String::from_str(alloc, root)?;
    for part in folders.split('/') {
        path.push('/')?;
        path.push_str(part)?;
        match standing_at(rt, path.as_str())? {
            Standing::Folder => {}
            Standing::Nothing | Standing::File { .. } => return Ok(false),
            Standing::Other => return Err(other_stands()),
        }
    }
    Ok(true)
}

// Puts the bytes of an open file of about this size in place of those that the vector has, up to one more than the limit.
// Those are read over, so that memory which was used before is neither cleared nor had anew; what is not there yet is
// appended. A file that became longer than the limit is not read whole, and the vector is empty then.
fn read_over(mut file: File, size: u64, limit: u64, into: &mut Vec<u8>) -> io::Result<Found>
    ensures within { IfOk result (IsWithin limit into.new.items) }
    ensures unread { IfOk result (IsUnread into.old.items into.new.items) }
{
    let known = size as usize;
    into.truncate(known);
    into.reserve(known.saturating_add(1).saturating_sub(into.len()))?;
    file.read_exact(into.as_mut_slice())?;
    let read = into.len() as u64;
    let mut rest = file.take(limit.saturating_sub(read).saturating_add(1));
    rest.read_to_end(into)?;
    let length = into.len() as u64;
    if length > limit {
        let length = rest.get_ref().metadata()?.len().max(length);
        into.clear();
        return Ok(Found::TooLong { length });
    }
    Ok(Found::Whole)
}

// Puts the bytes of the file at the path, which is the one that was seen there, in place of those that the vector has. No
// room is had for a file that is longer than the limit.
fn read_seen<R: Files<File = File>>(
    rt: &R,
    path: &str,
    seen: Standing,
    limit: u64,
    into: &mut Vec<u8>,
) -> io::Result<Found>
    ensures within { IfOk result (IsWithin limit into.new.items) }
    ensures unread { IfOk result (IsUnread into.old.items into.new.items) }
{
    let file = File::open(rt, path)?;
    let facts = file.metadata()?;
    if standing_of(&facts) != seen {
        return Err(io::Error::new(
            ErrorKind::Other,
            "a file in it was replaced while it was opened",
        ));
    }
    let length = facts.len();
    if length > limit {
        return Ok(Found::TooLong { length });
    }
    read_over(file, length, limit, into)
}

// Puts the bytes of the file of this name below the root in place of those that the vector has, where they are at most
// so many. Where nothing or a folder stands there it finds nothing. Anything else fails.
pub(crate) fn get_file<R: Files<File = File>>(
    rt: &R,
    alloc: Global,
    root: &str,
    name: &str,
    limit: u64,
    into: &mut Vec<u8>,
) -> io::Result<Found>
    ensures within { IfOk result (IsWithin limit into.new.items) }
    ensures unread { IfOk result (IsUnread into.old.items into.new.items) }
{
    let path = path_below(alloc, root, name)?;
    if let Some(folders) = folder_part(name) {
        if !are_folders(rt, alloc, root, folders)? {
            return Ok(Found::Nothing);
        }
    }
    match standing_at(rt, path.as_str())? {
        Standing::Nothing | Standing::Folder => Ok(Found::Nothing),
        Standing::Other => Err(other_stands()),
        seen => read_seen(rt, path.as_str(), seen, limit, into),
    }
}
