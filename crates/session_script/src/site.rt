// The files of a site.
use crate::next::numbered;
use folders::{Folder, Held, MemFolder, are_distinct};
use small_types::{Bytes, List, Name};
use std::alloc::Global;
use std::io::{self, ErrorKind};

fn name_of(alloc: Global, text: &str) -> io::Result<Name> {
    match Name::read(alloc, text.as_bytes()) {
        Ok(name) => Ok(name),
        Err(_) => Err(ErrorKind::InvalidInput.into()),
    }
}

/// Puts a file there.
pub fn put(rt: &HostRuntime, folder: &mut MemFolder, file: &str, bytes: &[u8]) -> io::Result<()> {
    let name = name_of(rt.alloc(), file)?;
    match folder.put(&name, bytes) {
        Ok(()) => Ok(()),
        Err(_) => Err(ErrorKind::Other.into()),
    }
}

/// Puts a file there: its name, `=` and its bytes.
pub fn put_text(rt: &HostRuntime, folder: &mut MemFolder, words: &str) -> io::Result<()> {
    match words.split_once('=') {
        Some((file, text)) => put(rt, folder, file, text.as_bytes()),
        None => Err(ErrorKind::InvalidInput.into()),
    }
}

/// The bytes of a file, or none where there is no such file.
pub fn held(alloc: Global, folder: &mut MemFolder, file: &str) -> io::Result<Option<Bytes>> {
    let name = name_of(alloc, file)?;
    match folder.get(alloc, &name) {
        Ok(bytes) => Ok(bytes),
        Err(_) => Err(ErrorKind::Other.into()),
    }
}

/// Adds a line to a file: its name, `=` and the line.
pub fn add_line(rt: &HostRuntime, folder: &mut MemFolder, words: &str) -> io::Result<()> {
    let Some((file, line)) = words.split_once('=') else {
        return Err(ErrorKind::InvalidInput.into());
    };
    let mut bytes = match held(rt.alloc(), folder, file)? {
        Some(bytes) => bytes.into_vec(),
        None => Vec::new(rt.alloc()),
    };
    bytes.extend_from_slice(line.as_bytes())?;
    bytes.push(b'\n')?;
    put(rt, folder, file, &bytes)
}

/// Puts a file of zeros there: their number, a space and its name.
pub fn put_zeros(rt: &HostRuntime, folder: &mut MemFolder, words: &str) -> io::Result<()> {
    let Some((count, file)) = words.split_once(' ') else {
        return Err(ErrorKind::InvalidInput.into());
    };
    let Ok(count) = count.parse::<u32>() else {
        return Err(ErrorKind::InvalidInput.into());
    };
    let mut bytes = Vec::new(rt.alloc());
    bytes.resize(count as usize, 0u8)?;
    put(rt, folder, file, &bytes)
}

/// The text, in which each `%` stands for the number.
pub fn filled(alloc: Global, text: &str, number: u64) -> io::Result<String> {
    let shown = format!(in alloc; "{number}")?;
    let mut made = String::new(alloc);
    for (place, part) in text.split('%').enumerate() {
        if place > 0 {
            made.push_str(shown.as_str())?;
        }
        made.push_str(part)?;
    }
    Ok(made)
}

// Adds so many items, in each of which `%` stands for its number.
fn add_items(alloc: Global, made: &mut String, count: u64, item: &str) -> io::Result<()> {
    if !item.contains('%') {
        for _ in 0..count {
            made.push_str(item)?;
        }
        return Ok(());
    }
    for number in 0..count {
        let part = filled(alloc, item, number)?;
        made.push_str(part.as_str())?;
    }
    Ok(())
}

// The head, so many items, in each of which `%` stands for its number, and the tail.
fn repeated(alloc: Global, count: u64, text: &str) -> io::Result<String> {
    let (head, rest) = text.split_once('|').unwrap_or((text, ""));
    let (item, tail) = rest.split_once('|').unwrap_or((rest, ""));
    let mut made = String::from_str(alloc, head)?;
    add_items(alloc, &mut made, count, item)?;
    made.push_str(tail)?;
    Ok(made)
}

/// Puts a file of repeated text there: how often, a space, its name, `=`, and what stands before the
/// items, an item and what stands behind them, with `|` between.
pub fn put_repeated(rt: &HostRuntime, folder: &mut MemFolder, words: &str) -> io::Result<()> {
    let (count, rest) = numbered(words)?;
    let Some((file, text)) = rest.split_once('=') else {
        return Err(ErrorKind::InvalidInput.into());
    };
    let made = repeated(rt.alloc(), count, text)?;
    put(rt, folder, file, made.as_str().as_bytes())
}

// The text of a file.
fn text_of(rt: &HostRuntime, folder: &mut MemFolder, file: &str) -> io::Result<String> {
    let alloc = rt.alloc();
    let Some(bytes) = held(alloc, folder, file)? else {
        return Err(ErrorKind::NotFound.into());
    };
    match std::str::from_utf8(bytes.as_slice()) {
        Ok(text) => Ok(String::from_str(alloc, text)?),
        Err(_) => Err(ErrorKind::InvalidInput.into()),
    }
}

/// Gives a deployment that was published without terms some: below which folder, a space, and what
/// stands behind its attributes.
pub fn set_terms(rt: &HostRuntime, folder: &mut MemFolder, words: &str) -> io::Result<()> {
    let alloc = rt.alloc();
    let Some((below, terms)) = words.split_once(' ') else {
        return Err(ErrorKind::InvalidInput.into());
    };
    let file = format!(in alloc; "{below}/demo.application")?;
    let text = text_of(rt, folder, file.as_str())?;
    let Some((head, tail)) = text.as_str().split_once(" mapFileExtensions=\"true\"/>") else {
        return Err(ErrorKind::InvalidInput.into());
    };
    let made = format!(in alloc; "{head} mapFileExtensions=\"true\"{terms}{tail}")?;
    put(rt, folder, file.as_str(), made.as_str().as_bytes())
}

fn copy_of(alloc: Global, file: &Held) -> io::Result<Held> {
    let bytes = Bytes::from_slice(alloc, file.bytes.as_slice())?;
    Ok(Held {
        name: name_of(alloc, file.name.as_str())?,
        bytes,
    })
}

// Copies of the files, but of that one.
fn files_without(alloc: Global, files: &[Held], lost: &str) -> io::Result<Vec<Held>> {
    let mut made = Vec::new(alloc);
    for file in files {
        if file.name.as_bytes() == lost.as_bytes() {
            continue;
        }
        made.push(copy_of(alloc, file)?)?;
    }
    Ok(made)
}

/// A folder of these files.
pub fn folder_of(alloc: Global, files: Vec<Held>, failing: List<u64>) -> io::Result<MemFolder> {
    if !are_distinct(&files) {
        return Err(ErrorKind::InvalidInput.into());
    }
    Ok(MemFolder::new(alloc, List::from_vec(files), failing))
}

/// The folder without that file.
pub fn folder_without(alloc: Global, folder: &MemFolder, lost: &str) -> io::Result<MemFolder> {
    let files = files_without(alloc, folder.files().as_slice(), lost)?;
    folder_of(alloc, files, List::from_vec(Vec::new(alloc)))
}

/// The folder, whose call of that number fails.
pub fn folder_failing(alloc: Global, folder: &MemFolder, call: u64) -> io::Result<MemFolder> {
    let files = files_without(alloc, folder.files().as_slice(), "")?;
    folder_of(alloc, files, List::from_vec([call].to_vec(alloc)?))
}

/// Prints the names of the files, and what each has: its text, where it is short, or its length.
pub fn print_files(rt: &HostRuntime, folder: &MemFolder) -> io::Result<()> {
    for file in folder.files().as_slice() {
        let name = file.name.as_str();
        let bytes = file.bytes.as_slice();
        let length = bytes.len();
        match std::str::from_utf8(bytes) {
            Ok(text) if length < 10 => println!(rt; "  {name}: {text}")?,
            _ => println!(rt; "  {name}: {length} bytes")?,
        }
    }
    Ok(())
}

/// Prints how many files there are.
pub fn print_count(rt: &HostRuntime, folder: &MemFolder) -> io::Result<()> {
    let count = folder.files().as_slice().len();
    println!(rt; "files {count}")
}
