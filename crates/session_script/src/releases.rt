// Releases that are published, and manifests that are inspected.
use crate::changing_folder::ChangingFolder;
use crate::next::{Next, first_of};
use crate::runs::{run_apart, unused_folder, words_of};
use crate::site::held;
use folders::MemFolder;
use small_types::{Bytes, Word};
use std::alloc::{AllocError, Global};
use std::io::{self, ErrorKind};
use std::mem::replace;

// The words of a text, and then the marks that are set.
fn marked(alloc: Global, next: &mut Next, words: &str) -> Result<Vec<Word>, AllocError> {
    let mut words = words_of(alloc, words)?;
    for mark in replace(&mut next.marks, Vec::new(alloc)) {
        words.push(mark)?;
    }
    Ok(words)
}

/// Publishes files of the folder there, with the marks.
pub fn publish(
    rt: &HostRuntime,
    next: &mut Next,
    folder: &mut MemFolder,
    words: &str,
) -> io::Result<()> {
    let words = marked(rt.alloc(), next, words)?;
    let ran = run_apart(rt, next, &words, b"", folder);
    drop(words);
    next.clear();
    ran
}

// The bytes that a word stands for: `-` for no file.
fn reading_of(alloc: Global, word: &str) -> Result<Option<Bytes>, AllocError> {
    if word == "-" {
        return Ok(None);
    }
    Ok(Some(Bytes::from_slice(alloc, word.as_bytes())?))
}

/// Publishes a folder whose second file may change: what its first reading gives, a space, what the
/// others do, a space, and the words. Prints which files were put too.
pub fn publish_changing(rt: &HostRuntime, next: &mut Next, words: &str) -> io::Result<()> {
    let alloc = rt.alloc();
    let (first, rest) = first_of(words);
    let (later, words) = first_of(rest);
    let words = words_of(alloc, words)?;
    let mut folder = ChangingFolder {
        first: reading_of(alloc, first)?,
        later: reading_of(alloc, later)?,
        reads: 0,
        puts: String::new(alloc),
    };
    let ran = run_apart(rt, next, &words, b"", &mut folder);
    let told = rt.print(folder.puts.as_str());
    drop(folder);
    drop(words);
    next.clear();
    ran?;
    told
}

// Adds the text, in which the new part stands in place of the first old one.
fn add_swapped(made: &mut Vec<u8>, text: &str, old: &str, new: &str) -> io::Result<()> {
    let Some((head, tail)) = text.split_once(old) else {
        return Err(ErrorKind::NotFound.into());
    };
    made.extend_from_slice(head.as_bytes())?;
    made.extend_from_slice(new.as_bytes())?;
    made.extend_from_slice(tail.as_bytes())?;
    Ok(())
}

// What is inspected of a file: the bytes that are set, and those of the file, with the other text in
// place of the one where that is set.
fn inspected(alloc: Global, next: &Next, bytes: &[u8]) -> io::Result<Vec<u8>> {
    let mut made = next.bytes.to_vec(alloc)?;
    let Some((old, new)) = &next.swap else {
        made.extend_from_slice(bytes)?;
        return Ok(made);
    };
    match std::str::from_utf8(bytes) {
        Ok(text) => add_swapped(&mut made, text, old.as_str(), new.as_str())?,
        Err(_) => return Err(ErrorKind::InvalidInput.into()),
    }
    Ok(made)
}

/// Inspects a file of the folder: which kind of manifest it is, a space, and its name.
pub fn inspect(
    rt: &HostRuntime,
    next: &mut Next,
    folder: &mut MemFolder,
    words: &str,
) -> io::Result<()> {
    let alloc = rt.alloc();
    let (kind, file) = first_of(words);
    let Some(bytes) = held(alloc, folder, file)? else {
        return Err(ErrorKind::NotFound.into());
    };
    let input = inspected(alloc, next, bytes.as_slice())?;
    let words = format!(in alloc; "inspect {kind}")?;
    let words = words_of(alloc, words.as_str())?;
    let mut unused = unused_folder(alloc)?;
    let ran = run_apart(rt, next, &words, &input, &mut unused);
    drop(unused);
    drop(words);
    next.clear();
    ran
}
