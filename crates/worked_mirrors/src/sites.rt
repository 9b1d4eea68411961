// Links as the input describes them.
use crate::texts::Texts;
use connections::MemWire;
use http_link::HttpLink;
use links::{MemLink, Page, are_distinct};
use small_types::{List, Target, Text};
use std::alloc::{AllocError, Global};
use std::io::{self, ErrorKind};

/// A link that is not in its box yet.
#[derive(Drop)]
pub enum Site {
    Memory(MemLink),
    Web(HttpLink<MemWire>),
}

// The list of this number.
fn only(alloc: Global, call: u64) -> Result<List<u64>, AllocError> {
    Ok(List::from_vec([call].to_vec(alloc)?))
}

// What the links are asked for at this path.
fn target(alloc: Global, path: &str) -> Result<Target, AllocError> {
    Ok(Target {
        host: Text::from_string(String::from_str(alloc, "demo.test")?),
        port: 80,
        path: Text::from_string(String::from_str(alloc, path)?),
    })
}

// The page of a word: its path, `=` and the name of its text.
fn page(alloc: Global, texts: &Texts, word: &str) -> io::Result<Page> {
    let Some((path, name)) = word.split_once('=') else {
        return Err(ErrorKind::InvalidInput.into());
    };
    Ok(Page {
        target: target(alloc, path)?,
        bytes: texts.joined(alloc, name)?,
    })
}

// A link in memory with these pages, whose call of that number fails.
fn memory(alloc: Global, texts: &Texts, call: u64, words: &str) -> io::Result<MemLink> {
    let mut pages = Vec::new(alloc);
    for word in words.split_whitespace() {
        pages.push(page(alloc, texts, word)?)?;
    }
    if !are_distinct(&pages) {
        return Err(ErrorKind::InvalidInput.into());
    }
    Ok(MemLink::new(alloc, List::from_vec(pages), only(alloc, call)?))
}

// A link over a wire with these answers, one a connection, whose call of that number fails.
fn web(alloc: Global, texts: &Texts, call: u64, words: &str) -> io::Result<HttpLink<MemWire>> {
    let mut answers = Vec::new(alloc);
    for word in words.split_whitespace() {
        answers.push(texts.joined(alloc, word)?)?;
    }
    let wire = MemWire::new(alloc, List::from_vec(answers), only(alloc, call)?);
    Ok(HttpLink::new(alloc, wire))
}

/// The link of a line: `memory` or `http`, the number of the call that fails, and the pages or the answers. No call has
/// the number 0.
pub fn site_of(alloc: Global, texts: &Texts, line: &str) -> io::Result<Site> {
    let (kind, rest) = line.split_once(' ').unwrap_or((line, ""));
    let (call, words) = rest.split_once(' ').unwrap_or((rest, ""));
    let Ok(call) = call.parse::<u64>() else {
        return Err(ErrorKind::InvalidInput.into());
    };
    if kind == "memory" {
        return Ok(Site::Memory(memory(alloc, texts, call, words)?));
    }
    Ok(Site::Web(web(alloc, texts, call, words)?))
}
