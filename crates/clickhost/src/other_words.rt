// The words behind the folder, and what is wrong with those that ask for nothing.
use host_cli::{CONNECTION_LIMIT, PORT_LEAST, PORT_LIMIT, read_port};
use small_types::{Word, read_decimal};
use std::fmt;

// What is wrong.
#[derive(Clone, Copy)]
pub(crate) enum Misread<'a> {
    // A word is missing, which is called so.
    Missing(&'static str),
    // This is no port.
    Port(&'a str),
    // This is no number of connections.
    Count(&'a str),
    // This is one word too many.
    TooMany(&'a str),
    // A word is no text.
    NoText,
    // Else.
    Words,
}

// Where a run listens, and for how many connections.
#[derive(Clone, Copy)]
pub(crate) struct HostRun {
    pub(crate) port: u16,
    pub(crate) count: u64,
}

fn text_of(word: &Word) -> Result<&str, Misread<'_>> {
    match str::from_utf8(word.as_slice()) {
        Ok(text) => Ok(text),
        Err(_) => Err(Misread::NoText),
    }
}

fn port_of(word: &Word) -> Result<u16, Misread<'_>> {
    let text = text_of(word)?;
    match read_port(text.as_bytes()) {
        Some(port) => Ok(port),
        None => Err(Misread::Port(text)),
    }
}

fn count_of(word: &Word) -> Result<u64, Misread<'_>> {
    let text = text_of(word)?;
    match read_decimal(text.as_bytes()) {
        Some(count) if count <= CONNECTION_LIMIT => Ok(count),
        _ => Err(Misread::Count(text)),
    }
}

// What the words behind the folder ask for, or the first of them that is not taken.
pub(crate) fn read_words(words: &[Word]) -> Result<HostRun, Misread<'_>> {
    let Some(port) = words.first() else {
        return Err(Misread::Missing("PORT"));
    };
    let port = port_of(port)?;
    let Some(count) = words.get(1) else {
        return Err(Misread::Missing("COUNT"));
    };
    let count = count_of(count)?;
    match words.get(2) {
        Some(word) => Err(Misread::TooMany(text_of(word)?)),
        None => Ok(HostRun { port, count }),
    }
}

// What is wrong with the words behind the folder, which ask for nothing.
pub(crate) fn what_is_wrong(words: &[Word]) -> Misread<'_> {
    match read_words(words) {
        Err(why) => why,
        Ok(_) => Misread::Words,
    }
}

impl fmt::Display for Misread<'_> {
    fn fmt<W: fmt::Write>(&self, f: &mut fmt::Formatter<W>) -> fmt::Result {
        match self {
            Misread::Missing(called) => {
                write!(f, "{called} is missing: the words are FOLDER PORT COUNT")
            }
            Misread::Port(word) => {
                let word = word.escape_debug();
                write!(f, "PORT '{word}' is no port: {PORT_LEAST} to {PORT_LIMIT}")
            }
            Misread::Count(word) => {
                let word = word.escape_debug();
                write!(
                    f,
                    "COUNT '{word}' is no number of connections: 0 to {CONNECTION_LIMIT}"
                )
            }
            Misread::TooMany(word) => {
                let word = word.escape_debug();
                write!(
                    f,
                    "'{word}' is one word too many: the words are FOLDER PORT COUNT"
                )
            }
            Misread::NoText => write!(f, "a word is not UTF-8; see clickhost --help"),
            Misread::Words => write!(f, "these words are not taken; see clickhost --help"),
        }
    }
}
