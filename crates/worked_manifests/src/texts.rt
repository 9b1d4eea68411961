// Texts with names, of which others are made.
use std::alloc::Global;
use std::io::{self, ErrorKind};

// A text with a name.
#[derive(Drop)]
struct Named {
    name: String,
    text: String,
}

/// Texts with names.
#[derive(Drop)]
pub struct Texts {
    named: Vec<Named>,
}

/// The word before the first space, and what follows it.
pub fn first_of(words: &str) -> (&str, &str) {
    words.split_once(' ').unwrap_or((words, ""))
}

/// The number before the first space, and what follows it.
pub fn numbered(words: &str) -> io::Result<(u64, &str)> {
    let (number, rest) = first_of(words);
    match number.parse::<u64>() {
        Ok(number) => Ok((number, rest)),
        Err(_) => Err(ErrorKind::InvalidInput.into()),
    }
}

// Adds the text, in which each `%` stands for the number.
fn add_numbered(alloc: Global, made: &mut String, text: &str, number: u64) -> io::Result<()> {
    let shown = format!(in alloc; "{number}")?;
    for (place, part) in text.split('%').enumerate() {
        if place > 0 {
            made.push_str(shown.as_str())?;
        }
        made.push_str(part)?;
    }
    Ok(())
}

// The text so many times, in each of which `%` stands for its number.
fn repeated(alloc: Global, count: u64, text: &str) -> io::Result<String> {
    let mut made = String::new(alloc);
    for number in 0..count {
        add_numbered(alloc, &mut made, text, number)?;
    }
    Ok(made)
}

impl Texts {
    /// A line feed and a byte order mark.
    pub fn new(alloc: Global) -> io::Result<Texts> {
        let named = Vec::new(alloc);
        let mut texts = Texts { named };
        texts.push(alloc, "LF", String::from_str(alloc, "\n")?)?;
        texts.push(alloc, "BOM", String::from_str(alloc, "\u{feff}")?)?;
        Ok(texts)
    }

    fn push(&mut self, alloc: Global, name: &str, text: String) -> io::Result<()> {
        if self.of(name).is_ok() {
            return Err(ErrorKind::AlreadyExists.into());
        }
        let name = String::from_str(alloc, name)?;
        self.named.push(Named { name, text })?;
        Ok(())
    }

    // The text of that name.
    fn of(&self, name: &str) -> io::Result<&str> {
        match self.named.iter().find(|named| named.name.as_str() == name) {
            Some(named) => Ok(named.text.as_str()),
            None => Err(ErrorKind::NotFound.into()),
        }
    }

    /// The text, in which each `{NAME}` stands for the text of that name.
    pub fn filled(&self, alloc: Global, text: &str) -> io::Result<String> {
        let (head, rest) = text.split_once('{').unwrap_or((text, ""));
        let mut made = String::from_str(alloc, head)?;
        if rest.is_empty() {
            return Ok(made);
        }
        for part in rest.split('{') {
            let Some((name, tail)) = part.split_once('}') else {
                return Err(ErrorKind::InvalidInput.into());
            };
            made.push_str(self.of(name)?)?;
            made.push_str(tail)?;
        }
        Ok(made)
    }

    /// Names a text: the name, a space, and the text.
    pub fn set(&mut self, alloc: Global, words: &str) -> io::Result<()> {
        let (name, text) = first_of(words);
        let text = self.filled(alloc, text)?;
        self.push(alloc, name, text)
    }

    /// Names a text so many times, in each of which `%` stands for its number: how often, a space, the
    /// name, a space, and the text.
    pub fn set_times(&mut self, alloc: Global, words: &str) -> io::Result<()> {
        let (count, words) = numbered(words)?;
        let (name, text) = first_of(words);
        let text = self.filled(alloc, text)?;
        let text = repeated(alloc, count, text.as_str())?;
        self.push(alloc, name, text)
    }
}
