// What the script sets for the next run.
use small_types::Word;
use std::alloc::{AllocError, Global};
use std::io::{self, ErrorKind};

/// What the next run is given, and how its status is told.
#[derive(Drop)]
pub struct Next {
    /// What stands before its status, in place of the word `status`.
    pub label: Option<String>,
    /// Whether a status 0 without a label is told too, from here on.
    pub always: bool,
    /// The number of the call of its source that fails, or 0.
    pub source: u64,
    /// The number of the call of its sink that fails, or 0.
    pub sink: u64,
    /// The lines of a session.
    pub lines: String,
    /// The lines that look at what a session left.
    pub look: String,
    /// The marks of the files that are published.
    pub marks: Vec<Word>,
    /// Bytes that stand before an inspected file.
    pub bytes: Vec<u8>,
    /// A text of an inspected file, and what is read in its place.
    pub swap: Option<(String, String)>,
}

/// The number that the word spells.
pub fn number_of(word: &str) -> io::Result<u64> {
    match word.parse::<u64>() {
        Ok(number) => Ok(number),
        Err(_) => Err(ErrorKind::InvalidInput.into()),
    }
}

/// The word before the first space, and what follows it.
pub fn first_of(words: &str) -> (&str, &str) {
    words.split_once(' ').unwrap_or((words, ""))
}

/// The number before the first space, and what follows it.
pub fn numbered(words: &str) -> io::Result<(u64, &str)> {
    let (number, rest) = first_of(words);
    Ok((number_of(number)?, rest))
}

impl Next {
    /// Nothing is set.
    pub fn new(alloc: Global) -> Next {
        Next {
            label: None,
            always: false,
            source: 0,
            sink: 0,
            lines: String::new(alloc),
            look: String::new(alloc),
            marks: Vec::new(alloc),
            bytes: Vec::new(alloc),
            swap: None,
        }
    }

    /// Forgets what was set for a run.
    pub fn clear(&mut self) {
        self.label = None;
        self.source = 0;
        self.sink = 0;
        self.lines.clear();
        self.look.clear();
        self.marks.clear();
        self.bytes.clear();
        self.swap = None;
    }

    /// Sets what stands before the status.
    pub fn name(&mut self, alloc: Global, label: &str) -> Result<(), AllocError> {
        self.label = Some(String::from_str(alloc, label)?);
        Ok(())
    }

    /// Lets the call of its source of that number fail.
    pub fn fail_source(&mut self, word: &str) -> io::Result<()> {
        self.source = number_of(word)?;
        Ok(())
    }

    /// Lets the call of its sink of that number fail.
    pub fn fail_sink(&mut self, word: &str) -> io::Result<()> {
        self.sink = number_of(word)?;
        Ok(())
    }

    /// Marks a file of what is published: the mark, which may have spaces.
    pub fn mark(&mut self, alloc: Global, mark: &str) -> io::Result<()> {
        let word = Word::from_vec(mark.as_bytes().to_vec(alloc)?);
        self.marks.push(word)?;
        Ok(())
    }

    /// Puts the byte of that number before what is inspected.
    pub fn put_byte(&mut self, word: &str) -> io::Result<()> {
        let Ok(byte) = word.parse::<u8>() else {
            return Err(ErrorKind::InvalidInput.into());
        };
        self.bytes.push(byte)?;
        Ok(())
    }

    /// Has another text in place of the first of that kind: both, with `|` between.
    pub fn swap(&mut self, alloc: Global, texts: &str) -> io::Result<()> {
        let Some((old, new)) = texts.split_once('|') else {
            return Err(ErrorKind::InvalidInput.into());
        };
        let old = String::from_str(alloc, old)?;
        self.swap = Some((old, String::from_str(alloc, new)?));
        Ok(())
    }

    /// Adds a line.
    pub fn add(&mut self, line: &str) -> io::Result<()> {
        self.lines.push_str(line)?;
        self.lines.push('\n')?;
        Ok(())
    }

    /// Adds a line that looks at what a session left.
    pub fn add_look(&mut self, line: &str) -> io::Result<()> {
        self.look.push_str(line)?;
        self.look.push('\n')?;
        Ok(())
    }

    /// Adds the last line, without a line feed, or the beginning of a line.
    pub fn add_last(&mut self, text: &str) -> io::Result<()> {
        self.lines.push_str(text)?;
        Ok(())
    }

    /// Adds a line so many times: their number, a space, and the line.
    pub fn add_times(&mut self, words: &str) -> io::Result<()> {
        let (count, line) = numbered(words)?;
        for _ in 0..count {
            self.add(line)?;
        }
        Ok(())
    }

    /// Adds a text to the line that has begun, so many times: their number, a space, and the text.
    pub fn add_repeated(&mut self, words: &str) -> io::Result<()> {
        let (count, text) = numbered(words)?;
        for _ in 0..count {
            self.lines.push_str(text)?;
        }
        Ok(())
    }

    /// Adds a line that ends in zero bytes, in hexadecimal: their number, a space, and what stands
    /// before them.
    pub fn add_zeros(&mut self, words: &str) -> io::Result<()> {
        let (count, line) = numbered(words)?;
        self.lines.push_str(line)?;
        for _ in 0..count {
            self.lines.push_str("00")?;
        }
        self.lines.push('\n')?;
        Ok(())
    }
}
