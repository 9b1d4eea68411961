// Texts by their names.
use small_types::Bytes;
use std::alloc::Global;
use std::io::{self, ErrorKind};

#[derive(Drop)]
struct Named {
    name: String,
    bytes: Bytes,
}

/// The texts that were kept.
#[derive(Drop)]
pub struct Texts {
    texts: Vec<Named>,
}

fn find<'a>(texts: &'a [Named], name: &str) -> Option<&'a Named> {
    texts.iter().find(|text| text.name.as_str() == name)
}

// The bytes of a text in which each `|` stands for the end of a line of HTTP.
fn bytes_of(alloc: Global, text: &str) -> io::Result<Bytes> {
    let mut bytes = Bytes::from_vec(Vec::new(alloc));
    for byte in text.bytes() {
        if byte == b'|' {
            bytes.extend(b"\r\n")?;
            continue;
        }
        bytes.push(byte)?;
    }
    Ok(bytes)
}

impl Texts {
    /// No texts.
    pub fn new(alloc: Global) -> Texts {
        Texts {
            texts: Vec::new(alloc),
        }
    }

    /// Keeps a text: its name, `=` and its bytes.
    pub fn keep(&mut self, alloc: Global, words: &str) -> io::Result<()> {
        let Some((name, text)) = words.split_once('=') else {
            return Err(ErrorKind::InvalidInput.into());
        };
        let name = String::from_str(alloc, name)?;
        let bytes = bytes_of(alloc, text)?;
        self.texts.push(Named { name, bytes })?;
        Ok(())
    }

    /// The texts of these names, with `+` between them, one behind the other.
    pub fn joined(&self, alloc: Global, names: &str) -> io::Result<Bytes> {
        let mut bytes = Bytes::from_vec(Vec::new(alloc));
        for name in names.split('+') {
            let Some(text) = find(&self.texts, name) else {
                return Err(ErrorKind::NotFound.into());
            };
            bytes.extend(text.bytes.as_slice())?;
        }
        Ok(bytes)
    }
}
