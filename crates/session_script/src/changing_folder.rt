// A folder of two files, of which the second has other bytes from its second reading on, or is gone. It tells nothing,
// and keeps the names of what is put.
use folders::{Folder, FolderFault, Found};
use small_types::{Bytes, List, Name};
use std::alloc::{AllocError, Global};

const NAMES: [&str; 2] = ["in/app.exe", "in/data.txt"];

/// What the first reading of the second file gives, and what the others do.
#[derive(Drop)]
pub struct ChangingFolder {
    pub first: Option<Bytes>,
    pub later: Option<Bytes>,
    /// How often it was read.
    pub reads: u64,
    /// A line for each file that was put, in order.
    pub puts: String,
}

fn copied(alloc: Global, bytes: &Option<Bytes>) -> Result<Option<Bytes>, AllocError> {
    match bytes {
        Some(bytes) => Ok(Some(Bytes::from_slice(alloc, bytes.as_slice())?)),
        None => Ok(None),
    }
}

impl Folder for ChangingFolder {
    ghost use Rattle.std.specs.Prelude.{[]};

    ghost tells = { ⊥ };

    ghost held = { λ f. [] };

    ghost count = { λ f. 0 };

    ghost records = { ⊥ };

    ghost answers = { λ f. [] };

    fn list(&mut self, alloc: Global) -> Result<List<Name>, FolderFault> {
        let mut names = Vec::new(alloc);
        for text in NAMES {
            let Ok(name) = Name::read(alloc, text.as_bytes()) else {
                return Err(FolderFault::Memory);
            };
            names.push(name)?;
        }
        Ok(List::from_vec(names))
    }

    fn get(&mut self, alloc: Global, name: &Name) -> Result<Option<Bytes>, FolderFault> {
        if name.as_str() == "in/app.exe" {
            return Ok(Some(Bytes::from_slice(alloc, b"abc")?));
        }
        let is_first = self.reads == 0;
        self.reads = self.reads.saturating_add(1);
        if is_first {
            return Ok(copied(alloc, &self.first)?);
        }
        Ok(copied(alloc, &self.later)?)
    }

    fn get_within(
        &mut self,
        alloc: Global,
        name: &Name,
        limit: u64,
        into: &mut Bytes,
    ) -> Result<Found, FolderFault> {
        let Some(bytes) = self.get(alloc, name)? else {
            return Ok(Found::Nothing);
        };
        let length = bytes.as_slice().len() as u64;
        if length > limit {
            return Ok(Found::TooLong { length });
        }
        *into = bytes;
        Ok(Found::Whole)
    }

    fn put(&mut self, name: &Name, _bytes: &[u8]) -> Result<(), FolderFault> {
        self.puts.push_str("put ")?;
        self.puts.push_str(name.as_str())?;
        self.puts.push('\n')?;
        Ok(())
    }

    fn faults(&self) -> u64 {
        0
    }

    ghost names_differ = { λ f told. absurd told };
}
