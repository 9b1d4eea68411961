// What a folder told: its calls with their answers.
ghost use Rattle.std.specs.Prelude.{◌≡◌, [], ◌++◌};
ghost use Rattle.folders.specs.Told.{told_file, told_into, told_list, told_put, told_within};

use call_record::{Notes, Record};
use folders::{FolderAnswer, FolderFault, Found};
use small_types::{Bytes, List, Name};

// The record of all calls, which is seen by clauses alone.
#[derive(Drop)]
pub(crate) struct FolderTold {
    answers: Record<FolderAnswer>,
}

// A listing.
#[derive(Clone, Copy)]
struct ListNote<'a> {
    answer: &'a Result<List<Name>, FolderFault>,
}

impl Notes<FolderAnswer> for ListNote<'_> {
    ghost notes = { λ n. told_list n.answer.now };
}

// A reading into a value of its own.
#[derive(Clone, Copy)]
struct FileNote<'a> {
    name: &'a Name,
    answer: &'a Result<Option<Bytes>, FolderFault>,
}

impl Notes<FolderAnswer> for FileNote<'_> {
    ghost notes = { λ n. told_file n.name.now n.answer.now };
}

// A reading into a buffer.
#[derive(Clone, Copy)]
struct IntoNote<'a> {
    name: &'a Name,
    into: &'a Bytes,
    answer: Result<bool, FolderFault>,
}

impl Notes<FolderAnswer> for IntoNote<'_> {
    ghost notes = { λ n. told_into n.name.now n.into.now n.answer };
}

// A reading into a buffer within a limit.
#[derive(Clone, Copy)]
struct WithinNote<'a> {
    name: &'a Name,
    into: &'a Bytes,
    answer: Result<Found, FolderFault>,
}

impl Notes<FolderAnswer> for WithinNote<'_> {
    ghost notes = { λ n. told_within n.name.now n.into.now n.answer };
}

// Bytes that were to be put.
#[derive(Clone, Copy)]
struct PutNote<'a> {
    name: &'a Name,
    bytes: &'a [u8],
    answer: Result<(), FolderFault>,
}

impl Notes<FolderAnswer> for PutNote<'_> {
    ghost notes = { λ n. told_put n.name.now n.bytes.now n.answer };
}

impl FolderTold {
    // Nothing was asked yet.
    pub(crate) fn new() -> FolderTold
        ensures { result.answers.noted ≡ [] }
    {
        FolderTold {
            answers: Record::new(),
        }
    }

    // Notes a listing.
    pub(crate) fn list(&mut self, answer: &Result<List<Name>, FolderFault>)
        ensures { self.new.answers.noted ≡ self.old.answers.noted ++ told_list answer.now }
    {
        self.answers.note(&ListNote { answer });
    }

    // Notes a reading of the file of this name.
    pub(crate) fn file(&mut self, name: &Name, answer: &Result<Option<Bytes>, FolderFault>)
        ensures { self.new.answers.noted ≡ self.old.answers.noted ++ told_file name.now answer.now }
    {
        self.answers.note(&FileNote { name, answer });
    }

    // Notes a reading into this buffer.
    pub(crate) fn buffer(&mut self, name: &Name, into: &Bytes, answer: Result<bool, FolderFault>)
        ensures { self.new.answers.noted
            ≡ self.old.answers.noted ++ told_into name.now into.now answer }
    {
        self.answers.note(&IntoNote { name, into, answer });
    }

    // Notes a reading into this buffer within a limit.
    pub(crate) fn within(&mut self, name: &Name, into: &Bytes, answer: Result<Found, FolderFault>)
        ensures { self.new.answers.noted
            ≡ self.old.answers.noted ++ told_within name.now into.now answer }
    {
        self.answers.note(&WithinNote { name, into, answer });
    }

    // Notes that these bytes were to be put.
    pub(crate) fn put(&mut self, name: &Name, bytes: &[u8], answer: Result<(), FolderFault>)
        ensures { self.new.answers.noted
            ≡ self.old.answers.noted ++ told_put name.now bytes.now answer }
    {
        self.answers.note(&PutNote {
            name,
            bytes,
            answer,
        });
    }
}
