// What a file told: its calls with their answers.
ghost use Rattle.std.specs.Prelude.{◌≡◌, ◌⊎◌, ◌<◌, ◌≤◌, ◌+◌, [], ◌∷◌, ◌++◌, true, false};
ghost use Rattle.disks.specs.Answers.{changes};
ghost use Rattle.disks.specs.Moves.{all_by};
ghost use Rattle.disks.specs.declared.answer.Answer.TheVariants.{Changed};
ghost use Rattle.disks.specs.declared.call.Move.TheVariants.{Write, Cut, Sync};
ghost use Rattle.outside_real.specs.Notes.{told_length, told_read};

use call_record::{Notes, Record};
use disks::Answer;
use outside::{Failed, count_call};

// The counts of the calls that may change a file and of the bytes that are handed to them, and the record of all calls.
// The record is seen by clauses alone.
#[derive(Drop)]
pub(crate) struct Told {
    calls: u64,
    written: u64,
    answers: Record<Answer>,
    ghost numbered: { all_by calls (changes answers.noted) ≡ true },
}

// A call for the length.
#[derive(Clone, Copy)]
struct LengthNote {
    answer: Result<u64, Failed>,
}

impl Notes<Answer> for LengthNote {
    ghost notes = { λ n. told_length n.answer };
}

// A read into this buffer.
#[derive(Clone, Copy)]
struct ReadNote<'a> {
    place: u64,
    buf: &'a [u8],
    answer: Result<usize, Failed>,
}

impl Notes<Answer> for ReadNote<'_> {
    ghost notes = { λ n. told_read n.place n.buf.now n.answer };
}

// A write, and which it was of all calls that may change the file.
#[derive(Clone, Copy)]
struct WriteNote<'a> {
    number: u64,
    place: u64,
    bytes: &'a [u8],
    done: bool,
}

impl Notes<Answer> for WriteNote<'_> {
    ghost notes = { λ n. Changed
        (record { number = n.number; act = Write n.place n.bytes.now n.done }) ∷ [] };
}

// A cut to a length.
#[derive(Clone, Copy)]
struct CutNote {
    number: u64,
    size: u64,
    done: bool,
}

impl Notes<Answer> for CutNote {
    ghost notes = { λ n. Changed (record { number = n.number; act = Cut n.size n.done }) ∷ [] };
}

// A sync.
#[derive(Clone, Copy)]
struct SyncNote {
    number: u64,
    done: bool,
}

impl Notes<Answer> for SyncNote {
    ghost notes = { λ n. Changed (record { number = n.number; act = Sync n.done }) ∷ [] };
}

impl Told {
    // Nothing was asked yet.
    pub(crate) fn new() -> Told
        ensures calls { result.calls ≡ 0 }
        ensures written { result.written ≡ 0 }
        ensures answers { result.answers.noted ≡ [] }
    {
        Told {
            calls: 0,
            written: 0,
            answers: Record::new(),
        }
    }

    // How many calls there were that may have changed the file.
    pub(crate) fn calls(&self) -> u64
        ensures { result ≡ self.now.calls }
    {
        self.calls
    }

    // How many bytes were handed to them.
    pub(crate) fn written(&self) -> u64
        ensures { result ≡ self.now.written }
    {
        self.written
    }

    // Counts a call that is to change the file, and answers whether it did. Where a count would end both stay.
    pub(crate) fn count(&mut self, count: u64) -> bool
        ensures counted { result ≡ true
            → (self.new.calls ≡ self.old.calls + 1)
            × (self.new.written ≡ self.old.written + count)
            × (self.old.calls < 0xffff_ffff_ffff_ffff)
            × (self.old.written + count ≤ 0xffff_ffff_ffff_ffff) }
        ensures full { result ≡ false
            → (self.new.calls ≡ self.old.calls)
            × (self.new.written ≡ self.old.written)
            × ((0xffff_ffff_ffff_ffff ≤ self.old.calls)
            ⊎ (0xffff_ffff_ffff_ffff < self.old.written + count)) }
        ensures answers { self.new.answers.noted ≡ self.old.answers.noted }
    {
        count_call(&mut self.calls, &mut self.written, count)
    }

    // Notes a call for the length.
    pub(crate) fn length(&mut self, answer: Result<u64, Failed>)
        ensures noted { self.new.answers.noted ≡ self.old.answers.noted ++ told_length answer }
        ensures calls { self.new.calls ≡ self.old.calls }
        ensures written { self.new.written ≡ self.old.written }
    {
        self.answers.note(&LengthNote { answer });
    }

    // Notes a read into this buffer.
    pub(crate) fn read(&mut self, place: u64, buf: &[u8], answer: Result<usize, Failed>)
        ensures noted { self.new.answers.noted ≡ self.old.answers.noted
            ++ told_read place buf.now answer }
        ensures calls { self.new.calls ≡ self.old.calls }
        ensures written { self.new.written ≡ self.old.written }
    {
        self.answers.note(&ReadNote { place, buf, answer });
    }

    // Notes the write that was counted last.
    pub(crate) fn write(&mut self, place: u64, bytes: &[u8], done: bool)
        ensures noted { self.new.answers.noted ≡ self.old.answers.noted ++ Changed
            (record { number = self.old.calls; act = Write place bytes.now done }) ∷ [] }
        ensures calls { self.new.calls ≡ self.old.calls }
        ensures written { self.new.written ≡ self.old.written }
    {
        self.answers.note(&WriteNote {
            number: self.calls,
            place,
            bytes,
            done,
        });
    }

    // Notes the cut that was counted last.
    pub(crate) fn cut(&mut self, size: u64, done: bool)
        ensures noted { self.new.answers.noted ≡ self.old.answers.noted ++ Changed
            (record { number = self.old.calls; act = Cut size done }) ∷ [] }
        ensures calls { self.new.calls ≡ self.old.calls }
        ensures written { self.new.written ≡ self.old.written }
    {
        self.answers.note(&CutNote {
            number: self.calls,
            size,
            done,
        });
    }

    // Notes the sync that was counted last.
    pub(crate) fn sync(&mut self, done: bool)
        ensures noted { self.new.answers.noted ≡ self.old.answers.noted ++ Changed
            (record { number = self.old.calls; act = Sync done }) ∷ [] }
        ensures calls { self.new.calls ≡ self.old.calls }
        ensures written { self.new.written ≡ self.old.written }
    {
        self.answers.note(&SyncNote {
            number: self.calls,
            done,
        });
    }
}
