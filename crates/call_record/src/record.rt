// The list, and what may be noted in it.
ghost use Rattle.std.specs.Prelude.{◌≡◌, List, [], ◌++◌};
ghost use Rattle.std.specs.Borrow.{ftrue};
ghost use Rattle.std.specs.Coded.{coded_list};

use std::marker::{Model, PhantomData};

/// A value that can be noted. What is noted of it need not be in memory, so a value that borrows bytes stands for the
/// bytes themselves.
pub trait Notes<T> {
    /// What is noted of it, in order.
    ghost notes: { Self → List T };
}

impl Notes<u8> for &[u8] {
    /// The bytes.
    ghost notes = { λ bytes. bytes.now };
}

/// What was noted, the first first. It takes no memory, and costs nothing when the program runs. A device that keeps
/// one says in its clauses what its calls note. That a call makes what it notes is to be read in its body.
#[derive(Drop)]
pub struct Record<T> {
    marker: PhantomData<T>,
    pub ghost noted: { List T } by { coded_list T.code },
}

impl<T> Model for Record<T> {
    ghost also_owns = { λ _. ftrue };
}

impl<T> Record<T> {
    /// Nothing was noted yet.
    pub fn new() -> Record<T>
        ensures { result.noted ≡ [] }
    {
        Record {
            marker: PhantomData,
        }
    }

    // Puts what a value stands for behind all that was noted. There is nothing for the program to do: the list is longer
    // from here on, and that is said by the proof of this function alone.
    fn append<E: Notes<T>>(&mut self, _entry: &E)
        ensures { self.new.noted ≡ self.old.noted ++ E.notes _entry.now }
    {}

    /// Notes what a value stands for, after all that was noted.
    pub fn note<E: Notes<T>>(&mut self, entry: &E)
        ensures { self.new.noted ≡ self.old.noted ++ E.notes entry.now }
    {
        self.append(entry);
    }
}
