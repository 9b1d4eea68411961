ghost use Rattle.std.specs.Prelude.{◌≡◌};

use std::marker::Model;

/// A word of the command line. Contracts see it as the list of its bytes, which may be no UTF-8.
#[derive(Drop, Debug)]
pub struct Word {
    held: Vec<u8>,
}

impl Model for Word {
    ghost use Rattle.std.specs.Prelude.{ℕ, List};

    ghost Value = { List ℕ };

    ghost view = { λ w. w.held.items };
}

impl Word {
    /// The word of these bytes. It takes no memory.
    pub fn from_vec(bytes: Vec<u8>) -> Word
        ensures { result ≡ bytes.items }
    {
        Word { held: bytes }
    }

    /// Its bytes, to be read.
    pub fn as_slice(&self) -> &[u8]
        ensures { result.now ≡ self.now }
    {
        self.held.as_slice()
    }
}
