ghost use Rattle.std.specs.Prelude.{◌≡◌, ◌==◌, IfOk, string_bytes};
ghost use Rattle.std.proofs.Common.{rules};
ghost use Rattle.std.specs.Cmp.Rules.{comparing};
ghost use Rattle.std.specs.Str.{IsUtf8};
ghost use lib.Pointwise.{pointwise};

use crate::{CopyFault, Duplicate};
use std::alloc::Global;
use std::marker::Model;

/// Text in UTF-8 on the heap. Contracts see it as the list of its bytes.
#[derive(Drop, Debug)]
pub struct Text {
    held: String,
}

impl Model for Text {
    ghost use Rattle.std.specs.Prelude.{ℕ, List, string_bytes};

    ghost Value = { List ℕ };

    ghost view = { λ t. string_bytes t.held };
}

impl Text {
    /// This text. It takes no memory.
    pub fn from_string(text: String) -> Text
        ensures { result ≡ string_bytes text }
    {
        Text { held: text }
    }

    /// The text, to be read.
    pub fn as_str(&self) -> &str
        ensures value { result.now ≡ self.now }
        ensures utf8 { IsUtf8 result.now }
    {
        self.held.as_str()
    }

    /// Its bytes, to be read.
    pub fn as_bytes(&self) -> &[u8]
        ensures value { result.now ≡ self.now }
        ensures utf8 { IsUtf8 result.now }
    {
        self.held.as_str().as_bytes()
    }
}

impl PartialEq for Text {
    ghost eq = { pointwise ◌==◌ };

    ghost laws = { Prim.search (comparing, rules) };

    fn eq(&self, other: &Text) -> bool {
        self.as_bytes() == other.as_bytes()
    }
}

impl Eq for Text {
    ghost laws = { Prim.search (comparing, rules) };
}

impl Duplicate for Text {
    fn copy(&self, alloc: Global) -> Result<Self, CopyFault> {
        Ok(Text {
            held: String::from_str(alloc, self.held.as_str())?,
        })
    }
}
