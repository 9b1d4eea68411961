use crate::Digest;
use small_types::limits::HASH_LIMIT;
use small_types::{CopyFault, Duplicate, List};
use std::alloc::Global;
use std::marker::Model;

/// A list of 1 to 8 digests. Contracts see it as the list of its digests.
#[derive(Drop, Debug, PartialEq, Eq)]
pub struct DigestList {
    held: List<Digest>,
}

impl Model for DigestList {
    ghost use Rattle.std.specs.Prelude.{List};
    ghost use Rattle.digest_list.specs.declared.digest.Digest.{Digest};
    ghost use Rattle.digest_list.specs.Count.{IsCount};

    ghost Value = { List Digest };

    ghost view = { λ l. l.held };

    ghost invariant = { λ l. IsCount l.held };

    ghost inverse = { λ ds. record { held = ds } };
}

impl DigestList {
    ghost use Rattle.std.specs.Prelude.{◌≡◌, ◌↔◌, IsSome, IfSome, IfOk, length};
    ghost use Rattle.digest_list.specs.Count.{IsCount};

    /// These digests, where there are 1 to 8 of them. It takes no memory.
    pub fn from_list(digests: List<Digest>) -> Option<DigestList>
        ensures some { IsSome result ↔ IsCount digests }
        ensures value { IfSome result (λ list. list ≡ digests) }
    {
        let count = digests.as_slice().len();
        if count == 0 || count > HASH_LIMIT {
            return None;
        }
        Some(DigestList { held: digests })
    }

    /// The digests, to be read: 1 to 8 of them.
    pub fn as_slice(&self) -> &[Digest]
        ensures value { result.now ≡ self.now }
        ensures count { IsCount self.now }
    {
        self.held.as_slice()
    }

    /// The list that holds them.
    pub fn into_list(self) -> List<Digest>
        ensures { result ≡ self }
    {
        let DigestList { held } = self;
        held
    }
}

impl Duplicate for DigestList {
    fn copy(&self, alloc: Global) -> Result<Self, CopyFault> {
        Ok(DigestList {
            held: self.held.copy(alloc)?,
        })
    }
}
