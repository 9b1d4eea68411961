ghost use Rattle.std.specs.Prelude.{◌≡◌, ◌↔◌, ◌+◌, ◌<◌, ◌^◌, ◌++◌, [], ℕ, List, Some, length, slice_get, IfOk, IfSome, IsNone};
ghost use Rattle.digest_list.specs.declared.digest.Digest.{Digest};
ghost use Rattle.digest_list.specs.Checker.{IsFed, count_of};
ghost use Rattle.digest_list.specs.Difference.{AreDistinct, difference_of};
ghost use Rattle.digest_list.specs.Hashers.{sum_of};
ghost use Rattle.digest_list.specs.Matches.{Matches};

use crate::comparison::first_wrong;
use crate::digest_room::DigestRoom;
use crate::hashers::{Hashers, Sums};
use crate::{Difference, Digest, DigestList};
use small_types::{CopyFault, Duplicate};
use std::alloc::Global;

/// Finds whether bytes that come in pieces match a size and a list of digests. Each piece is hashed once for each
/// algorithm of the list, and none is kept.
#[derive(Drop)]
pub struct Checker {
    listed: DigestList,
    size: u64,
    // How many bytes came so far.
    count: u64,
    hashers: Hashers,
    // For the digest that a difference shows, so that `finish` takes no memory.
    room: DigestRoom,
}

// The digest at that place beside the one that was made.
fn difference_at(listed: DigestList, place: usize, sums: &Sums, room: DigestRoom) -> Difference
    requires { place < length listed }
    ensures { (d : Digest) → slice_get listed place ≡ Some d
        → result ≡ Difference.Digest d.algorithm d.value (sum_of sums.now d.algorithm) }
{
    let mut digests = listed.into_list().into_vec();
    let Digest { algorithm, value } = digests.swap_remove(place);
    Difference::Digest {
        algorithm,
        listed: value,
        found: room.fill(sums.of(algorithm)),
    }
}

impl Checker {
    /// A checker to which no bytes came yet. It fails only for want of memory.
    pub fn new(alloc: Global, list: &DigestList, size: u64) -> Result<Checker, CopyFault>
        ensures fresh { IfOk result (λ c. IsFed c list.now size []) }
        ensures count { IfOk result (λ c. count_of c ≡ 0) }
    {
        let listed = list.copy(alloc)?;
        let room = DigestRoom::new(alloc)?;
        let hashers = Hashers::new(list.as_slice());
        Ok(Checker {
            listed,
            size,
            count: 0,
            hashers,
            room,
        })
    }

    /// Takes the next bytes. The bytes that come in all are fewer than 2^61.
    pub fn update(&mut self, bytes: &[u8])
        requires { count_of self.old + length bytes.now < 2 ^ 61 }
        ensures fed { (list : List Digest) (size : ℕ) (m : List ℕ) → IsFed self.old list size m
            → IsFed self.new list size (m ++ bytes.now) }
        ensures count { count_of self.new ≡ count_of self.old + length bytes.now }
    {
        self.count += bytes.len() as u64;
        self.hashers.update(bytes);
    }

    /// How the bytes that came, as one, differ from the size and the list: the sizes where they differ, else the first
    /// digest of the list that is not that of the bytes. `None` exactly where they match. It takes no memory.
    #[must_use]
    pub fn finish(self) -> Option<Difference>
        ensures exact { (list : List Digest) (size : ℕ) (bytes : List ℕ)
            → IsFed self list size bytes
            → result ≡ difference_of list size bytes }
        ensures matches { (list : List Digest) (size : ℕ) (bytes : List ℕ)
            → IsFed self list size bytes
            → IsNone result ↔ Matches list size bytes }
        ensures shown { IfSome result AreDistinct }
    {
        let Checker {
            listed,
            size,
            count,
            hashers,
            room,
        } = self;
        if count != size {
            return Some(Difference::Size {
                listed: size,
                found: count,
            });
        }
        let sums = hashers.finish();
        match first_wrong(listed.as_slice(), &sums) {
            None => None,
            Some(place) => Some(difference_at(listed, place, &sums, room)),
        }
    }
}
