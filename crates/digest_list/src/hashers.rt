// A hasher for each algorithm of a list, however many of its digests are of that algorithm.
ghost use Rattle.std.specs.Prelude.{◌≡◌, ◌≤◌, ◌++◌, [], ℕ, List, length, is_some, IfSome, IsTrue, ◌↔◌};
ghost use Rattle.sha1.specs.Sha1.{Holds, sha1};
ghost use Rattle.digest_list.specs.Hashers.{Hold, HaveSums, IsListed, sum_of};

use crate::{Algorithm, Digest};
use sha1::Sha1;
use sha2::{Digest as Hash, Sha256, Sha384, Sha512};

// SHA-1 as one of the hash functions.
#[derive(Drop)]
pub(crate) struct Sha1Hasher {
    core: Sha1,
}

impl Hash for Sha1Hasher {
    type Output = [u8; 20];

    ghost holds = { λ s m. Holds s.core m };

    ghost digest_of = { λ m d. d ≡ sha1 m };

    ghost size = { 20 };

    fn output_size() -> usize {
        20
    }

    fn new() -> Sha1Hasher {
        Sha1Hasher { core: Sha1::new() }
    }

    fn update<T: std::convert::AsSlice<u8> + Drop>(&mut self, data: T) {
        self.core.update(data.as_slice());
    }

    fn finalize(self) -> [u8; 20] {
        let Sha1Hasher { core } = self;
        core.finalize()
    }
}

// A hasher of the empty message, where one is wanted.
fn start<H: Hash>(wanted: bool) -> Option<H>
    ensures present { is_some result ≡ wanted }
    ensures empty { IfSome result (λ h. H.holds h []) }
{
    if wanted { Some(H::new()) } else { None }
}

// Adds bytes to the message, where there is a hasher.
fn feed<H: Hash>(hasher: &mut Option<H>, bytes: &[u8])
    ensures present { is_some hasher.new ≡ is_some hasher.old }
    ensures fed { (m : List ℕ) → IfSome hasher.old (λ h. H.holds h m)
        → IfSome hasher.new (λ h. H.holds h (m ++ bytes.now)) }
{
    if let Some(hasher) = hasher {
        hasher.update(bytes);
    }
}

// The digest of the message, where there is a hasher.
fn sum<H: Hash>(hasher: Option<H>) -> Option<H::Output>
    ensures present { is_some result ≡ is_some hasher }
    ensures value { (m : List ℕ) → IfSome hasher (λ h. H.holds h m)
        → IfSome result (λ d. H.digest_of m d) }
{
    match hasher {
        Some(hasher) => Some(hasher.finalize()),
        None => None,
    }
}

// Whether a digest of the list is of that algorithm.
fn is_listed(list: &[Digest], algorithm: Algorithm) -> bool
    ensures { IsTrue result ↔ IsListed list.now algorithm }
{
    list.iter().any(|digest| digest.algorithm == algorithm)
}

#[derive(Drop)]
pub(crate) struct Hashers {
    sha1: Option<Sha1Hasher>,
    sha256: Option<Sha256>,
    sha384: Option<Sha384>,
    sha512: Option<Sha512>,
}

impl Hashers {
    // The hashers of the empty message for the algorithms of the list.
    pub(crate) fn new(list: &[Digest]) -> Hashers
        ensures { Hold result list.now [] }
    {
        Hashers {
            sha1: start(is_listed(list, Algorithm::Sha1)),
            sha256: start(is_listed(list, Algorithm::Sha256)),
            sha384: start(is_listed(list, Algorithm::Sha384)),
            sha512: start(is_listed(list, Algorithm::Sha512)),
        }
    }

    // Adds bytes to the message.
    pub(crate) fn update(&mut self, bytes: &[u8])
        ensures { (list : List Digest) (m : List ℕ) → Hold self.old list m
            → Hold self.new list (m ++ bytes.now) }
    {
        feed(&mut self.sha1, bytes);
        feed(&mut self.sha256, bytes);
        feed(&mut self.sha384, bytes);
        feed(&mut self.sha512, bytes);
    }

    // The digests of the message.
    pub(crate) fn finish(self) -> Sums
        ensures { (list : List Digest) (m : List ℕ) → Hold self list m → HaveSums result list m }
    {
        let Hashers {
            sha1,
            sha256,
            sha384,
            sha512,
        } = self;
        Sums {
            sha1: sum(sha1),
            sha256: sum(sha256),
            sha384: sum(sha384),
            sha512: sum(sha512),
        }
    }
}

// The digests of one message under some algorithms.
#[derive(Drop)]
pub(crate) struct Sums {
    sha1: Option<[u8; 20]>,
    sha256: Option<[u8; 32]>,
    sha384: Option<[u8; 48]>,
    sha512: Option<[u8; 64]>,
}

impl Sums {
    // The digest under the algorithm, or no bytes where it was not asked for.
    pub(crate) fn of(&self, algorithm: Algorithm) -> &[u8]
        ensures value { result.now ≡ sum_of self.now algorithm }
        ensures short { length result.now ≤ 64 }
    {
        match algorithm {
            Algorithm::Sha1 => self.sha1.as_ref().map_or(&[], |sum| sum.as_slice()),
            Algorithm::Sha256 => self.sha256.as_ref().map_or(&[], |sum| sum.as_slice()),
            Algorithm::Sha384 => self.sha384.as_ref().map_or(&[], |sum| sum.as_slice()),
            Algorithm::Sha512 => self.sha512.as_ref().map_or(&[], |sum| sum.as_slice()),
        }
    }
}
