ghost use Rattle.std.specs.Prelude.{◌≡◌, Some, IfOk};
ghost use Rattle.digest_list.specs.Algorithm.{size_of, name_of, uri_of, sha256_other_uri, algorithm_of};

use small_types::{CopyFault, Duplicate};
use std::alloc::Global;

/// The hash functions of known digests (FIPS 180-4).
#[derive(Clone, Copy, Debug, PartialEq, Eq)]
pub enum Algorithm {
    Sha1,
    Sha256,
    Sha384,
    Sha512,
}

impl Algorithm {
    /// The length of its digests in bytes.
    pub fn size(self) -> usize
        ensures { result ≡ size_of self }
    {
        match self {
            Algorithm::Sha1 => 20,
            Algorithm::Sha256 => 32,
            Algorithm::Sha384 => 48,
            Algorithm::Sha512 => 64,
        }
    }

    /// Its name on a line: `sha1`, `sha256`, `sha384` or `sha512`.
    pub fn name(self) -> &'static str
        ensures { result.now ≡ name_of self }
    {
        match self {
            Algorithm::Sha1 => "sha1",
            Algorithm::Sha256 => "sha256",
            Algorithm::Sha384 => "sha384",
            Algorithm::Sha512 => "sha512",
        }
    }

    /// The algorithm that the URI names in XML signatures, compared byte by byte. SHA-256 has two names. `None` for
    /// any other text.
    #[tactic(auto, unfolding(crate::specs::Algorithm::algorithm_of))]
    pub fn from_uri(uri: &[u8]) -> Option<Algorithm>
        ensures { result ≡ algorithm_of uri.now }
    {
        if uri == Algorithm::Sha1.uri().as_bytes() {
            Some(Algorithm::Sha1)
        } else if uri == Algorithm::Sha256.uri().as_bytes()
            || uri == sha256_other_uri().as_bytes()
        {
            Some(Algorithm::Sha256)
        } else if uri == Algorithm::Sha384.uri().as_bytes() {
            Some(Algorithm::Sha384)
        } else if uri == Algorithm::Sha512.uri().as_bytes() {
            Some(Algorithm::Sha512)
        } else {
            None
        }
    }

    /// Its URI, the first of the two for SHA-256. It is read back as this algorithm.
    #[tactic(auto, unfolding(crate::specs::Algorithm::uri_of))]
    pub fn uri(self) -> &'static str
        ensures text { result.now ≡ uri_of self }
        ensures again { algorithm_of result.now ≡ Some self }
    {
        match self {
            Algorithm::Sha1 => "http://www.w3.org/2000/09/xmldsig#sha1",
            Algorithm::Sha256 => "http://www.w3.org/2000/09/xmldsig#sha256",
            Algorithm::Sha384 => "http://www.w3.org/2001/04/xmldsig-more#sha384",
            Algorithm::Sha512 => "http://www.w3.org/2001/04/xmlenc#sha512",
        }
    }
}

// The second URI of SHA-256.
#[tactic(auto, unfolding(crate::specs::Algorithm::sha256_other_uri))]
fn sha256_other_uri() -> &'static str
    ensures { result.now ≡ sha256_other_uri }
{
    "http://www.w3.org/2001/04/xmlenc#sha256"
}

impl Duplicate for Algorithm {
    fn copy(&self, _alloc: Global) -> Result<Self, CopyFault> {
        Ok(*self)
    }
}
