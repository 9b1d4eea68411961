// Whether files have one content, by what is listed of them.
ghost use Rattle.std.specs.Prelude.{◌≡◌};
ghost use lib.Pointwise.{pointwise};
ghost use Rattle.machine.specs.Views.{same_content, same_digest};

use digest_list::Digest;
use manifests::FileEntry;

// Whether the digests are equal.
fn same_digest(a: &Digest, b: &Digest) -> bool
    ensures { result ≡ same_digest a.now b.now }
{
    a.algorithm.name() == b.algorithm.name() && a.value.as_slice() == b.value.as_slice()
}

// Whether each digest of the one list is equal to that of the other one in its place.
fn same_digests(a: &[Digest], b: &[Digest]) -> bool
    ensures { result ≡ pointwise same_digest a.now b.now }
{
    if a.len() != b.len() {
        return false;
    }
    for place in 0..a.len() {
        if !same_digest(&a[place], &b[place]) {
            return false;
        }
    }
    true
}

/// Whether the files have equal sizes and equal digests: then they have one content.
pub fn same_content(a: &FileEntry, b: &FileEntry) -> bool
    ensures { result ≡ same_content a.now b.now }
{
    a.size == b.size && same_digests(a.list.as_slice(), b.list.as_slice())
}
