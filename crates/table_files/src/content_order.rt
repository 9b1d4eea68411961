// The order of content keys: by sizes, then by the digests from the first.
ghost use Rattle.std.specs.Prelude.{◌≡◌};
ghost use Rattle.std.specs.Cmp.Lexicographic.{slice_cmp};
ghost use Rattle.machine.specs.Views.{content_key};
ghost use Rattle.store_state.specs.ContentKeys.{content_key_cmp, digest_cmp};
ghost use Rattle.store_state.specs.Contents.{held_key};

use digest_list::Digest;
use manifests::FileEntry;
use std::cmp::Ordering;
use store_state::Content;

// How digests compare: by their algorithms, then by their values.
fn digest_order(a: &Digest, b: &Digest) -> Ordering
    ensures { result ≡ digest_cmp a.now b.now }
{
    match a.algorithm.name().cmp(b.algorithm.name()) {
        Ordering::Equal => a.value.as_slice().cmp(b.value.as_slice()),
        order => order,
    }
}

// How lists of digests compare.
fn digests_order(a: &[Digest], b: &[Digest]) -> Ordering
    ensures { result ≡ slice_cmp digest_cmp a.now b.now }
{
    let count = a.len().min(b.len());
    for place in 0..count {
        let order = digest_order(&a[place], &b[place]);
        if order != Ordering::Equal {
            return order;
        }
    }
    a.len().cmp(&b.len())
}

// How files compare.
pub(crate) fn files_order(a: &FileEntry, b: &FileEntry) -> Ordering
    ensures { result ≡ content_key_cmp (content_key a.now) (content_key b.now) }
{
    match a.size.cmp(&b.size) {
        Ordering::Equal => digests_order(a.list.as_slice(), b.list.as_slice()),
        order => order,
    }
}

// How a file compares with a content.
pub(crate) fn content_order(entry: &FileEntry, content: &Content) -> Ordering
    ensures { result ≡ content_key_cmp (content_key entry.now) (held_key content.now) }
{
    match entry.size.cmp(&content.size) {
        Ordering::Equal => digests_order(entry.list.as_slice(), content.list.as_slice()),
        order => order,
    }
}
