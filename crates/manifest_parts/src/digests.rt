// The digest lists that elements say.
ghost use Rattle.std.specs.Prelude.{◌≡◌, ◌||◌, ◌≤◌, IfOk, not, length, codes};
ghost use Rattle.manifest_tree.specs.Tree.{tree_of};
ghost use Rattle.digest_list.specs.Digest.{digest_of};
ghost use Rattle.manifest_parts.specs.Elements.{attribute as attribute_of, called, children_called};
ghost use Rattle.manifest_parts.specs.Parts.{is_identity as is_identity_by, all_plain, is_plain as plain, method_of as method_by, as_value, digest_by as digest_by_method, hash_of as hash_read, added, hashes, counted as counted_hashes, some_digest as some_read, digests_of as digests_read};
ghost use Rattle.manifest_parts.specs.Outcome.{Gives};

use crate::elements::{attribute, children, is_called, once};
use crate::fault::ManifestFault;
use crate::refusals::{bad_value, no_digest};
use digest_list::{Algorithm, Digest, DigestFault, DigestList};
use manifest_tree::Node;
use small_types::limits::HASH_LIMIT;
use small_types::{Limit, List};
use std::alloc::Global;

// The only transform that is known: it leaves the bytes as they are.
const IDENTITY: &str = "urn:schemas-microsoft-com:HashTransforms.Identity";

// Whether the transform leaves the bytes as they are.
fn is_identity(transform: &Node) -> bool
    ensures { result ≡ is_identity_by (attribute_of (codes "Algorithm") (tree_of transform.now)) }
{
    match attribute(transform, "Algorithm") {
        Some(algorithm) => algorithm.as_bytes() == IDENTITY.as_bytes(),
        None => false,
    }
}

// Whether the element is no `Transform`, or leaves the bytes as they are.
fn is_passed(node: &Node) -> bool
    ensures { result ≡ (not (called (codes "Transform") (tree_of node.now))
        || is_identity_by (attribute_of (codes "Algorithm") (tree_of node.now))) }
{
    !is_called(node, "Transform") || is_identity(node)
}

// Whether each element `Transform` of the element leaves the bytes as they are.
fn are_identities(transforms: &Node) -> bool
    ensures { result ≡ all_plain (children_called (codes "Transform") (tree_of transforms.now)) }
{
    let nodes = children(transforms);
    for transform in nodes {
        if !is_passed(transform) {
            return false;
        }
    }
    true
}

// Whether the element is no `Transforms`, or each transform in it leaves the bytes as they are.
fn are_passed(node: &Node) -> bool
    ensures { result ≡ (not (called (codes "Transforms") (tree_of node.now))
        || all_plain (children_called (codes "Transform") (tree_of node.now))) }
{
    !is_called(node, "Transforms") || are_identities(node)
}

// Whether each transform of the hash leaves the bytes as they are.
fn is_plain(hash: &Node) -> bool
    ensures { result ≡ plain (tree_of hash.now) }
{
    let nodes = children(hash);
    for transforms in nodes {
        if !are_passed(transforms) {
            return false;
        }
    }
    true
}

// The algorithm of an element `DigestMethod`, where it is known.
fn method_of(method: &Node) -> Option<Algorithm>
    ensures { result ≡ method_by (attribute_of (codes "Algorithm") (tree_of method.now)) }
{
    Algorithm::from_uri(attribute(method, "Algorithm")?.as_bytes())
}

// The digest that the text spells.
fn digest_by(alloc: Global, algorithm: Algorithm, text: &[u8]) -> Result<Digest, ManifestFault>
    ensures { Gives (λ d. d) result (as_value (digest_of algorithm text.now)) }
{
    match Digest::read(alloc, algorithm, text) {
        Ok(digest) => Ok(digest),
        Err(DigestFault::Bad) => bad_value(alloc, "DigestValue"),
        Err(DigestFault::Memory) => Err(ManifestFault::Memory),
    }
}

// The digest of a known method: none where the method is passed over.
fn known_digest(
    alloc: Global,
    method: Option<Algorithm>,
    text: &[u8],
) -> Result<Option<Digest>, ManifestFault>
    ensures { Gives (λ d. d) result (digest_by_method method text.now) }
{
    match method {
        None => Ok(None),
        Some(algorithm) => {
            let digest = digest_by(alloc, algorithm, text)?;
            Ok(Some(digest))
        }
    }
}

// What a `hash` says: none where its method is passed over.
fn hash_of(alloc: Global, hash: &Node) -> Result<Option<Digest>, ManifestFault>
    ensures { Gives (λ d. d) result (hash_read (tree_of hash.now)) }
{
    if !is_plain(hash) {
        return bad_value(alloc, "Algorithm");
    }
    let method = once(alloc, hash, "DigestMethod")?;
    let value = once(alloc, hash, "DigestValue")?;
    known_digest(alloc, method_of(method), value.text.as_bytes())
}

// Adds what the `hash` says.
fn add_hash(alloc: Global, digests: &mut Vec<Digest>, hash: &Node) -> Result<(), ManifestFault>
    ensures { Gives (λ _. digests.new.items) result
        (added digests.old.items (hash_read (tree_of hash.now))) }
{
    if let Some(digest) = hash_of(alloc, hash)? {
        digests.push(digest)?;
    }
    Ok(())
}

// How many elements `hash` there are.
fn count_hashes(node: &Node) -> usize
    ensures { result ≡ length (children_called (codes "hash") (tree_of node.now)) }
{
    let nodes = children(node);
    let mut count = 0;
    for child in nodes {
        if is_called(child, "hash") {
            count += 1;
        }
    }
    count
}

// The digests of the elements `hash`, in order.
fn hashes_of(alloc: Global, node: &Node) -> Result<Vec<Digest>, ManifestFault>
    ensures { Gives (λ v. v.items) result
        (hashes (children_called (codes "hash") (tree_of node.now))) }
{
    let nodes = children(node);
    let mut digests = Vec::new(alloc);
    for child in nodes {
        if !is_called(child, "hash") {
            continue;
        }
        add_hash(alloc, &mut digests, child)?;
    }
    Ok(digests)
}

// The same, where there are at most eight.
fn counted(alloc: Global, node: &Node) -> Result<Vec<Digest>, ManifestFault>
    ensures digests { Gives (λ v. v.items) result
        (counted_hashes (children_called (codes "hash") (tree_of node.now))) }
    ensures few { IfOk result (λ v. length v.items ≤ HASH_LIMIT) }
{
    if count_hashes(node) > HASH_LIMIT {
        return Err(ManifestFault::TooMany {
            what: Limit::Hashes,
        });
    }
    hashes_of(alloc, node)
}

// The list of the digests, where there is one.
fn some_digest(alloc: Global, file: &str, digests: Vec<Digest>) -> Result<DigestList, ManifestFault>
    requires { length digests.items ≤ HASH_LIMIT }
    ensures { Gives (λ l. l) result (some_read file.now digests.items) }
{
    match DigestList::from_list(List::from_vec(digests)) {
        Some(list) => Ok(list),
        None => no_digest(alloc, file),
    }
}

/// The digests of known algorithms that the element's children `hash` say, in order; the file is
/// what `NoDigest` names. In this order: `TooMany` where there are more than eight hashes; for each
/// hash `BadValue` of `Algorithm` where a transform is not the one that leaves the bytes as they
/// are, `Missing` or `Twice` of `DigestMethod` and of `DigestValue`, and `BadValue` of
/// `DigestValue` where the algorithm is known and the text is no digest of it; `NoDigest` where no
/// algorithm is known.
#[tactic(auto, unfolding(crate::specs::Parts::digests_of))]
pub fn digests_of(alloc: Global, file: &str, node: &Node) -> Result<DigestList, ManifestFault>
    ensures { Gives (λ l. l) result (digests_read file.now (tree_of node.now)) }
{
    let digests = counted(alloc, node)?;
    some_digest(alloc, file, digests)
}
