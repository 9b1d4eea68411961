// Contents that are wanted.
ghost use Rattle.std.specs.Prelude.{◌≡◌, ◌∷◌, [], ◌++◌, ℕ, List, IfOk, IfErr, OnOk, string_bytes, slice_get, slice_index_or, if◌then◌else◌};
ghost use Rattle.std.specs.Str.{bytes_eq};
ghost use Rattle.manifests.specs.declared.facts.FileEntry.{FileEntry};
ghost use Rattle.machine.specs.Wanted.{is_held};
ghost use Rattle.install_plan.specs.WantedFiles as spec;
ghost use Rattle.install_plan.specs.WantedFiles.{Knows, is_among, row};

use data_migration::same_content;
use digest_list::Digest;
use machine::Reply;
use manifests::FileEntry;
use small_types::{List, PrintFault};
use std::alloc::{AllocError, AllocFailed, Global};
use std::collections::BTreeMap;

// The digest as it stands in the text of a content.
fn digest_text(alloc: Global, digest: &Digest) -> Result<String, Reply>
    ensures text { IfOk result (λ text. string_bytes text ≡ spec.digest_text digest.now) }
    ensures memory { IfErr result (λ reply. reply ≡ Reply.Memory) }
{
    let value = match digest.print(alloc) {
        Ok(value) => value,
        Err(PrintFault::Memory) => return Err(Reply::Memory),
    };
    let name = digest.algorithm.name();
    let value = value.as_str();
    match format!(in alloc; " {name}{value}") {
        Ok(text) => Ok(text),
        Err(AllocError) => Err(Reply::Memory),
    }
}

// The text of a content of that size and these digests.
fn content_text(alloc: Global, size: u64, list: &[Digest]) -> Result<String, Reply>
    ensures text { IfOk result (λ text. string_bytes text ≡ spec.content_text size list.now) }
    ensures memory { IfErr result (λ reply. reply ≡ Reply.Memory) }
{
    let mut text = match format!(in alloc; "{size}") {
        Ok(text) => text,
        Err(AllocError) => return Err(Reply::Memory),
    };
    for digest in list {
        let part = match digest_text(alloc, digest) {
            Ok(part) => part,
            Err(reply) => return Err(reply),
        };
        if let Err(AllocError) = text.push_str(part.as_str()) {
            return Err(Reply::Memory);
        }
    }
    Ok(text)
}

// Whether the file at the place has the content.
fn has_content(files: &[FileEntry], entry: &FileEntry, place: usize) -> bool
    ensures { result ≡ spec.has_content entry.now (slice_get files.now place) }
{
    match files.get(place) {
        Some(other) => same_content(entry, other),
        None => false,
    }
}

// The places under the text, and one more.
fn with_place(
    alloc: Global,
    table: &BTreeMap<String, List<usize>>,
    text: &str,
    place: usize,
) -> Result<List<usize>, Reply>
    ensures places { IfOk result (λ places. places ≡ row table.now text.now ++ place ∷ []) }
    ensures memory { IfErr result (λ reply. reply ≡ Reply.Memory) }
{
    let old = match table.get(text) {
        Some(places) => places.as_slice(),
        None => &[],
    };
    let mut places = match Vec::from_slice(alloc, old) {
        Ok(places) => places,
        Err(AllocError) => return Err(Reply::Memory),
    };
    match places.push(place) {
        Ok(()) => Ok(List::from_vec(places)),
        Err(AllocFailed { .. }) => Err(Reply::Memory),
    }
}

/// Notes that the file at the place, with that text of its content, is wanted.
pub(crate) fn note(
    alloc: Global,
    table: &mut BTreeMap<String, List<usize>>,
    text: String,
    place: usize,
) -> Result<(), Reply>
    ensures added { OnOk result ((q : List ℕ) → row table.new q
        ≡ (if bytes_eq (string_bytes text) q then row table.old q ++ place ∷ []
        else row table.old q)) }
    ensures memory { IfErr result (λ reply. reply ≡ Reply.Memory) }
{
    let places = match with_place(alloc, table, text.as_str(), place) {
        Ok(places) => places,
        Err(reply) => return Err(reply),
    };
    match table.insert(text, places) {
        Ok(_) => Ok(()),
        Err(AllocFailed { .. }) => Err(Reply::Memory),
    }
}

/// Whether a file whose content has that text is among the files that were noted.
pub(crate) fn is_noted(
    table: &BTreeMap<String, List<usize>>,
    files: &[FileEntry],
    entry: &FileEntry,
    text: &str,
) -> bool
    ensures { result ≡ is_among files.now entry.now (row table.now text.now) }
{
    match table.get(text) {
        Some(places) => places
            .as_slice()
            .iter()
            .any(|place| has_content(files, entry, *place)),
        None => false,
    }
}

/// The text of the file's content.
pub(crate) fn text_of(alloc: Global, entry: &FileEntry) -> Result<String, Reply>
    ensures text { IfOk result (λ text. string_bytes text
        ≡ spec.content_text entry.now.size entry.now.list) }
    ensures memory { IfErr result (λ reply. reply ≡ Reply.Memory) }
{
    content_text(alloc, entry.size, entry.list.as_slice())
}
