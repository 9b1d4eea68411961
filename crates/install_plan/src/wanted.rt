// The files that an install fetches.
ghost use Rattle.std.specs.Prelude.{◌≡◌, ◌⊎◌, ◌<◌, ◌≤◌, ◌-◌, ◌^◌, ◌∷◌, [], ◌++◌, All, Any, Err, IfErr, IfOk, List, Ok, OnOk, Some, length, map, min, slice_get, sum_by, if◌then◌else◌};
ghost use Rattle.std.specs.List.{HoldsAt};
ghost use Rattle.manifests.specs.declared.facts.FileEntry.{FileEntry};
ghost use Rattle.addresses.specs.declared.fault.UrlFault.TheVariants as no_address;
ghost use Rattle.machine.specs.Blocks.{blocks_of, standing_files};
ghost use Rattle.machine.specs.Wanted.{wanted_beside};
ghost use Rattle.store_state.specs.Tables.{bare_row};
ghost use Rattle.install_plan.specs.WantedFiles.{Knows, Takes, blocks_at, joined_at, target_at};

use crate::WantedFile;
use crate::replies::url_reply;
use crate::taken::{is_noted, note, text_of};
use addresses::FileBase;
use machine::Reply;
use manifests::FileEntry;
use small_types::limits::BLOCK_SIZE;
use small_types::{List, Target};
use std::alloc::{AllocFailed, Global};
use std::collections::BTreeMap;
use store_state::StoreState;

// Whether the file at the place is wanted beside those that are noted, and notes it where its
// content is.
fn takes(
    alloc: Global,
    state: &StoreState,
    files: &[FileEntry],
    table: &mut BTreeMap<String, List<usize>>,
    place: usize,
) -> Result<bool, Reply>
    requires { place < length files.now }
    ensures takes { (taken : List FileEntry) → Knows files.now table.old taken
        → IfOk result (λ wanted. HoldsAt (λ entry.
        Takes files.now (standing_files (map bare_row state.now.views)) taken entry table.new
        wanted)
        files.now place) }
    ensures memory { IfErr result (λ reply. reply ≡ Reply.Memory) }
{
    let entry = &files[place];
    if entry.local {
        return Ok(true);
    }
    if entry.group.is_some() || state.holds(entry) {
        return Ok(false);
    }
    let text = match text_of(alloc, entry) {
        Ok(text) => text,
        Err(reply) => return Err(reply),
    };
    if is_noted(table, files, entry, text.as_str()) {
        return Ok(false);
    }
    match note(alloc, table, text, place) {
        Ok(()) => Ok(true),
        Err(reply) => Err(reply),
    }
}

// Adds the place where it is wanted.
fn add_place(places: &mut Vec<usize>, place: usize, wanted: bool) -> Result<(), Reply>
    ensures added { OnOk result (places.new.items
        ≡ (if wanted then places.old.items ++ place ∷ [] else places.old.items)) }
    ensures memory { IfErr result (λ reply. reply ≡ Reply.Memory) }
{
    if !wanted {
        return Ok(());
    }
    match places.push(place) {
        Ok(()) => Ok(()),
        Err(AllocFailed { .. }) => Err(Reply::Memory),
    }
}

// The places of the wanted files, in order.
pub(crate) fn wanted_places(
    alloc: Global,
    state: &StoreState,
    files: &[FileEntry],
) -> Result<Vec<usize>, Reply>
    ensures places { IfOk result (λ places. map (slice_get files.now) places.items
        ≡ map Some (wanted_beside (standing_files (map bare_row state.now.views)) files.now)) }
    ensures memory { IfErr result (λ reply. reply ≡ Reply.Memory) }
{
    let mut places = Vec::new(alloc);
    let mut table = BTreeMap::new(alloc);
    for place in 0..files.len() {
        let wanted = match takes(alloc, state, files, &mut table, place) {
            Ok(wanted) => wanted,
            Err(reply) => return Err(reply),
        };
        if let Err(reply) = add_place(&mut places, place, wanted) {
            return Err(reply);
        }
    }
    Ok(places)
}

// The file at the place, with its address.
fn wanted_file(
    alloc: Global,
    base: &FileBase,
    mapped: bool,
    files: &[FileEntry],
    place: usize,
) -> Result<WantedFile, Reply>
    requires { place < length files.now }
    ensures place { IfOk result (λ file. file.place ≡ place) }
    ensures target { IfOk result (λ file.
        joined_at base.now mapped (slice_get files.now place) ≡ Ok file.target) }
    ensures refused { IfErr result (λ reply. (reply ≡ Reply.Memory) ⊎ ((reply ≡ Reply.BadUrl)
        × (joined_at base.now mapped (slice_get files.now place)
        ≡ Err no_address.BadUrl))) }
{
    let entry = &files[place];
    match base.target(alloc, mapped, &entry.name) {
        Ok(target) => Ok(WantedFile { place, target }),
        Err(fault) => Err(url_reply(fault)),
    }
}

// The files at the places, with their addresses.
fn joined_files(
    alloc: Global,
    base: &FileBase,
    mapped: bool,
    files: &[FileEntry],
    places: &[usize],
) -> Result<List<WantedFile>, Reply>
    requires { All (λ place. place < length files.now) places.now }
    ensures places { IfOk result (λ wanted. map (λ file. file.place) wanted ≡ places.now) }
    ensures targets { IfOk result (λ wanted.
        map (λ place. joined_at base.now mapped (slice_get files.now place))
        places.now ≡ map (λ file. Ok file.target) wanted) }
    ensures refused { IfErr result (λ reply. (reply ≡ Reply.Memory) ⊎ ((reply ≡ Reply.BadUrl)
        × Any (λ place. joined_at base.now mapped (slice_get files.now place)
        ≡ Err no_address.BadUrl) places.now)) }
{
    let mut wanted = Vec::new(alloc);
    for place in places {
        let file = match wanted_file(alloc, base, mapped, files, *place) {
            Ok(file) => file,
            Err(reply) => return Err(reply),
        };
        if let Err(AllocFailed { .. }) = wanted.push(file) {
            return Err(Reply::Memory);
        }
    }
    Ok(List::from_vec(wanted))
}

// The same, where the base is read first. Where no file is wanted, it is not read.
pub(crate) fn wanted_files(
    alloc: Global,
    base: &Target,
    mapped: bool,
    files: &[FileEntry],
    places: &[usize],
) -> Result<List<WantedFile>, Reply>
    requires { All (λ place. place < length files.now) places.now }
    ensures places { IfOk result (λ wanted. map (λ file. file.place) wanted ≡ places.now) }
    ensures targets { IfOk result (λ wanted.
        map (λ place. target_at base.now mapped (slice_get files.now place)) places.now
        ≡ map (λ file. Ok file.target) wanted) }
    ensures refused { IfErr result (λ reply. (reply ≡ Reply.Memory) ⊎ ((reply ≡ Reply.BadUrl)
        × Any (λ place. target_at base.now mapped (slice_get files.now place)
        ≡ Err no_address.BadUrl) places.now)) }
{
    if places.is_empty() {
        return Ok(List::from_vec(Vec::new(alloc)));
    }
    let read = match FileBase::read(alloc, base) {
        Ok(read) => read,
        Err(fault) => return Err(url_reply(fault)),
    };
    match joined_files(alloc, &read, mapped, files, places) {
        Ok(wanted) => Ok(wanted),
        Err(reply) => Err(reply),
    }
}

// The blocks of so many bytes.
pub(crate) fn blocks_of(bytes: u64) -> u64
    ensures value { result ≡ blocks_of bytes }
    ensures few { result ≤ 2 ^ 52 }
{
    let block = BLOCK_SIZE as u64;
    if bytes % block == 0 {
        bytes / block
    } else {
        bytes / block + 1
    }
}

// The blocks of the file at the place.
fn blocks_at(files: &[FileEntry], place: usize) -> u64
    ensures { result ≡ blocks_at (slice_get files.now place) }
{
    match files.get(place) {
        Some(entry) => blocks_of(entry.size),
        None => 0,
    }
}

// The blocks of the files at the places, as far as a number goes.
pub(crate) fn blocks_needed(files: &[FileEntry], places: &[usize]) -> u64
    ensures { result
        ≡ min (sum_by (λ place. blocks_at (slice_get files.now place)) places.now) (2 ^ 64 - 1) }
{
    let mut sum: u64 = 0;
    for place in places {
        sum = sum.saturating_add(blocks_at(files, *place));
    }
    sum
}
