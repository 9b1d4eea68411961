// Whether an application is the listed one, and whether there is room for its files and the tables.
ghost use Rattle.std.specs.Prelude.{◌≡◌, ◌↔◌, ◌<◌, ◌+◌, ◌-◌, ◌^◌, ◌⊎◌, ℕ, Any, Err, IfErr, IfOk, IsTrue, List, Ok, Some, length, map, min, slice_get, sum_by};
ghost use Rattle.small_types.specs.declared.room.Room.{Room};
ghost use Rattle.small_types.specs.declared.limits.TheConstants as limits;
ghost use Rattle.addresses.specs.declared.fault.UrlFault.TheVariants as no_address;
ghost use Rattle.addresses.specs.Join.{file_target_of};
ghost use Rattle.machine.specs.Blocks.{blocks_of, free_blocks, standing_files};
ghost use Rattle.machine.specs.Fields.{IsApplication};
ghost use Rattle.machine.specs.InstallRow.{base_of, weight_installed};
ghost use Rattle.machine.specs.Wanted.{wanted, wanted_beside};
ghost use Rattle.store_state.specs.Rows.{listed_files};
ghost use Rattle.store_state.specs.Tables.{bare_row, table_shape};
ghost use Rattle.install_plan.specs.Judges.{Judges, file_checks, identity_checks, place_checks, room_checks, weight_checks};

use crate::WantedFile;
use crate::local_plans::{copied_blocks, judge_locals};
use crate::wanted::{blocks_needed, wanted_files, wanted_places};
use identity::Key;
use machine::Reply;
use manifests::{Application, Deployment, FileEntry, ReleaseFault};
use small_types::limits::FILE_COUNT_LIMIT;
use small_types::{CopyFault, Duplicate, Limit, List, Room, Target};
use std::alloc::Global;
use store_state::StoreState;
use table_weight::{WeightFault, table_full, weight_with_release};

// The refusal of an application of another key.
fn other_key(alloc: Global, listed: &Key, found: &Key) -> Reply
    ensures { (result ≡ Reply.Memory)
        ⊎ (result ≡ Reply.Release (ReleaseFault.IdentityDiffers listed.now found.now)) }
{
    let listed = match listed.copy(alloc) {
        Ok(listed) => listed,
        Err(CopyFault::Memory) => return Reply::Memory,
    };
    match found.copy(alloc) {
        Ok(found) => Reply::Release {
            fault: ReleaseFault::IdentityDiffers { listed, found },
        },
        Err(CopyFault::Memory) => Reply::Memory,
    }
}

// Whether the application has the key and the version that the deployment lists.
pub(crate) fn judge_identity(alloc: Global, d: &Deployment, a: &Application) -> Result<(), Reply>
    ensures { Judges (identity_checks d.now a.now) result }
{
    if d.app.key != a.identity.key {
        return Err(other_key(alloc, &d.app.key, &a.identity.key));
    }
    if d.app.version != a.identity.version {
        return Err(Reply::Release {
            fault: ReleaseFault::VersionDiffers {
                listed: d.app.version,
                found: a.identity.version,
            },
        });
    }
    Ok(())
}

// Whether the views and the application list more files than may be.
fn lists_too_many(state: &StoreState, a: &Application) -> bool
    ensures { IsTrue result
        ↔ limits.FILE_COUNT_LIMIT < listed_files state.now.views + length a.now.files }
{
    let listed = state.file_count();
    let more = a.files.as_slice().len();
    listed > FILE_COUNT_LIMIT || more > FILE_COUNT_LIMIT - listed
}

// Whether there is a place for the files of the application.
pub(crate) fn judge_files(
    alloc: Global,
    state: &StoreState,
    d: &Deployment,
    a: &Application,
) -> Result<(), Reply>
    ensures { (room : Room) → Judges (file_checks (table_shape room state.now) d.now a.now) result }
{
    if lists_too_many(state, a) {
        return Err(Reply::TooMany {
            what: Limit::Files,
            limit: FILE_COUNT_LIMIT as u64,
        });
    }
    match judge_locals(alloc, state, d, a) {
        Ok(()) => Ok(()),
        Err(reply) => Err(reply),
    }
}

// Whether so many blocks are free.
pub(crate) fn judge_room(state: &StoreState, room: Room, need: u64) -> Result<(), Reply>
    ensures { Judges (room_checks need (free_blocks (table_shape room state.now))) result }
{
    let free = state.free_blocks(room);
    if free < need {
        return Err(Reply::Full { need, free });
    }
    Ok(())
}

// The files that are wanted, with their addresses; their places; and the blocks that they need.
#[derive(Drop)]
pub(crate) struct FilesNeeded {
    pub(crate) files: List<WantedFile>,
    pub(crate) places: Vec<usize>,
    pub(crate) need: u64,
}

// Those of the files that are wanted.
pub(crate) fn wants(
    alloc: Global,
    state: &StoreState,
    base: &Target,
    mapped: bool,
    files: &[FileEntry],
) -> Result<FilesNeeded, Reply>
    ensures places { IfOk result (λ w. map (λ file. slice_get files.now file.place) w.files
        ≡ map Some (wanted_beside (standing_files (map bare_row state.now.views)) files.now)) }
    ensures stand { IfOk result (λ w. map (slice_get files.now) w.places.items
        ≡ map Some (wanted_beside (standing_files (map bare_row state.now.views)) files.now)) }
    ensures targets { IfOk result (λ w. map (λ entry. file_target_of base.now mapped entry.name)
        (wanted_beside (standing_files (map bare_row state.now.views)) files.now)
        ≡ map (λ file. Ok file.target) w.files) }
    ensures need { IfOk result (λ w. w.need ≡ min (sum_by (λ entry. blocks_of entry.size)
        (wanted_beside (standing_files (map bare_row state.now.views)) files.now)) (2 ^ 64 - 1)) }
    ensures refused { IfErr result (λ reply. (reply ≡ Reply.Memory) ⊎ ((reply ≡ Reply.BadUrl)
        × Any (λ entry. file_target_of base.now mapped entry.name ≡ Err no_address.BadUrl)
        (wanted_beside (standing_files (map bare_row state.now.views)) files.now))) }
{
    let places = match wanted_places(alloc, state, files) {
        Ok(places) => places,
        Err(reply) => return Err(reply),
    };
    let need = blocks_needed(files, places.as_slice());
    match wanted_files(alloc, base, mapped, files, places.as_slice()) {
        Ok(files) => Ok(FilesNeeded {
            files,
            places,
            need,
        }),
        Err(reply) => Err(reply),
    }
}

// Judges whether there is a place for the release that was heard, and answers what is wanted of its
// files.
pub(crate) fn judge_places(
    alloc: Global,
    state: &StoreState,
    room: Room,
    base: &Target,
    d: &Deployment,
    a: &Application,
) -> Result<FilesNeeded, Reply>
    ensures places { IfOk result (λ w. map (λ file. slice_get a.now.files file.place) w.files
        ≡ map Some (wanted (map bare_row state.now.views) a.now)) }
    ensures stand { IfOk result (λ w. map (slice_get a.now.files) w.places.items
        ≡ map Some (wanted (map bare_row state.now.views) a.now)) }
    ensures targets { IfOk result (λ w.
        map (λ entry. file_target_of base.now d.now.mapped entry.name)
        (wanted (map bare_row state.now.views) a.now) ≡ map (λ file. Ok file.target) w.files) }
    ensures judged { (url : List ℕ) → base_of url d.now ≡ Ok base.now → IsApplication a.now
        → Judges (place_checks url (table_shape room state.now) d.now a.now) result }
{
    if let Err(reply) = judge_identity(alloc, d, a) {
        return Err(reply);
    }
    if let Err(reply) = judge_files(alloc, state, d, a) {
        return Err(reply);
    }
    let wants = match wants(alloc, state, base, d.mapped, a.files.as_slice()) {
        Ok(wants) => wants,
        Err(reply) => return Err(reply),
    };
    let copied = copied_blocks(state, &d.identity.key);
    let need = wants.need.saturating_add(copied);
    match judge_room(state, room, need) {
        Ok(()) => Ok(wants),
        Err(reply) => Err(reply),
    }
}

// Whether the tables have room once the release is installed, where these are the places of its
// files that are wanted. A half of 0, which no journal has, has room for any.
pub(crate) fn judge_tables(
    alloc: Global,
    state: &StoreState,
    room: Room,
    provider: &Target,
    base: &Target,
    d: &Deployment,
    a: &Application,
    places: &[usize],
) -> Result<(), Reply>
    ensures { map (slice_get a.now.files) places.now
        ≡ map Some (wanted (map bare_row state.now.views) a.now)
        → Judges (weight_checks room (weight_installed provider.now base.now d.now a.now
        (table_shape room state.now))) result }
{
    if room.half == 0 {
        return Ok(());
    }
    let weight = match weight_with_release(alloc, state, provider, base, d, a, places) {
        Ok(weight) => weight,
        Err(WeightFault::Memory) => return Err(Reply::Memory),
    };
    match table_full(room, weight) {
        Some(reply) => Err(reply),
        None => Ok(()),
    }
}
