// How much the tables weigh, and how much they would after a command.
ghost use Rattle.std.specs.Prelude.{◌≡◌, ◌+◌, ◌-◌, ◌^◌, IfOk, Some, map, min, slice_get};
ghost use Rattle.small_types.specs.declared.room.Room.{Room};
ghost use Rattle.identity.specs.declared.version.Version.{Version};
ghost use Rattle.machine.specs.Blocks.{standing_files};
ghost use Rattle.machine.specs.GroupRow.{weight_grown};
ghost use Rattle.machine.specs.Groups.{group_files};
ghost use Rattle.machine.specs.InstallRow.{weight_installed};
ghost use Rattle.machine.specs.PutRow.{weight_put};
ghost use Rattle.machine.specs.RequireRow.{required};
ghost use Rattle.machine.specs.Wanted.{wanted, wanted_beside};
ghost use Rattle.machine.specs.Weight.{weight_of};
ghost use Rattle.store_state.specs.Rows.{row_at};
ghost use Rattle.store_state.specs.Tables.{bare_row, table_shape};
ghost use Rattle.table_weight.specs.Releases.{without_group};
ghost use Rattle.table_weight.specs.Weight.{tables_weight};

use crate::WeightFault;
use crate::data_files::sum_put;
use crate::entries::{sum_provided, sum_required};
use crate::groups::{sum_grown, sum_programs};
use crate::moves::weigh_moves;
use crate::weighs::{Apps, Contents, Views, sum_weights, weigh_release};
use identity::Key;
use machine::STATE_WEIGHT;
use manifests::{Application, Deployment, FileEntry};
use small_types::{Name, Target, Text};
use std::alloc::Global;
use store_state::{StoreState, View};

/// How much the tables weigh, as far as a number goes: 131,072, and for each application 256 and
/// the bytes of its key and of the address that updates come from; for each view 1,024, the bytes
/// of its texts outside files and 72 a digest of its application manifest; for each group that
/// stands in a view 16 and the bytes of its name; for each listed file 64, the bytes of its name
/// and its group and 72 a digest; for each data file 24, the bytes of its name and `BLOCK_WEIGHT` a
/// block; and for each content 24, 72 a digest and `BLOCK_WEIGHT` a block. It takes no memory.
#[tactic(auto, unfolding(crate::specs::Weight::weight_with))]
pub fn weight(state: &StoreState) -> u64
    ensures { result ≡ min (tables_weight state.now) (2 ^ 64 - 1) }
{
    STATE_WEIGHT
        .saturating_add(sum_weights::<Apps>(state.apps.as_slice()))
        .saturating_add(sum_weights::<Views>(state.views.as_slice()))
        .saturating_add(sum_weights::<Contents>(state.contents.as_slice()))
}

// The weight of tables whose applications, views and contents weigh so much.
fn sum_parts(apps: u64, views: u64, contents: u64) -> u64
    ensures { result ≡ min (STATE_WEIGHT + apps + views + contents) (2 ^ 64 - 1) }
{
    STATE_WEIGHT
        .saturating_add(apps)
        .saturating_add(views)
        .saturating_add(contents)
}

/// How much the tables weigh once the key has an entry, as far as a number goes. It takes no
/// memory.
pub fn weight_with_key(state: &StoreState, key: &Key) -> u64
    ensures { (version : Version) → result ≡ min (weight_of (map bare_row state.now.views)
        (required key.now version state.now.apps)) (2 ^ 64 - 1) }
{
    state.are_tables();
    let apps = sum_required(state, key);
    let views = sum_weights::<Views>(state.views.as_slice());
    let contents = sum_weights::<Contents>(state.contents.as_slice());
    sum_parts(apps, views, contents)
}

/// How much the tables weigh once the view of that number has a data file of that name with so many
/// bytes, as far as a number goes. It takes no memory.
pub fn weight_with_data(state: &StoreState, number: u64, name: &Name, length: u64) -> u64
    ensures { (room : Room) → result
        ≡ min (weight_put number (record { name = name.now; length = length })
        (table_shape room state.now)) (2 ^ 64 - 1) }
{
    state.are_tables();
    let apps = sum_weights::<Apps>(state.apps.as_slice());
    let views = sum_put(state.views.as_slice(), number, name, length);
    let contents = sum_weights::<Contents>(state.contents.as_slice());
    sum_parts(apps, views, contents)
}

/// How much the tables weigh once the group stands in the view, as far as a number goes. It is so
/// where the view is one of the tables, the files are those of the group, without it, and the
/// places are those of the ones that are wanted. It takes no memory.
pub fn weight_with_group(
    state: &StoreState,
    view: &View,
    group: &Text,
    files: &[FileEntry],
    places: &[usize],
) -> u64
    ensures { (room : Room) → row_at view.now.number state.now.views ≡ Some view.now
        → files.now ≡ map without_group (group_files group.now view.now.application)
        → map (slice_get files.now) places.now ≡ map Some
        (wanted_beside (standing_files (map bare_row state.now.views)) files.now)
        → result ≡ min (weight_grown view.now.number group.now (table_shape room state.now))
        (2 ^ 64 - 1) }
{
    state.are_tables();
    let apps = sum_weights::<Apps>(state.apps.as_slice());
    let views = sum_grown(state.views.as_slice(), view.number, group);
    let contents = sum_weights::<Contents>(state.contents.as_slice());
    let known = sum_parts(apps, views, contents);
    known.saturating_add(sum_programs(files, places))
}

/// How much the tables weigh once the release is installed, with its application manifest at the
/// base and updates from the provider, as far as a number goes. It is so where the places are those
/// of the files of the application that are wanted. It fails only for want of memory.
pub fn weight_with_release(
    alloc: Global,
    state: &StoreState,
    provider: &Target,
    base: &Target,
    d: &Deployment,
    a: &Application,
    places: &[usize],
) -> Result<u64, WeightFault>
    ensures { IfOk result (λ weight. (room : Room) → map (slice_get a.now.files) places.now
        ≡ map Some (wanted (map bare_row state.now.views) a.now) → weight
        ≡ min (weight_installed provider.now base.now d.now a.now (table_shape room state.now))
        (2 ^ 64 - 1)) }
{
    state.are_tables();
    let files = a.files.as_slice();
    let moves = weigh_moves(alloc, state, &d.identity.key, files)?;
    let apps = sum_provided(state, &d.identity.key, provider);
    let views = sum_weights::<Views>(state.views.as_slice());
    let contents = sum_weights::<Contents>(state.contents.as_slice());
    let known = sum_parts(apps, views, contents);
    let release = weigh_release(d, a, base).saturating_add(moves);
    let new = release.saturating_add(sum_programs(files, places));
    Ok(known.saturating_add(new))
}
