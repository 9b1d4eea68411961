// How much applications weigh of which one is changed.
ghost use Rattle.std.specs.Prelude.{◌≡◌, ◌+◌, ◌<◌, ◌-◌, ◌^◌, drop, length, min, slice_get, sum_by, take};
ghost use Rattle.std.specs.List.{HoldsAt};
ghost use Rattle.identity.specs.declared.version.Version.{Version};
ghost use Rattle.machine.specs.Entries.{with_entry};
ghost use Rattle.machine.specs.InstallRow.{with_provider};
ghost use Rattle.machine.specs.RequireRow.{required};
ghost use Rattle.machine.specs.Weight.{app_weight, key_bytes, target_bytes};

use crate::counts::{count_key, count_target};
use crate::weighs::{Apps, sum_weights};
use identity::Key;
use machine::{APP_WEIGHT, AppState};
use small_types::Target;
use store_state::StoreState;

// How much they weigh once the key has an entry.
pub(crate) fn sum_required(state: &StoreState, key: &Key) -> u64
    ensures { (version : Version) → result
        ≡ min (sum_by app_weight (required key.now version state.now.apps)) (2 ^ 64 - 1) }
{
    let known = sum_weights::<Apps>(state.apps.as_slice());
    match state.entry(key) {
        Some(_) => known,
        None => APP_WEIGHT
            .saturating_add(count_key(key))
            .saturating_add(known),
    }
}

// What an application of the key with the provider weighs.
fn weigh_provided(key: &Key, provider: &Target) -> u64
    ensures { result
        ≡ min (APP_WEIGHT + key_bytes key.now + target_bytes provider.now) (2 ^ 64 - 1) }
{
    APP_WEIGHT
        .saturating_add(count_key(key))
        .saturating_add(count_target(provider))
}

// How much applications weigh of which that at the place has the provider.
fn sum_provided_at(apps: &[AppState], place: usize, provider: &Target) -> u64
    requires { place < length apps.now }
    ensures { HoldsAt (λ app. result ≡ min (sum_by app_weight (take place apps.now)
        + sum_by app_weight (drop (place + 1) apps.now)
        + (APP_WEIGHT + key_bytes app.key + target_bytes provider.now)) (2 ^ 64 - 1))
        apps.now place }
{
    sum_weights::<Apps>(&apps[..place])
        .saturating_add(sum_weights::<Apps>(&apps[place + 1..]))
        .saturating_add(weigh_provided(&apps[place].key, provider))
}

// How much they weigh once that of the key has the provider.
pub(crate) fn sum_provided(state: &StoreState, key: &Key, provider: &Target) -> u64
    ensures { result
        ≡ min (sum_by app_weight (with_entry key.now (with_provider provider.now) state.now.apps))
        (2 ^ 64 - 1) }
{
    state.are_tables();
    let apps = state.apps.as_slice();
    match state.place(key) {
        Some(place) => sum_provided_at(apps, place, provider),
        None => weigh_provided(key, provider).saturating_add(sum_weights::<Apps>(apps)),
    }
}
