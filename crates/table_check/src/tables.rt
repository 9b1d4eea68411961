// Whether tables show a store within its order and its limits.
ghost use Rattle.std.specs.Prelude.{◌↔◌, ◌≤◌, ℕ, List, All, IsSome, IsTrue};
ghost use Rattle.small_types.specs.declared.limits.TheConstants as limits;
ghost use Rattle.small_types.specs.declared.room.Room.{Room};
ghost use Rattle.machine.specs.Store.{Store};
ghost use Rattle.machine.specs.Valid.{IsInstalled, Ordered};
ghost use Rattle.store_state.specs.Rows.{row_at};
ghost use Rattle.store_state.specs.Shows.{Shows};
ghost use Rattle.table_check.specs.OrderedTables.{AreOrderedTables, IsAppOf, IsInstalledRow};

use crate::apps::are_apps_of;
use crate::parts::are_short;
use identity::Key;
use machine::Lease;
use small_types::limits::{NAME_LIMIT, NUMBER_LIMIT};
use store_state::{StoreState, View};

// Whether a view is kept under the number.
fn is_kept(state: &StoreState, number: u64) -> bool
    ensures { IsTrue result ↔ IsSome (row_at number state.now.views) }
{
    state.view(number).is_some()
}

// Whether each lease is of a kept view.
fn are_leases_of_views(state: &StoreState, leases: &[Lease]) -> bool
    ensures { IsTrue result
        ↔ All (λ lease. IsSome (row_at lease.view state.now.views)) leases.now }
{
    leases.iter().all(|lease| is_kept(state, lease.view))
}

// Whether the application of the key has a current view.
fn is_installed(state: &StoreState, key: &Key) -> bool
    ensures { IsTrue result ↔ IsInstalled state.now.apps key.now }
{
    match state.entry(key) {
        Some(app) => app.current.is_some(),
        None => false,
    }
}

// Whether the groups of the view have short names, and its application has a current one.
fn is_installed_row(state: &StoreState, view: &View) -> bool
    ensures { IsTrue result ↔ IsInstalledRow state.now.apps view.now }
{
    is_installed(state, &view.deployment.identity.key)
        && are_short(view.groups.as_slice(), NAME_LIMIT)
}

fn are_installed_rows(state: &StoreState, views: &[View]) -> bool
    ensures { IsTrue result ↔ All (IsInstalledRow state.now.apps) views.now }
{
    views.iter().all(|view| is_installed_row(state, view))
}

// ---- the same of the tables' own boot number, leases, views and applications

fn has_boot(state: &StoreState) -> bool
    ensures { IsTrue result ↔ state.now.boot ≤ limits.NUMBER_LIMIT }
{
    state.boot <= NUMBER_LIMIT
}

fn has_leases(state: &StoreState) -> bool
    ensures { IsTrue result
        ↔ All (λ lease. IsSome (row_at lease.view state.now.views)) state.now.leases }
{
    are_leases_of_views(state, state.leases.as_slice())
}

fn has_views(state: &StoreState) -> bool
    ensures { IsTrue result ↔ All (IsInstalledRow state.now.apps) state.now.views }
{
    are_installed_rows(state, state.views.as_slice())
}

fn has_apps(state: &StoreState) -> bool
    ensures { IsTrue result ↔ All (IsAppOf state.now.views) state.now.apps }
{
    are_apps_of(state, state.apps.as_slice())
}

// Whether the tables have what all tables may lack.
fn are_ordered(state: &StoreState) -> bool
    ensures { IsTrue result ↔ AreOrderedTables state.now }
{
    if !has_boot(state) {
        return false;
    }
    if !has_leases(state) {
        return false;
    }
    has_views(state) && has_apps(state)
}

/// Whether the tables show a store within its order and its limits, where its number of blocks is
/// possible: the boot number is at most 2 ^ 62; each lease is of a kept view; of each view the
/// groups that stand have names within their limit, and its application has a current view; and of
/// each application the texts, the versions and the moment of the last check are within their
/// limits, its views are kept and its own, a previous one stands only beside a current one and is
/// another, and a current one only beside a provider. It takes no memory, and finds each view and
/// each application by binary search.
pub fn is_ordered(state: &StoreState) -> bool
    ensures tables { IsTrue result ↔ AreOrderedTables state.now }
    ensures store { (room : Room) (image : List ℕ) (store : Store) → 1 ≤ room.blocks
        → room.blocks ≤ limits.BLOCK_LIMIT → Shows room state.now image store
        → IsTrue result ↔ Ordered store }
{
    state.are_tables();
    are_ordered(state)
}
