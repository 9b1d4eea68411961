// Whether what is known of an application fits the views.
ghost use Rattle.std.specs.Prelude.{◌≡◌, ◌≢◌, ◌↔◌, ◌≤◌, ℕ, All, IfSome, IsSome, IsTrue, Some};
ghost use Rattle.small_types.specs.declared.limits.TheConstants as limits;
ghost use Rattle.identity.specs.Version.{IsVersion};
ghost use Rattle.machine.specs.Fields.{IsShortKey, IsTarget};
ghost use Rattle.table_check.specs.OrderedTables.{IsAppOf, IsRowOf};

use crate::parts::{is_short_key, is_some_moment, is_some_target, is_some_version};
use identity::Key;
use machine::AppState;
use store_state::{StoreState, View};

// Whether the view is one of the key.
fn is_of(view: &View, key: &Key) -> bool
    ensures { IsTrue result ↔ (view.now.deployment.identity.key ≡ key.now) }
{
    view.deployment.identity.key == *key
}

// Whether a view of that key is kept under the number.
fn is_row_of(state: &StoreState, key: &Key, number: u64) -> bool
    ensures { IsTrue result ↔ IsRowOf state.now.views key.now number }
{
    match state.view(number) {
        Some(view) => is_of(view, key),
        None => false,
    }
}

// The same where there is a number.
fn is_some_row_of(state: &StoreState, key: &Key, number: Option<u64>) -> bool
    ensures { IsTrue result ↔ IfSome number (IsRowOf state.now.views key.now) }
{
    match number {
        Some(number) => is_row_of(state, key, number),
        None => true,
    }
}

// Whether the first is not there, or the second is.
fn implies(first: bool, second: bool) -> bool
    ensures { IsTrue result ↔ (IsTrue first → IsTrue second) }
{
    !first || second
}

// Whether no number is that of both.
fn are_others(current: Option<u64>, previous: Option<u64>) -> bool
    ensures { IsTrue result
        ↔ ((number : ℕ) → current ≡ Some number → previous ≢ Some number) }
{
    match (current, previous) {
        (Some(current), Some(previous)) => current != previous,
        _ => true,
    }
}

// Whether its texts are within their limits.
fn has_short_texts(app: &AppState) -> bool
    ensures { IsTrue result ↔ (IsShortKey app.now.key × IfSome app.now.provider IsTarget) }
{
    is_short_key(&app.key) && is_some_target(&app.provider)
}

// Whether its versions and its last check are within their limits.
fn has_versions(app: &AppState) -> bool
    ensures { IsTrue result ↔ (IfSome app.now.minimum IsVersion
        × IfSome app.now.offer IsVersion
        × IfSome app.now.skipped IsVersion
        × IfSome app.now.excluded IsVersion
        × IfSome app.now.last_check (λ moment. moment ≤ limits.NUMBER_LIMIT)) }
{
    is_some_version(app.minimum)
        && is_some_version(app.offer)
        && is_some_version(app.skipped)
        && is_some_version(app.excluded)
        && is_some_moment(app.last_check)
}

// Whether its views are kept and its own.
fn has_rows(state: &StoreState, app: &AppState) -> bool
    ensures { IsTrue result ↔ (IfSome app.now.current (IsRowOf state.now.views app.now.key)
        × IfSome app.now.previous (IsRowOf state.now.views app.now.key)) }
{
    is_some_row_of(state, &app.key, app.current) && is_some_row_of(state, &app.key, app.previous)
}

// Whether a previous view stands only beside a current one and is another, and a current one only
// beside a provider.
fn is_whole(app: &AppState) -> bool
    ensures { IsTrue result ↔ ((IsSome app.now.previous → IsSome app.now.current)
        × ((number : ℕ) → app.now.current ≡ Some number → app.now.previous ≢ Some number)
        × (IsSome app.now.current → IsSome app.now.provider)) }
{
    implies(app.previous.is_some(), app.current.is_some())
        && are_others(app.current, app.previous)
        && implies(app.current.is_some(), app.provider.is_some())
}

// Whether all that is known of the application is as it is to be.
fn is_app_of(state: &StoreState, app: &AppState) -> bool
    ensures { IsTrue result ↔ IsAppOf state.now.views app.now }
{
    has_short_texts(app) && has_versions(app) && has_rows(state, app) && is_whole(app)
}

pub(crate) fn are_apps_of(state: &StoreState, apps: &[AppState]) -> bool
    ensures { IsTrue result ↔ All (IsAppOf state.now.views) apps.now }
{
    apps.iter().all(|app| is_app_of(state, app))
}
