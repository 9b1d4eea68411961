// What stands before a start of an application. None of it takes memory.
ghost use Rattle.std.specs.Prelude.{◌≡◌, ◌||◌, ℕ, Some, IsSome};
ghost use Rattle.small_types.specs.declared.room.Room.{Room};
ghost use Rattle.machine.specs.Due.{check_due, checks_first, due, due_of, is_old, is_version, offered_to};
ghost use Rattle.machine.specs.Installed.{above};
ghost use Rattle.store_state.specs.Rows.{current_row};
ghost use Rattle.store_state.specs.Tables.{table_shape};

use identity::{Key, Version};
use machine::{AppState, Due};
use manifests::Rule;
use store_state::StoreState;

// The other version, where it is above this one.
fn above(version: Version, other: Option<Version>) -> Option<Version>
    ensures { result ≡ above version other }
{
    match other {
        Some(other) if version.is_below(&other) => Some(other),
        _ => None,
    }
}

// Whether the version is the other one.
fn is_version(version: Version, other: Option<Version>) -> bool
    ensures { result ≡ is_version version other }
{
    match other {
        Some(other) => version.cmp(&other).is_eq(),
        None => false,
    }
}

// Whether the user skipped the version or went back from it.
fn is_declined(offer: Version, app: &AppState) -> bool
    ensures { result ≡ (is_version offer app.now.skipped || is_version offer app.now.excluded) }
{
    is_version(offer, app.skipped) || is_version(offer, app.excluded)
}

// The offer, where it is above the version and not declined.
fn offered_to(version: Version, app: &AppState) -> Option<Version>
    ensures { result ≡ offered_to version app.now }
{
    match above(version, app.offer) {
        Some(offer) if !is_declined(offer, app) => Some(offer),
        _ => None,
    }
}

// Whether a check comes before each start.
fn checks_first(rule: Rule) -> bool
    ensures { result ≡ checks_first rule }
{
    match rule {
        Rule::Before => true,
        Rule::Never | Rule::Age { .. } => false,
    }
}

// Whether no check has succeeded, the last one was so many seconds ago, or the moment lies before
// it.
fn is_old(seconds: u64, last: Option<u64>, now: u64) -> bool
    ensures { result ≡ is_old seconds last now }
{
    match last {
        Some(last) => now < last || seconds <= now - last,
        None => true,
    }
}

// Whether the time for the next check has come.
fn is_check_due(rule: Rule, last: Option<u64>, now: u64) -> bool
    ensures { result ≡ check_due rule last now }
{
    match rule {
        Rule::Age { seconds } => is_old(seconds, last, now),
        Rule::Never | Rule::Before => false,
    }
}

// What stands before a start of that version, by its rule and what is known of its application: the
// first that applies.
fn due_of(version: Version, rule: Rule, app: &AppState, now: u64) -> Due
    ensures { result ≡ due_of version rule app.now now }
{
    if let Some(minimum) = above(version, app.minimum) {
        return Due::Required { minimum };
    }
    if checks_first(rule) && !app.checked {
        return Due::CheckFirst;
    }
    match offered_to(version, app) {
        Some(version) => Due::Offered { version },
        None => Due::Clear {
            check_due: is_check_due(rule, app.last_check, now),
        },
    }
}

/// What stands before a start of the application, of which a view is current
/// (`StoreState::current`), at the moment in seconds. The first that applies: `Required`, where the
/// version of the view is below the minimum; `CheckFirst`, where its rule is `Before` and `checked`
/// is false, which an install or a check sets and a launch clears; `Offered`, where a version above
/// it is offered that was neither skipped nor excluded; else `Clear`. A check is due then exactly
/// where the rule is `Age` and no check has succeeded, or the moment is at least the last check
/// plus the age, or it lies before the last check. It takes no memory.
pub fn due(state: &StoreState, key: &Key, now: u64) -> Due
    requires { IsSome (current_row key.now state.now) }
    ensures { (room : Room) → due key.now (table_shape room state.now) now ≡ Some result }
{
    let Some(app) = state.entry(key) else {
        unreachable!();
    };
    let Some(view) = state.current(key) else {
        unreachable!();
    };
    let deployment = &view.deployment;
    due_of(deployment.identity.version, deployment.rule, app, now)
}
