// The changes that begin and end a lease.
ghost use Rattle.std.specs.Prelude.{◌≡◌};
ghost use Rattle.store_state.specs.declared.change.Change.TheVariants as change;
ghost use Rattle.store_state.specs.Change.{Fits, effect};
ghost use Rattle.store_state.specs.Rows.{current_at};

use crate::grants::{end, grant};
use store_state::StoreState;

// The number of the view that is current for the application at the place.
fn current_at(state: &StoreState, place: usize) -> Option<u64>
    ensures { result ≡ current_at place state.now.apps }
{
    match state.apps.as_slice().get(place) {
        Some(app) => app.current,
        None => None,
    }
}

/// Begins a lease on the current view of the application at the place, which is no longer checked
/// then. It takes no memory.
pub fn start(state: &mut StoreState, app: u32)
    requires { Fits state.old (change.Launch app) }
    ensures { state.new ≡ effect (change.Launch app) state.old }
{
    let place = app as usize;
    let Some(view) = current_at(state, place) else {
        unreachable!();
    };
    let Ok(_) = grant(state, view) else {
        unreachable!();
    };
    state.clear_checked(place);
}

/// Ends the lease of that number. It takes no memory.
pub fn finish(state: &mut StoreState, lease: u64)
    requires { Fits state.old (change.Finish lease) }
    ensures { state.new ≡ effect (change.Finish lease) state.old }
{
    let Ok(()) = end(state, lease) else {
        unreachable!();
    };
}
