// What requiring a version comes to.
ghost use Rattle.std.specs.Prelude.{◌≡◌, None, IfSome};
ghost use Rattle.updater.specs.Requirement.{Stays, Raises};

use identity::{Key, Version};
use store_state::StoreState;

/// The minimum of the key, where it is not below the version, so that requiring the version changes
/// nothing.
pub(crate) fn minimum_that_stays(state: &StoreState, key: &Key, version: Version) -> Option<Version>
    ensures some { IfSome result (λ minimum. Stays key.now version minimum state.now.apps) }
    ensures none { result ≡ None → Raises key.now version state.now.apps }
{
    let Some(app) = state.entry(key) else {
        return None;
    };
    let Some(minimum) = app.minimum else {
        return None;
    };
    if minimum.is_below(&version) {
        return None;
    }
    Some(minimum)
}
