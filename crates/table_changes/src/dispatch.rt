// Each change, by the call that makes it.
ghost use Rattle.std.specs.Prelude.{◌≡◌, OnErr, OnOk};
ghost use Rattle.store_state.specs.Change.{Fits, TakesMemory, effect};

use cleaner::{CleanFault, clean};
use leases::{finish, start};
use std::alloc::Global;
use store_state::{Change, StateFault, StoreState};

/// Makes any change that fits the tables. It takes memory only for a new entry, an install, a group,
/// a data file that is put and a clean, fails only for want of it, and then changes nothing.
pub fn make(alloc: Global, state: &mut StoreState, change: Change) -> Result<(), StateFault>
    requires { Fits state.old change }
    ensures ok { OnOk result (state.new ≡ effect change state.old) }
    ensures err { OnErr result (state.new ≡ state.old) }
    ensures memory { OnErr result (TakesMemory state.old change) }
{
    match change {
        Change::Launch { app } => {
            start(state, app);
            Ok(())
        }
        Change::Finish { lease } => {
            finish(state, lease);
            Ok(())
        }
        Change::Clean => match clean(alloc, state) {
            Ok(_) => Ok(()),
            Err(CleanFault::Memory) => Err(StateFault::Memory),
        },
        other => state.apply(alloc, other),
    }
}
