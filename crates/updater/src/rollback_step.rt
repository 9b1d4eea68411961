// What going back to the previous view of an application comes to.
ghost use Rattle.std.specs.Prelude.{◌≡◌, ◌≢◌, ℕ, List, [], Some, None, IfErr, IfOk, IfSome, false};
ghost use Rattle.small_types.specs.declared.room.Room.{Room};
ghost use Rattle.identity.specs.declared.version.Version.{Version};
ghost use Rattle.identity.specs.Version.{IsBelow};
ghost use Rattle.machine.specs.declared.command.Command.TheVariants as command;
ghost use Rattle.machine.specs.declared.reply.Reply.TheVariants.{Memory};
ghost use Rattle.machine.specs.Machine.{moment_after, refusals};
ghost use Rattle.machine.specs.Minimums.{minimum_of};
ghost use Rattle.machine.specs.Rows.{Refuses};
ghost use Rattle.machine.specs.Store.{Session};
ghost use Rattle.store_state.specs.Tables.{table_shape};
ghost use Rattle.install_plan.specs.Checks.{is_missing};
ghost use Rattle.updater.specs.RollbackStep.{IsRollbackStep, KeepsPrevious};
ghost use Rattle.updater.specs.LaunchStep.{KeepsCurrent};

use identity::{Key, Version};
use machine::Reply;
use store_state::StoreState;

/// The previous view of an application, to which it may go back.
#[derive(Clone, Copy, Debug)]
pub(crate) struct RollbackStep {
    /// The place of the application.
    pub(crate) app: u32,
    /// The version of the view.
    pub(crate) version: Version,
}

// The minimum of the key, where the version is below it.
fn minimum_above(state: &StoreState, key: &Key, version: Version) -> Option<Version>
    ensures some { IfSome result (λ minimum. (minimum_of key.now state.now.apps ≡ Some minimum)
        × IsBelow version minimum) }
    ensures none { result ≡ None → (minimum : Version)
        → minimum_of key.now state.now.apps ≡ Some minimum → ¬ IsBelow version minimum }
{
    let Some(app) = state.entry(key) else {
        return None;
    };
    let Some(minimum) = app.minimum else {
        return None;
    };
    if !version.is_below(&minimum) {
        return None;
    }
    Some(minimum)
}

/// The view to which the application goes back, or the refusal that the tables give, whatever their
/// number of blocks. It takes no memory.
pub(crate) fn rollback_step_of(state: &StoreState, key: &Key) -> Result<RollbackStep, Reply>
    ensures going { IfOk result (IsRollbackStep key.now state.now) }
    ensures refused { KeepsCurrent key.now state.now → KeepsPrevious key.now state.now
        → (now : ℕ) (room : Room) (old : Session) → IfErr result (λ reply. Refuses (refusals now []
        (table_shape room state.now) (command.Rollback key.now)) old reply old) }
    ensures still { (now : ℕ) → IfErr result (λ reply. moment_after now (Some reply) ≡ now) }
    ensures no_target { IfErr result (λ reply. is_missing reply ≡ false) }
    ensures not_memory { IfErr result (λ reply. reply ≢ Memory) }
{
    let Some(_) = state.current(key) else {
        return Err(Reply::NotInstalled);
    };
    let Some(view) = state.previous(key) else {
        return Err(Reply::NoPrevious);
    };
    let Some(place) = state.place(key) else {
        return Err(Reply::NotInstalled);
    };
    let version = view.deployment.identity.version;
    if let Some(minimum) = minimum_above(state, key, version) {
        return Err(Reply::BelowMinimum { minimum });
    }
    Ok(RollbackStep {
        app: place as u32,
        version,
    })
}
