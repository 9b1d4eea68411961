// What skipping the offer of an application comes to.
ghost use Rattle.std.specs.Prelude.{◌≡◌, ◌≢◌, ◌↔◌, ℕ, List, [], Some, IfErr, IfOk, IsTrue, false};
ghost use Rattle.small_types.specs.declared.room.Room.{Room};
ghost use Rattle.machine.specs.declared.command.Command.TheVariants as command;
ghost use Rattle.machine.specs.declared.reply.Reply.TheVariants.{Memory};
ghost use Rattle.machine.specs.Machine.{moment_after, refusals};
ghost use Rattle.machine.specs.Rows.{Refuses};
ghost use Rattle.machine.specs.Store.{Session};
ghost use Rattle.store_state.specs.Tables.{table_shape};
ghost use Rattle.install_plan.specs.Checks.{is_missing};
ghost use Rattle.updater.specs.SkipStep.{IsSkipStep, minimum_in};
ghost use Rattle.updater.specs.LaunchStep.{KeepsCurrent};

use identity::{Key, Version};
use machine::{AppState, Due, Reply};
use store_state::StoreState;
use subscription::due;

/// An offer that the user does not want.
#[derive(Clone, Copy, Debug)]
pub(crate) struct SkipStep {
    /// The place of the application.
    pub(crate) app: u32,
    /// The version that is offered.
    pub(crate) offer: Version,
    /// Whether it is skipped already.
    pub(crate) stands: bool,
}

// The minimum that the current version is below, where it is.
fn minimum_in(due: Due) -> Option<Version>
    ensures { result ≡ minimum_in due }
{
    match due {
        Due::Required { minimum } => Some(minimum),
        Due::CheckFirst | Due::Offered { .. } | Due::Clear { .. } => None,
    }
}

// Whether what is offered is skipped.
fn is_skipped(app: &AppState) -> bool
    ensures { IsTrue result ↔ app.now.skipped ≡ app.now.offer }
{
    app.skipped == app.offer
}

/// The offer that a skip of the application at a moment declines, or the refusal that the tables
/// give, whatever their number of blocks. It takes no memory.
pub(crate) fn skip_step_of(state: &StoreState, key: &Key, now: u64) -> Result<SkipStep, Reply>
    ensures skipping { IfOk result (IsSkipStep key.now now state.now) }
    ensures refused { KeepsCurrent key.now state.now → (room : Room) (old : Session)
        → IfErr result (λ reply. Refuses (refusals now [] (table_shape room state.now)
        (command.Skip key.now)) old reply old) }
    ensures still { IfErr result (λ reply. moment_after now (Some reply) ≡ now) }
    ensures no_target { IfErr result (λ reply. is_missing reply ≡ false) }
    ensures not_memory { IfErr result (λ reply. reply ≢ Memory) }
{
    let Some(_) = state.current(key) else {
        return Err(Reply::NotInstalled);
    };
    let Some(place) = state.place(key) else {
        return Err(Reply::NotInstalled);
    };
    let Some(app) = state.entry(key) else {
        return Err(Reply::NotInstalled);
    };
    if let Some(minimum) = minimum_in(due(state, key, now)) {
        return Err(Reply::Required { minimum });
    }
    match app.offer {
        Some(offer) => Ok(SkipStep {
            app: place as u32,
            offer,
            stands: is_skipped(app),
        }),
        None => Err(Reply::NothingOffered),
    }
}
