// What launching an application comes to.
ghost use Rattle.std.specs.Prelude.{◌≡◌, ◌≢◌, ℕ, List, [], Some, IfErr, IfOk, false};
ghost use Rattle.small_types.specs.declared.room.Room.{Room};
ghost use Rattle.machine.specs.declared.command.Command.TheVariants as command;
ghost use Rattle.machine.specs.declared.reply.Reply.TheVariants.{Memory};
ghost use Rattle.machine.specs.Machine.{moment_after, refusals};
ghost use Rattle.machine.specs.Rows.{Refuses};
ghost use Rattle.machine.specs.Store.{Session};
ghost use Rattle.store_state.specs.Tables.{table_shape};
ghost use Rattle.install_plan.specs.Checks.{is_missing};
ghost use Rattle.updater.specs.LaunchStep.{IsLaunchStep, KeepsCurrent, cleared, lease_reply};

use identity::{Key, Version};
use leases::{LeaseFault, check_room};
use machine::{Due, Reply};
use store_state::StoreState;
use subscription::due;

/// A lease that may be given on the current view of an application.
#[derive(Clone, Copy, Debug)]
pub(crate) struct LaunchStep {
    /// The place of the application.
    pub(crate) app: u32,
    /// The number of the lease.
    pub(crate) lease: u64,
    /// The version of the view.
    pub(crate) version: Version,
    /// Whether the time for the next check has come.
    pub(crate) check_due: bool,
}

// Whether a check is due where nothing stands before the start, or the refusal.
fn cleared(due: Due) -> Result<bool, Reply>
    ensures { result ≡ cleared due }
{
    match due {
        Due::Required { minimum } => Err(Reply::Required { minimum }),
        Due::CheckFirst => Err(Reply::CheckFirst),
        Due::Offered { version } => Err(Reply::Offered { version }),
        Due::Clear { check_due } => Ok(check_due),
    }
}

// The refusal where no lease is given.
fn lease_reply(fault: LeaseFault) -> Reply
    ensures { result ≡ lease_reply fault }
{
    match fault {
        LeaseFault::LeasesFull => Reply::LeasesFull,
        LeaseFault::Spent { next } => Reply::Spent { next },
        LeaseFault::NoLease => Reply::NoLease,
    }
}

/// The lease that launching the application at a moment gives, or the refusal that the tables give,
/// whatever their number of blocks. It takes no memory.
pub(crate) fn launch_step_of(state: &StoreState, key: &Key, now: u64) -> Result<LaunchStep, Reply>
    ensures start { IfOk result (IsLaunchStep key.now now state.now) }
    ensures refused { KeepsCurrent key.now state.now → (room : Room) (old : Session)
        → IfErr result (λ reply. Refuses (refusals now [] (table_shape room state.now)
        (command.Launch key.now)) old reply old) }
    ensures still { IfErr result (λ reply. moment_after now (Some reply) ≡ now) }
    ensures no_target { IfErr result (λ reply. is_missing reply ≡ false) }
    ensures not_memory { IfErr result (λ reply. reply ≢ Memory) }
{
    let Some(view) = state.current(key) else {
        return Err(Reply::NotInstalled);
    };
    let Some(place) = state.place(key) else {
        return Err(Reply::NotInstalled);
    };
    let check_due = match cleared(due(state, key, now)) {
        Ok(check_due) => check_due,
        Err(reply) => return Err(reply),
    };
    if let Err(fault) = check_room(state) {
        return Err(lease_reply(fault));
    }
    Ok(LaunchStep {
        app: place as u32,
        lease: state.next_lease,
        version: view.deployment.identity.version,
        check_due,
    })
}
