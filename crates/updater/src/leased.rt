// What is read of a leased view.
ghost use Rattle.std.specs.Prelude.{◌≡◌, ℕ, [], Some, IfErr, IfOk, false};
ghost use Rattle.small_types.specs.declared.room.Room.{Room};
ghost use Rattle.machine.specs.declared.command.Command.TheVariants as command;
ghost use Rattle.machine.specs.Machine.{moment_after, refusals};
ghost use Rattle.machine.specs.Rows.{Refuses};
ghost use Rattle.machine.specs.Store.{Session};
ghost use Rattle.store_state.specs.Tables.{table_shape};
ghost use Rattle.install_plan.specs.Checks.{is_missing};
ghost use Rattle.updater.specs.Leased.{IsLeasedFile, KeepsView};

use machine::Reply;
use small_types::Name;
use store_state::{Content, StoreState};

/// The content of the program file of that name that stands in the leased view, or the refusal that
/// the tables give, whatever their number of blocks. It takes no memory.
pub(crate) fn leased_file<'a>(
    state: &'a StoreState,
    lease: u64,
    name: &Name,
) -> Result<&'a Content, Reply>
    ensures file { IfOk result (λ content. IsLeasedFile lease name.now state.now content.now) }
    ensures refused { KeepsView lease state.now
        → (now : ℕ) (room : Room) (from count : ℕ) (old : Session)
        → IfErr result (λ reply. Refuses (refusals now [] (table_shape room state.now)
        (command.Read lease name.now from count)) old reply old) }
    ensures still { (now : ℕ) → IfErr result (λ reply. moment_after now (Some reply) ≡ now) }
    ensures no_target { IfErr result (λ reply. is_missing reply ≡ false) }
{
    state.are_tables();
    let Some(lease) = state.lease(lease) else {
        return Err(Reply::NoLease);
    };
    match state.file(lease.view, name) {
        Some(content) => Ok(content),
        None => Err(Reply::NoFile),
    }
}
