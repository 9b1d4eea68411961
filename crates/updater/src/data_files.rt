// The data files of a leased view.
ghost use Rattle.std.specs.Prelude.{◌≡◌, ℕ, Some, IfErr, IfOk, false};
ghost use Rattle.small_types.specs.declared.room.Room.{Room};
ghost use Rattle.machine.specs.LocalRow.{local_refusals};
ghost use Rattle.machine.specs.Machine.{moment_after};
ghost use Rattle.machine.specs.Rows.{Refuses};
ghost use Rattle.machine.specs.Store.{Session};
ghost use Rattle.store_state.specs.Tables.{table_shape};
ghost use Rattle.install_plan.specs.Checks.{is_missing};
ghost use Rattle.updater.specs.DataFiles.{IsLocalOf, IsRemoval};
ghost use Rattle.updater.specs.Leased.{KeepsView};

use machine::Reply;
use small_types::Name;
use store_state::{LocalFile, StoreState};

/// The data file of that name that the leased view has, or the refusal that the tables give,
/// whatever their number of blocks. It takes no memory.
pub(crate) fn local_of<'a>(
    state: &'a StoreState,
    lease: u64,
    name: &Name,
) -> Result<&'a LocalFile, Reply>
    ensures file { IfOk result (λ file. IsLocalOf lease name.now state.now file.now) }
    ensures refused { KeepsView lease state.now → (room : Room) (old : Session)
        → IfErr result (λ reply. Refuses
        (local_refusals lease name.now (table_shape room state.now)) old reply old) }
    ensures still { (now : ℕ) → IfErr result (λ reply. moment_after now (Some reply) ≡ now) }
    ensures no_target { IfErr result (λ reply. is_missing reply ≡ false) }
{
    let Some(view) = state.leased(lease) else {
        return Err(Reply::NoLease);
    };
    match view.local(name) {
        Some(file) => Ok(file),
        None => Err(Reply::NoFile),
    }
}

/// The number of the leased view, which has a data file of that name, or the refusal that the
/// tables give, whatever their number of blocks. It takes no memory.
pub(crate) fn removal_of(state: &StoreState, lease: u64, name: &Name) -> Result<u64, Reply>
    ensures removal { IfOk result (λ number. IsRemoval lease name.now state.now number) }
    ensures refused { KeepsView lease state.now → (room : Room) (old : Session)
        → IfErr result (λ reply. Refuses
        (local_refusals lease name.now (table_shape room state.now)) old reply old) }
    ensures still { (now : ℕ) → IfErr result (λ reply. moment_after now (Some reply) ≡ now) }
    ensures no_target { IfErr result (λ reply. is_missing reply ≡ false) }
{
    let Some(view) = state.leased(lease) else {
        return Err(Reply::NoLease);
    };
    match view.local(name) {
        Some(_) => Ok(view.number),
        None => Err(Reply::NoFile),
    }
}
