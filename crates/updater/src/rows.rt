// What is shown of applications. How many blocks there are plays no part.
ghost use Rattle.std.specs.Prelude.{◌≡◌, ◌++◌, ◌∷◌, [], map, option_map, IfOk, OnOk};
ghost use Rattle.machine.specs.ListRow.{list_row};
ghost use Rattle.machine.specs.Previous.{numbered_bare, numbered_version};
ghost use Rattle.machine.specs.ShowRow.{show_row};
ghost use Rattle.machine.specs.Store.{plain_room};
ghost use Rattle.store_state.specs.Tables.{table_shape};

use identity::Version;
use machine::{AppState, ListRow, ShowRow};
use small_types::{CopyFault, Duplicate, List, Text};
use std::alloc::Global;
use store_state::StoreState;

// The version of the view of that number, where there is one.
fn version_of(state: &StoreState, number: Option<u64>) -> Option<Version>
    ensures { result ≡ numbered_version number (table_shape (plain_room 0) state.now) }
{
    match state.numbered(number) {
        Some(view) => Some(view.deployment.identity.version),
        None => None,
    }
}

// The file that the view of that number starts, where there is one.
fn entry_of(
    alloc: Global,
    state: &StoreState,
    number: Option<u64>,
) -> Result<Option<Text>, CopyFault>
    ensures { IfOk result (λ entry. entry ≡ option_map (λ view. view.application.entry)
        (numbered_bare number (table_shape (plain_room 0) state.now))) }
{
    match state.numbered(number) {
        Some(view) => Ok(Some(view.application.entry.copy(alloc)?)),
        None => Ok(None),
    }
}

// The application as a list shows it.
fn list_row(alloc: Global, state: &StoreState, app: &AppState) -> Result<ListRow, CopyFault>
    ensures { IfOk result (λ row. row ≡ list_row (table_shape (plain_room 0) state.now) app.now) }
{
    let key = app.key.copy(alloc)?;
    let current = version_of(state, app.current);
    Ok(ListRow { key, current })
}

// Adds the application to the rows.
fn add_row(
    alloc: Global,
    rows: &mut Vec<ListRow>,
    state: &StoreState,
    app: &AppState,
) -> Result<(), CopyFault>
    ensures { OnOk result (rows.new.items
        ≡ rows.old.items ++ list_row (table_shape (plain_room 0) state.now) app.now ∷ []) }
{
    rows.push(list_row(alloc, state, app)?)?;
    Ok(())
}

// Rows for these applications, in their order.
fn rows_of(alloc: Global, state: &StoreState, apps: &[AppState]) -> Result<Vec<ListRow>, CopyFault>
    ensures { IfOk result (λ rows. rows.items
        ≡ map (list_row (table_shape (plain_room 0) state.now)) apps.now) }
{
    let mut rows = Vec::new(alloc);
    for app in apps {
        add_row(alloc, &mut rows, state, app)?;
    }
    Ok(rows)
}

/// The applications as a list shows them, in order of their printed keys. It fails only for want of
/// memory.
pub(crate) fn list_rows(alloc: Global, state: &StoreState) -> Result<List<ListRow>, CopyFault>
    ensures { IfOk result (λ rows. rows
        ≡ map (list_row (table_shape (plain_room 0) state.now)) state.now.apps) }
{
    let rows = rows_of(alloc, state, state.apps.as_slice())?;
    Ok(List::from_vec(rows))
}

/// What is known of the application. It fails only for want of memory.
pub(crate) fn show_row(
    alloc: Global,
    state: &StoreState,
    app: &AppState,
) -> Result<ShowRow, CopyFault>
    ensures { IfOk result (λ row. row ≡ show_row (table_shape (plain_room 0) state.now) app.now) }
{
    let key = app.key.copy(alloc)?;
    let entry = entry_of(alloc, state, app.current)?;
    let provider = app.provider.copy(alloc)?;
    Ok(ShowRow {
        key,
        current: version_of(state, app.current),
        previous: version_of(state, app.previous),
        minimum: app.minimum,
        offer: app.offer,
        skipped: app.skipped,
        excluded: app.excluded,
        last_check: app.last_check,
        checked: app.checked,
        entry,
        provider,
    })
}
