// How much views weigh of which one gets a data file.
ghost use Rattle.std.specs.Prelude.{◌≡◌, ◌==◌, ◌-◌, ◌^◌, All, bytes_eq, min, sum_by, if◌then◌else◌};
ghost use Rattle.machine.specs.BareViews.{with_bare_data};
ghost use Rattle.machine.specs.Weight.{view_weight};
ghost use Rattle.store_state.specs.Change.{IsRow};
ghost use Rattle.store_state.specs.Tables.{bare_row};
ghost use Rattle.table_weight.specs.Weight.{block_cost, local_weight};

use crate::weighs::{Groups, Locals, Views, Weighs, sum_weights, weigh_data, weigh_release};
use small_types::Name;
use store_state::{LocalFile, View};

// Whether the data file has the name.
fn is_named(file: &LocalFile, name: &Name) -> bool
    ensures { result ≡ bytes_eq file.now.name name.now }
{
    file.name.as_bytes() == name.as_bytes()
}

// What the data file weighs, where it has another name.
fn weigh_other(file: &LocalFile, name: &Name) -> u64
    ensures { result ≡ min (if bytes_eq file.now.name name.now then 0
        else local_weight block_cost file.now) (2 ^ 64 - 1) }
{
    if is_named(file, name) {
        return 0;
    }
    Locals::weigh(file)
}

// How much the data files of other names weigh.
fn sum_others(files: &[LocalFile], name: &Name) -> u64
    ensures { result ≡ min (sum_by (λ file. if bytes_eq file.name name.now then 0
        else local_weight block_cost file) files.now) (2 ^ 64 - 1) }
{
    let mut total: u64 = 0;
    for file in files {
        total = total.saturating_add(weigh_other(file, name));
    }
    total
}

// What the view weighs once it has a data file of that name with so many bytes.
fn weigh_put(view: &View, name: &Name, length: u64) -> u64
    requires { IsRow view.now }
    ensures { result ≡ min (view_weight
        (with_bare_data (record { name = name.now; length = length }) (bare_row view.now)))
        (2 ^ 64 - 1) }
{
    weigh_release(&view.deployment, &view.application, &view.base)
        .saturating_add(sum_weights::<Groups>(view.groups.as_slice()))
        .saturating_add(sum_others(view.locals.as_slice(), name))
        .saturating_add(weigh_data(name, length))
}

// The same, where it has that number.
fn weigh_where_put(view: &View, number: u64, name: &Name, length: u64) -> u64
    requires { IsRow view.now }
    ensures { result ≡ min (view_weight (if view.now.number == number
        then with_bare_data (record { name = name.now; length = length }) (bare_row view.now)
        else bare_row view.now)) (2 ^ 64 - 1) }
{
    if view.number == number {
        return weigh_put(view, name, length);
    }
    Views::weigh(view)
}

// How much the views weigh once that of the number has the data file.
pub(crate) fn sum_put(views: &[View], number: u64, name: &Name, length: u64) -> u64
    requires { All IsRow views.now }
    ensures { result ≡ min (sum_by (λ view. view_weight (if view.number == number
        then with_bare_data (record { name = name.now; length = length }) (bare_row view)
        else bare_row view)) views.now) (2 ^ 64 - 1) }
{
    let mut total: u64 = 0;
    for view in views {
        total = total.saturating_add(weigh_where_put(view, number, name, length));
    }
    total
}
