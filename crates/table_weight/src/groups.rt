// How much views and contents weigh where a group comes.
ghost use Rattle.std.specs.Prelude.{◌≡◌, ◌==◌, ◌-◌, ◌^◌, min, slice_get, sum_by, if◌then◌else◌};
ghost use Rattle.machine.specs.BareViews.{with_bare_group};
ghost use Rattle.machine.specs.Weight.{counted, view_weight};
ghost use Rattle.store_state.specs.Tables.{bare_row};
ghost use Rattle.table_weight.specs.Releases.{program_weight};

use crate::counts::{weigh_blocks, weigh_digests};
use crate::weighs::{Groups, Views, Weighs};
use machine::CONTENT_WEIGHT;
use manifests::FileEntry;
use small_types::Text;
use store_state::View;

// What the view weighs, and where it has that number one more group in it.
fn weigh_where_grown(view: &View, number: u64, group: &Text) -> u64
    ensures { result ≡ min (view_weight (if view.now.number == number
        then with_bare_group group.now (bare_row view.now)
        else bare_row view.now)) (2 ^ 64 - 1) }
{
    let known = Views::weigh(view);
    if view.number == number {
        return known.saturating_add(Groups::weigh(group));
    }
    known
}

// How much the views weigh once the group stands in that of the number.
pub(crate) fn sum_grown(views: &[View], number: u64, group: &Text) -> u64
    ensures { result ≡ min (sum_by (λ view. view_weight (if view.number == number
        then with_bare_group group.now (bare_row view)
        else bare_row view)) views.now) (2 ^ 64 - 1) }
{
    let mut total: u64 = 0;
    for view in views {
        total = total.saturating_add(weigh_where_grown(view, number, group));
    }
    total
}

// ---- files whose bytes come

// What the content of the file weighs, where it is a program file.
#[tactic(auto, unfolding(machine::specs::Weight::content_weight))]
fn weigh_program(entry: &FileEntry) -> u64
    ensures { result ≡ min (program_weight entry.now) (2 ^ 64 - 1) }
{
    if entry.local {
        return 0;
    }
    CONTENT_WEIGHT
        .saturating_add(weigh_digests(&entry.list))
        .saturating_add(weigh_blocks(entry.size))
}

// The same of the file at the place.
fn weigh_at(files: &[FileEntry], place: usize) -> u64
    ensures { result ≡ min (counted program_weight (slice_get files.now place)) (2 ^ 64 - 1) }
{
    match files.get(place) {
        Some(entry) => weigh_program(entry),
        None => 0,
    }
}

// How much the contents of the files at the places weigh.
pub(crate) fn sum_programs(files: &[FileEntry], places: &[usize]) -> u64
    ensures { result ≡ min (sum_by (λ place. counted program_weight (slice_get files.now place))
        places.now) (2 ^ 64 - 1) }
{
    let mut total: u64 = 0;
    for place in places {
        total = total.saturating_add(weigh_at(files, *place));
    }
    total
}
