// What is counted and found in views.
ghost use Rattle.std.specs.Prelude.{◌≡◌, ◌<◌, ◌≤◌, ◌+◌, ◌-◌, ◌^◌, ℕ, length, map, min, flat_map, sum_by, AllPairs};
ghost use Rattle.std.specs.List.Sorted.{IsBinarySearchResult, IsSearchInRange};
ghost use Rattle.std.specs.Option.{option_copied};
ghost use Rattle.std.specs.Ordering.{nat_cmp};
ghost use Rattle.small_types.specs.declared.limits.TheConstants as limits;
ghost use Rattle.machine.specs.Blocks.{blocks_of};
ghost use Rattle.store_state.specs.Rows.{listed_files, row_at};

use crate::{LocalFile, View};
use small_types::limits::BLOCK_SIZE;

// Where the view of that number stands among views in order, or where it would go.
pub(crate) fn place_of_view(views: &[View], number: u64) -> Result<usize, usize>
    ensures range { IsSearchInRange result (length views.now) }
    ensures found { IsBinarySearchResult (λ view. nat_cmp view.number number) views.now result }
{
    views.binary_search_by(|view| view.number.cmp(&number))
}

// The view of that number among views in order.
pub(crate) fn find_view(views: &[View], number: u64) -> Option<&View>
    requires { AllPairs (λ (m n : ℕ). m < n) (map (λ view. view.number) views.now) }
    ensures { option_copied result ≡ row_at number views.now }
{
    match place_of_view(views, number) {
        Ok(place) => Some(&views[place]),
        Err(_) => None,
    }
}

// How many files they list.
pub(crate) fn sum_files(views: &[View]) -> usize
    requires { listed_files views.now ≤ limits.FILE_COUNT_LIMIT }
    ensures { result ≡ listed_files views.now }
{
    let mut count = 0;
    for view in views {
        count += view.application.files.as_slice().len();
    }
    count
}

// The blocks of so many bytes.
pub(crate) fn blocks_of(bytes: u64) -> u64
    ensures { result ≡ blocks_of bytes }
{
    let block = BLOCK_SIZE as u64;
    if bytes % block == 0 {
        bytes / block
    } else {
        bytes / block + 1
    }
}

// The sum and the blocks of the files, as far as a number goes.
fn add_blocks(sum: u64, files: &[LocalFile]) -> u64
    ensures { result ≡ min (sum + sum_by (λ file. blocks_of file.length) files.now) (2 ^ 64 - 1) }
{
    let mut total = sum;
    for file in files {
        total = total.saturating_add(blocks_of(file.length));
    }
    total
}

// The sum and the blocks of all data files of the views, as far as a number goes.
pub(crate) fn add_views(sum: u64, views: &[View]) -> u64
    ensures { result
        ≡ min (sum + sum_by (λ file. blocks_of file.length)
        (flat_map (λ view. view.locals) views.now)) (2 ^ 64 - 1) }
{
    let mut total = sum;
    for view in views {
        total = add_blocks(total, view.locals.as_slice());
    }
    total
}
