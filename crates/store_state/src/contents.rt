// What is counted in contents.
ghost use Rattle.std.specs.Prelude.{◌≡◌, ◌-◌, ◌^◌, min, sum_by};
ghost use Rattle.machine.specs.Blocks.{blocks_of};

use crate::Content;
use crate::views::blocks_of;

// The blocks of the contents, as far as a number goes.
pub(crate) fn sum_blocks(contents: &[Content]) -> u64
    ensures { result ≡ min (sum_by (λ content. blocks_of content.size) contents.now) (2 ^ 64 - 1) }
{
    let mut sum: u64 = 0;
    for content in contents {
        sum = sum.saturating_add(blocks_of(content.size));
    }
    sum
}
