// Numbers in a row.
ghost use Rattle.std.specs.Prelude.{◌≡◌, ◌+◌, ◌-◌, ◌≤◌, ◌++◌, vec_capacity, vec_len, IfOk};
ghost use Rattle.std.specs.List.{range_with_len};

use std::alloc::{AllocError, Global};

// Adds the numbers from one up to another, for which there is room.
pub(crate) fn push_numbers(numbers: &mut Vec<usize>, from: usize, end: usize)
    requires order { from ≤ end }
    requires room { vec_len numbers.old + (end - from) ≤ vec_capacity numbers.old }
    ensures { numbers.new.items ≡ numbers.old.items ++ range_with_len from (end - from) }
{
    for number in from..end {
        let _added = numbers.push(number);
    }
}

// So many numbers, from 0.
pub(crate) fn first_numbers(alloc: Global, count: usize) -> Result<Vec<usize>, AllocError>
    ensures { IfOk result (λ numbers. numbers.items ≡ range_with_len 0 count) }
{
    let mut numbers = Vec::with_capacity(alloc, count)?;
    push_numbers(&mut numbers, 0, count);
    Ok(numbers)
}
