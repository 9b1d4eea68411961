// The content of elements.
ghost use Rattle.std.specs.Prelude.{◌≡◌, ◌<◌, ◌≤◌, ◌+◌, ◌^◌, ◌∷◌, length, IfOk, None};
ghost use Rattle.manifest_tree.specs.Lexis.{aside as aside_at};
ghost use Rattle.manifest_tree.specs.Spots.{inside};
ghost use Rattle.manifest_tree.specs.Outcome.{Leads};
ghost use Rattle.manifest_tree.specs.Pieces.{open_tree, below_of, spot_of};

use crate::fault::{Stop, TreeKind};
use crate::open_element::{Position, Stack, add_text, close, start};
use crate::scan::{aside, fault, has_name};
use crate::tag::{end_tag, read_tag};
use crate::units::read_data;
use small_types::limits::LEVEL_LIMIT;
use std::alloc::Global;

// A start tag or an end tag behind its `<`.
fn read_element(alloc: Global, stack: Stack, bytes: &[u8]) -> Result<(Position, &[u8]), Stop>
    requires small { length bytes.now < 2 ^ 32 }
    requires no_aside { aside_at bytes.now ≡ Ok None }
    ensures leads { Leads (λ x. (spot_of x.0, x.1.now))
        (inside (open_tree stack.top) (below_of stack)) (60 ∷ bytes.now) result }
    ensures shorter { IfOk result (λ x. length x.1.now < length bytes.now) }
{
    let Some((first, tail)) = bytes.split_first() else {
        return fault(TreeKind::Syntax, bytes);
    };
    if *first == b'/' {
        let rest = end_tag(tail, stack.top.name.as_bytes(), bytes.len() + 1)?;
        let position = close(stack)?;
        return Ok((position, rest));
    }
    if !has_name(bytes) {
        return fault(TreeKind::Syntax, bytes);
    }
    if stack.below.len() >= LEVEL_LIMIT - 1 {
        return Err(Stop::Fault {
            kind: TreeKind::TooDeep,
            left: bytes.len() + 1,
        });
    }
    let (tag, rest) = read_tag(alloc, bytes)?;
    let position = start(alloc, Some(stack), tag)?;
    Ok((position, rest))
}

// One markup behind its `<`.
fn read_markup(alloc: Global, stack: Stack, bytes: &[u8]) -> Result<(Position, &[u8]), Stop>
    requires { length bytes.now < 2 ^ 32 }
    ensures leads { Leads (λ x. (spot_of x.0, x.1.now))
        (inside (open_tree stack.top) (below_of stack)) (60 ∷ bytes.now) result }
    ensures shorter { IfOk result (λ x. length x.1.now ≤ length bytes.now) }
{
    match aside(bytes)? {
        Some(rest) => Ok((Position::Inside(stack), rest)),
        None => read_element(alloc, stack, bytes),
    }
}

// Character data and one markup.
pub(crate) fn read_turn(
    alloc: Global,
    stack: Stack,
    bytes: &[u8],
) -> Result<(Position, &[u8]), Stop>
    requires { length bytes.now < 2 ^ 32 }
    ensures leads { Leads (λ x. (spot_of x.0, x.1.now))
        (inside (open_tree stack.top) (below_of stack)) bytes.now result }
    ensures shorter { IfOk result (λ x. length x.1.now < length bytes.now) }
{
    let (run, markup) = read_data(alloc, bytes)?;
    let stack = add_text(stack, run)?;
    read_markup(alloc, stack, markup)
}
