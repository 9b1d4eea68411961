// Reading lists, from the left. The number of the items is only counted down: memory is taken for
// what was read.
ghost use Rattle.std.specs.Prelude.{◌≤◌, ℕ, List, length, IfOk, IfErr};
ghost use Rattle.record_fields.specs.Readers.{Gives, IsFaultWithin, text_at};
ghost use Rattle.record_fields.specs.Parts.{Reader, items_at, list_at, list_of};
ghost use Rattle.record_fields.specs.Reads.{ReadsField};

use crate::CodecFault;
use crate::field_readers::{bad, text_here, u32_here};
use crate::item_values::TextField;
use small_types::limits::NAME_LIMIT;
use small_types::{List, Text};
use std::alloc::Global;

/// How the values of a list are read.
pub trait Readable {
    /// What the list holds.
    type Value: Drop + Sized;

    // How it is spelled.
    ghost field: { Self.Value → List ℕ };

    // Which values can be.
    ghost fits: { Self.Value → Type 0 };

    // How it is read.
    ghost at: { Reader Self.Value };

    /// The value at the place, and the place behind it.
    fn read_here(
        alloc: Global,
        bytes: &[u8],
        place: usize,
    ) -> Result<(Self::Value, usize), CodecFault>
        requires { place ≤ length bytes.now }
        ensures exact { Gives result (at bytes.now place) }
        ensures next { IfOk result (λ x. x.1 ≤ length bytes.now) }
        ensures fault { IfErr result (IsFaultWithin (length bytes.now)) };

    /// A law: it is read just where it is spelled.
    fn reads_as_spelled()
        ensures { ReadsField fits field at };
}

// So many items from the place on, each behind the one before it.
fn items_here<T: Readable>(
    alloc: Global,
    bytes: &[u8],
    place: usize,
    count: usize,
) -> Result<(List<T::Value>, usize), CodecFault>
    requires { place ≤ length bytes.now }
    ensures exact { Gives result (items_at T.at count bytes.now place) }
    ensures next { IfOk result (λ x. x.1 ≤ length bytes.now) }
    ensures fault { IfErr result (IsFaultWithin (length bytes.now)) }
{
    let mut items = Vec::new(alloc);
    let mut next = place;
    let mut left = count;
    while left > 0 {
        let (item, behind) = T::read_here(alloc, bytes, next)?;
        items.push(item)?;
        next = behind;
        left -= 1;
    }
    Ok((List::from_vec(items), next))
}

// So many items from the start on, which belong to the field at the place.
fn counted_here<T: Readable>(
    alloc: Global,
    bytes: &[u8],
    place: usize,
    limit: usize,
    count: usize,
    start: usize,
) -> Result<(List<T::Value>, usize), CodecFault>
    requires place { place ≤ length bytes.now }
    requires start { start ≤ length bytes.now }
    ensures exact { Gives result (list_of limit T.at place count bytes.now start) }
    ensures next { IfOk result (λ x. x.1 ≤ length bytes.now) }
    ensures fault { IfErr result (IsFaultWithin (length bytes.now)) }
{
    if limit < count {
        return Err(bad(place));
    }
    items_here::<T>(alloc, bytes, start, count)
}

// The list at the place, behind the number of its items, at most the limit, and the place behind
// it.
#[tactic(auto, unfolding(crate::specs::Parts::list_at))]
pub(crate) fn list_here<T: Readable>(
    alloc: Global,
    bytes: &[u8],
    place: usize,
    limit: usize,
) -> Result<(List<T::Value>, usize), CodecFault>
    requires { place ≤ length bytes.now }
    ensures exact { Gives result (list_at limit T.at bytes.now place) }
    ensures next { IfOk result (λ x. x.1 ≤ length bytes.now) }
    ensures fault { IfErr result (IsFaultWithin (length bytes.now)) }
{
    let (count, start) = u32_here(bytes, place)?;
    counted_here::<T>(alloc, bytes, place, limit, count as usize, start)
}

impl Readable for TextField {
    type Value = Text;

    ghost use Rattle.small_types.specs.declared.limits.TheConstants.{NAME_LIMIT};
    ghost use Rattle.small_types.specs.Short.{IsShort};
    ghost use Rattle.record_fields.specs.Fields.{text_field};
    ghost use Rattle.record_fields.specs.Readers.{text_at};

    ghost field = { text_field };

    ghost fits = { IsShort NAME_LIMIT };

    ghost at = { text_at NAME_LIMIT };

    fn read_here(alloc: Global, bytes: &[u8], place: usize) -> Result<(Text, usize), CodecFault> {
        text_here(alloc, bytes, place, NAME_LIMIT)
    }

    fn reads_as_spelled() {}
}
