// Views and their files. What is read at a place is within its limits, and stands there as it is
// spelled; a value within its limits that stands there is read, unless memory runs out.
ghost use Rattle.std.specs.Prelude.{◌<◌, ◌≤◌, ◌^◌, ℕ, length, Ok, IfOk, IfErr};
ghost use Rattle.store_state.specs.declared.view.Content.{Content};
ghost use Rattle.store_state.specs.declared.view.LocalFile.{LocalFile};
ghost use Rattle.store_state.specs.declared.view.View.{View};
ghost use Rattle.record_fields.specs.Places.{Stands};
ghost use Rattle.record_fields.specs.Readers.{Gives, IsFaultWithin};
ghost use Rattle.record_codec.specs.Spelled.{content_field, local_field, view_field};
ghost use Rattle.record_codec.specs.Values.{IsEncodableContent, IsEncodableLocal, IsEncodableView};
ghost use Rattle.record_codec.specs.Records.{content_at, local_at, view_at};

use crate::item_values::{ContentField, LocalField};
use crate::view_readers::view_here;
use record_fields::{CodecFault, Readable};
use std::alloc::Global;
use store_state::{Content, LocalFile, View};

/// The content at the place, and the place behind it.
/// The fault is that of the first field that cannot be read.
pub fn read_content(
    alloc: Global,
    bytes: &[u8],
    place: usize,
) -> Result<(Content, usize), CodecFault>
    requires { place ≤ length bytes.now }
    ensures found { IfOk result (λ x. Stands bytes.now place (content_field x.0) x.1
        × IsEncodableContent x.0) }
    ensures only { (x : Content) (next : ℕ) → IsEncodableContent x
        → Stands bytes.now place (content_field x) next → Gives result (Ok (x, next)) }
    ensures exact { Gives result (content_at bytes.now place) }
    ensures next { IfOk result (λ x. x.1 ≤ length bytes.now) }
    ensures fault { IfErr result (IsFaultWithin (length bytes.now)) }
{
    ContentField::read_here(alloc, bytes, place)
}

/// The data file at the place, and the place behind it.
/// The fault is that of the first field that cannot be read.
pub fn read_local(
    alloc: Global,
    bytes: &[u8],
    place: usize,
) -> Result<(LocalFile, usize), CodecFault>
    requires { place ≤ length bytes.now }
    ensures found { IfOk result (λ x. Stands bytes.now place (local_field x.0) x.1
        × IsEncodableLocal x.0) }
    ensures only { (x : LocalFile) (next : ℕ) → IsEncodableLocal x
        → Stands bytes.now place (local_field x) next → Gives result (Ok (x, next)) }
    ensures exact { Gives result (local_at bytes.now place) }
    ensures next { IfOk result (λ x. x.1 ≤ length bytes.now) }
    ensures fault { IfErr result (IsFaultWithin (length bytes.now)) }
{
    LocalField::read_here(alloc, bytes, place)
}

/// The view at the place, with at most so many groups and so many data files, and the place behind
/// it. The fault is that of the first field that cannot be read.
pub fn read_view(
    alloc: Global,
    bytes: &[u8],
    place: usize,
    most: usize,
) -> Result<(View, usize), CodecFault>
    requires place { place ≤ length bytes.now }
    requires count { most < 2 ^ 32 }
    ensures found { IfOk result (λ x. Stands bytes.now place (view_field x.0) x.1
        × IsEncodableView most x.0) }
    ensures only { (x : View) (next : ℕ) → IsEncodableView most x
        → Stands bytes.now place (view_field x) next → Gives result (Ok (x, next)) }
    ensures exact { Gives result (view_at most bytes.now place) }
    ensures next { IfOk result (λ x. x.1 ≤ length bytes.now) }
    ensures fault { IfErr result (IsFaultWithin (length bytes.now)) }
{
    view_here(alloc, bytes, place, most)
}
