// Writing views and their files.
ghost use Rattle.std.specs.Prelude.{◌≡◌, ◌+◌, ◌<◌, ◌≤◌, ◌^◌, length};
ghost use Rattle.record_codec.specs.declared.numbers.TheConstants.{COUNT_LIMIT};
ghost use Rattle.record_fields.specs.Places.{WritesField};
ghost use Rattle.record_codec.specs.Spelled.{content_field, local_field, view_field};
ghost use Rattle.record_codec.specs.Values.{IsEncodableContent, IsEncodableLocal, IsEncodableView};

use crate::item_values::{BlockField, LocalField};
use record_fields::{
    TextField, write_application, write_deployment, write_digests, write_list, write_name,
    write_target, write_u64,
};
use store_state::{Content, LocalFile, View};

/// Writes the content at the place, its length, its digests and the numbers of its blocks, and
/// answers the place behind it.
#[tactic(auto, using(record_fields::proofs::Long::lengths), unfolding(crate::specs::Spelled::content_field))]
pub fn write_content(out: &mut [u8], place: usize, content: &Content) -> usize
    requires content { IsEncodableContent content.now }
    requires room { place + length (content_field content.now) ≤ length out.old }
    ensures { WritesField out.old place (content_field content.now) out.new result }
{
    let next = write_u64(out, place, content.size);
    let next = write_digests(out, next, &content.list);
    write_list::<BlockField>(out, next, content.held.as_slice())
}

/// Writes the data file at the place, its name, its length and the numbers of its blocks, and
/// answers the place behind it.
#[tactic(auto, using(record_fields::proofs::Long::lengths), unfolding(crate::specs::Spelled::local_field))]
pub fn write_local(out: &mut [u8], place: usize, local: &LocalFile) -> usize
    requires local { IsEncodableLocal local.now }
    requires room { place + length (local_field local.now) ≤ length out.old }
    ensures { WritesField out.old place (local_field local.now) out.new result }
{
    let next = write_name(out, place, &local.name);
    let next = write_u64(out, next, local.length);
    write_list::<BlockField>(out, next, local.held.as_slice())
}

/// Writes the view at the place, its fields in their order, and answers the place behind it.
#[tactic(auto, using(record_fields::proofs::Long::lengths), unfolding(crate::specs::Spelled::view_field))]
pub fn write_view(out: &mut [u8], place: usize, view: &View) -> usize
    requires view { IsEncodableView COUNT_LIMIT view.now }
    requires room { place + length (view_field view.now) ≤ length out.old }
    ensures { WritesField out.old place (view_field view.now) out.new result }
{
    let next = write_u64(out, place, view.number);
    let next = write_deployment(out, next, &view.deployment);
    let next = write_application(out, next, &view.application);
    let next = write_target(out, next, &view.base);
    let next = write_list::<TextField>(out, next, view.groups.as_slice());
    write_list::<LocalField>(out, next, view.locals.as_slice())
}
