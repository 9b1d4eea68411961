// Writing what installations bring, checks heard, groups and data files.
ghost use Rattle.std.specs.Prelude.{◌<◌, ◌≤◌, ◌^◌, length};
ghost use Rattle.small_types.specs.Name.{IsName};
ghost use Rattle.record_fields.specs.Places.{WritesField};
ghost use Rattle.record_codec.specs.Codec.{group_text, heard_text, install_text, put_text, remove_text};
ghost use Rattle.record_codec.specs.Values.{IsEncodableGroup, IsEncodableCheck, IsEncodableInstall, IsEncodableLocal};

use crate::item_values::ContentField;
use crate::numbers::{GROUP_KIND, HEARD_KIND, INSTALL_KIND, PUT_KIND, REMOVE_KIND};
use crate::view_writers::{write_local, write_view};
use identity::{Key, Version};
use record_fields::{
    VersionField, write_key, write_list, write_name, write_option, write_target, write_text,
    write_u8, write_u64, write_version,
};
use small_types::{Name, Target, Text};
use store_state::{Content, LocalFile, View};

// Writes the installation at the front, the number of its kind and its fields, and answers the
// place behind it.
#[tactic(auto, using(record_fields::proofs::Long::lengths), unfolding(crate::specs::Codec::install_text))]
pub(crate) fn write_install(
    out: &mut [u8],
    view: &View,
    contents: &[Content],
    provider: &Target,
    now: u64,
) -> usize
    requires install { IsEncodableInstall view.now contents.now provider.now now }
    requires room { length (install_text view.now contents.now provider.now now) ≤ length out.old }
    ensures { let text = install_text view.now contents.now provider.now now in
        WritesField out.old 0 text out.new result }
{
    let next = write_u8(out, 0, INSTALL_KIND);
    let next = write_view(out, next, view);
    let next = write_list::<ContentField>(out, next, contents);
    let next = write_target(out, next, provider);
    write_u64(out, next, now)
}

// Writes what a check heard at the front, the number of its kind and its fields, and answers the
// place behind it.
#[tactic(auto, using(record_fields::proofs::Long::lengths), unfolding(crate::specs::Codec::heard_text))]
pub(crate) fn write_heard(
    out: &mut [u8],
    key: &Key,
    version: Version,
    minimum: &Option<Version>,
    now: u64,
) -> usize
    requires heard { IsEncodableCheck key.now version minimum.now now }
    requires room { length (heard_text key.now version minimum.now now) ≤ length out.old }
    ensures { WritesField out.old 0 (heard_text key.now version minimum.now now) out.new result }
{
    let next = write_u8(out, 0, HEARD_KIND);
    let next = write_key(out, next, key);
    let next = write_version(out, next, version);
    let next = write_option::<VersionField>(out, next, minimum);
    write_u64(out, next, now)
}

// Writes the group at the front, the number of its kind and its fields, and answers the place
// behind it.
#[tactic(auto, using(record_fields::proofs::Long::lengths), unfolding(crate::specs::Codec::group_text))]
pub(crate) fn write_group(out: &mut [u8], view: u64, group: &Text, contents: &[Content]) -> usize
    requires group { IsEncodableGroup view group.now contents.now }
    requires room { length (group_text view group.now contents.now) ≤ length out.old }
    ensures { WritesField out.old 0 (group_text view group.now contents.now) out.new result }
{
    let next = write_u8(out, 0, GROUP_KIND);
    let next = write_u64(out, next, view);
    let next = write_text(out, next, group);
    write_list::<ContentField>(out, next, contents)
}

// Writes the data file that comes to the view at the front, the number of its kind and its fields,
// and answers the place behind it.
#[tactic(auto, using(record_fields::proofs::Long::lengths), unfolding(crate::specs::Codec::put_text))]
pub(crate) fn write_put(out: &mut [u8], view: u64, file: &LocalFile) -> usize
    requires file { IsEncodableLocal file.now }
    requires room { length (put_text view file.now) ≤ length out.old }
    ensures { WritesField out.old 0 (put_text view file.now) out.new result }
{
    let next = write_u8(out, 0, PUT_KIND);
    let next = write_u64(out, next, view);
    write_local(out, next, file)
}

// Writes the removal of the data file of the view at the front, the number of its kind and its
// fields, and answers the place behind it.
#[tactic(auto, using(record_fields::proofs::Long::lengths), unfolding(crate::specs::Codec::remove_text))]
pub(crate) fn write_remove(out: &mut [u8], view: u64, name: &Name) -> usize
    requires name { IsName name.now }
    requires room { length (remove_text view name.now) ≤ length out.old }
    ensures { WritesField out.old 0 (remove_text view name.now) out.new result }
{
    let next = write_u8(out, 0, REMOVE_KIND);
    let next = write_u64(out, next, view);
    write_name(out, next, name)
}
