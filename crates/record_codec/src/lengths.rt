// How many bytes views, their files and changes take.
ghost use Rattle.std.specs.Prelude.{◌≡◌, ◌<◌, ◌^◌, length};
ghost use Rattle.record_codec.specs.Codec.{group_text, heard_text, install_text};
ghost use Rattle.record_codec.specs.Spelled.{content_field, local_field, view_field};

use crate::item_values::{BlockField, ContentField, LocalField};
use identity::{Key, Version};
use record_fields::{
    TextField, VersionField, application_length, deployment_length, digests_length, key_length,
    list_length, name_length, option_length, target_length, text_length,
};
use small_types::{Target, Text};
use store_state::{Content, LocalFile, View};

#[tactic(auto, using(record_fields::proofs::Long::lengths), unfolding(crate::specs::Spelled::content_field))]
pub(crate) fn content_length(content: &Content) -> u64
    requires { length (content_field content.now) < 2 ^ 63 }
    ensures { result ≡ length (content_field content.now) }
{
    8 + digests_length(&content.list) + list_length::<BlockField>(content.held.as_slice())
}

#[tactic(auto, using(record_fields::proofs::Long::lengths), unfolding(crate::specs::Spelled::local_field))]
pub(crate) fn local_length(local: &LocalFile) -> u64
    requires { length (local_field local.now) < 2 ^ 63 }
    ensures { result ≡ length (local_field local.now) }
{
    name_length(&local.name) + 8 + list_length::<BlockField>(local.held.as_slice())
}

/// How many bytes a view takes.
#[tactic(auto, using(record_fields::proofs::Long::lengths), unfolding(crate::specs::Spelled::view_field))]
pub fn view_length(view: &View) -> u64
    requires { length (view_field view.now) < 2 ^ 63 }
    ensures { result ≡ length (view_field view.now) }
{
    8 + deployment_length(&view.deployment)
        + application_length(&view.application)
        + target_length(&view.base)
        + list_length::<TextField>(view.groups.as_slice())
        + list_length::<LocalField>(view.locals.as_slice())
}

#[tactic(auto, using(record_fields::proofs::Long::lengths), unfolding(crate::specs::Codec::install_text))]
pub(crate) fn install_length(view: &View, contents: &[Content], provider: &Target) -> u64
    requires { length (install_text view.now contents.now provider.now 0) < 2 ^ 63 }
    ensures { result ≡ length (install_text view.now contents.now provider.now 0) }
{
    1 + view_length(view) + list_length::<ContentField>(contents) + target_length(provider) + 8
}

#[tactic(auto, using(record_fields::proofs::Long::lengths), unfolding(crate::specs::Codec::heard_text))]
pub(crate) fn heard_length(key: &Key, version: Version, minimum: &Option<Version>) -> u64
    requires { length (heard_text key.now version minimum.now 0) < 2 ^ 63 }
    ensures { result ≡ length (heard_text key.now version minimum.now 0) }
{
    1 + key_length(key) + 8 + option_length::<VersionField>(minimum) + 8
}

#[tactic(auto, using(record_fields::proofs::Long::lengths), unfolding(crate::specs::Codec::group_text))]
pub(crate) fn group_length(group: &Text, contents: &[Content]) -> u64
    requires { length (group_text 0 group.now contents.now) < 2 ^ 63 }
    ensures { result ≡ length (group_text 0 group.now contents.now) }
{
    1 + 8 + text_length(group) + list_length::<ContentField>(contents)
}
