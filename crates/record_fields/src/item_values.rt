// The values that lists and options hold.
ghost use Rattle.std.specs.Prelude.{◌<◌, ◌^◌, length};
ghost use Rattle.digest_list.specs.Digest.{IsSized};
ghost use Rattle.record_fields.specs.Fields.{text_field, version_field};
ghost use Rattle.record_fields.specs.Spelled.{digest_field, entry_field};
ghost use Rattle.record_fields.specs.Values.{IsEncodableEntry};

use crate::field_writers::{write_text, write_version};
use crate::item::Item;
use crate::lengths::{digest_length, entry_length, text_length};
use crate::manifest_writers::{write_digest, write_entry};
use digest_list::Digest;
use identity::Version;
use manifests::FileEntry;
use small_types::Text;

/// How texts stand in lists and options. Those of a list are read of at most 240 bytes each.
pub struct TextField;

#[tactic(auto, using(crate::proofs::Long::lengths))]
impl Item for TextField {
    type Value = Text;

    ghost field = { text_field };

    ghost fits = { λ t. length t < 2 ^ 32 };

    fn item_length(value: &Text) -> u64 {
        text_length(value)
    }

    fn write_item(out: &mut [u8], place: usize, value: &Text) -> usize {
        write_text(out, place, value)
    }
}

/// How versions stand in options.
pub struct VersionField;

#[tactic(auto, using(crate::proofs::Long::lengths))]
impl Item for VersionField {
    type Value = Version;

    ghost field = { version_field };

    ghost fits = { λ _. Unit {0} };

    fn item_length(_: &Version) -> u64 {
        8
    }

    fn write_item(out: &mut [u8], place: usize, value: &Version) -> usize {
        write_version(out, place, *value)
    }
}

/// How digests stand in lists.
pub struct DigestField;

impl Item for DigestField {
    type Value = Digest;

    ghost field = { digest_field };

    ghost fits = { IsSized };

    fn item_length(value: &Digest) -> u64 {
        digest_length(value)
    }

    fn write_item(out: &mut [u8], place: usize, value: &Digest) -> usize {
        write_digest(out, place, value)
    }
}

/// How listed files stand in lists.
pub struct EntryField;

impl Item for EntryField {
    type Value = FileEntry;

    ghost field = { entry_field };

    ghost fits = { IsEncodableEntry };

    fn item_length(value: &FileEntry) -> u64 {
        entry_length(value)
    }

    fn write_item(out: &mut [u8], place: usize, value: &FileEntry) -> usize {
        write_entry(out, place, value)
    }
}
