// The values that lists hold.
ghost use Rattle.record_codec.specs.Spelled.{block_field, content_field, local_field};
ghost use Rattle.record_codec.specs.Values.{IsBlock, IsEncodableContent, IsEncodableLocal};

use crate::lengths::{content_length, local_length};
use crate::view_writers::{write_content, write_local};
use record_fields::{Item, write_u32};
use store_state::{Content, LocalFile};

/// How the numbers of blocks stand in lists.
pub struct BlockField;

impl Item for BlockField {
    type Value = u32;

    ghost field = { block_field };

    ghost fits = { IsBlock };

    fn item_length(_: &u32) -> u64 {
        4
    }

    fn write_item(out: &mut [u8], place: usize, value: &u32) -> usize {
        write_u32(out, place, *value)
    }
}

/// How contents stand in lists.
pub struct ContentField;

impl Item for ContentField {
    type Value = Content;

    ghost field = { content_field };

    ghost fits = { IsEncodableContent };

    fn item_length(value: &Content) -> u64 {
        content_length(value)
    }

    fn write_item(out: &mut [u8], place: usize, value: &Content) -> usize {
        write_content(out, place, value)
    }
}

/// How data files stand in lists.
pub struct LocalField;

impl Item for LocalField {
    type Value = LocalFile;

    ghost field = { local_field };

    ghost fits = { IsEncodableLocal };

    fn item_length(value: &LocalFile) -> u64 {
        local_length(value)
    }

    fn write_item(out: &mut [u8], place: usize, value: &LocalFile) -> usize {
        write_local(out, place, value)
    }
}
