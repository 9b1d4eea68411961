// Views.
ghost use Rattle.record_codec.specs.declared.numbers.TheConstants.{COUNT_LIMIT};
ghost use Rattle.record_codec.specs.Spelled.{view_field};
ghost use Rattle.record_codec.specs.Values.{IsEncodableView};

use record_codec::{COUNT_LIMIT, read_view, view_length, write_view};
use record_fields::{CodecFault, Item, Readable};
use std::alloc::Global;
use store_state::View;

/// How views stand in lists.
pub struct ViewField;

impl Item for ViewField {
    type Value = View;

    ghost field = { view_field };

    ghost fits = { IsEncodableView COUNT_LIMIT };

    fn item_length(value: &View) -> u64 {
        view_length(value)
    }

    fn write_item(out: &mut [u8], place: usize, value: &View) -> usize {
        write_view(out, place, value)
    }
}

impl Readable for ViewField {
    type Value = View;

    ghost use Rattle.record_codec.specs.Records.{view_at};

    ghost field = { view_field };

    ghost fits = { IsEncodableView COUNT_LIMIT };

    ghost at = { view_at COUNT_LIMIT };

    fn read_here(alloc: Global, bytes: &[u8], place: usize) -> Result<(View, usize), CodecFault> {
        read_view(alloc, bytes, place, COUNT_LIMIT)
    }

    fn reads_as_spelled() {}
}
