// Numbers and addresses that may be there or not.
use record_fields::{
    CodecFault, Item, Readable, read_target, read_u64, target_length, write_target, write_u64,
};
use small_types::Target;
use std::alloc::Global;

/// How numbers of eight bytes stand in options.
pub struct NumberField;

impl Item for NumberField {
    type Value = u64;

    ghost use Rattle.table_codec.specs.Spelled.{number_field};

    ghost field = { number_field };

    ghost fits = { λ _. Unit {0} };

    fn item_length(_: &u64) -> u64 {
        8
    }

    fn write_item(out: &mut [u8], place: usize, value: &u64) -> usize {
        write_u64(out, place, *value)
    }
}

impl Readable for NumberField {
    type Value = u64;

    ghost use Rattle.table_codec.specs.Readers.{wide_at};
    ghost use Rattle.table_codec.specs.Spelled.{number_field};
    ghost use Rattle.table_codec.specs.Values.{IsWide};

    ghost field = { number_field };

    ghost fits = { IsWide };

    ghost at = { wide_at };

    fn read_here(_: Global, bytes: &[u8], place: usize) -> Result<(u64, usize), CodecFault> {
        read_u64(bytes, place)
    }

    fn reads_as_spelled() {}
}

/// How addresses stand in options.
pub struct TargetField;

impl Item for TargetField {
    type Value = Target;

    ghost use Rattle.small_types.specs.Short.{IsTarget};
    ghost use Rattle.record_fields.specs.Spelled.{target_field};

    ghost field = { target_field };

    ghost fits = { IsTarget };

    fn item_length(value: &Target) -> u64 {
        target_length(value)
    }

    fn write_item(out: &mut [u8], place: usize, value: &Target) -> usize {
        write_target(out, place, value)
    }
}

impl Readable for TargetField {
    type Value = Target;

    ghost use Rattle.small_types.specs.Short.{IsTarget};
    ghost use Rattle.record_fields.specs.Parts.{target_at};
    ghost use Rattle.record_fields.specs.Spelled.{target_field};

    ghost field = { target_field };

    ghost fits = { IsTarget };

    ghost at = { target_at };

    fn read_here(alloc: Global, bytes: &[u8], place: usize) -> Result<(Target, usize), CodecFault> {
        read_target(alloc, bytes, place)
    }

    fn reads_as_spelled() {}
}
