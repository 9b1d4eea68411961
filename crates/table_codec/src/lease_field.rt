// Leases.
ghost use Rattle.std.specs.Prelude.{◌+◌, ◌≤◌, length};
ghost use Rattle.record_fields.specs.Places.{WritesField};
ghost use Rattle.table_codec.specs.Spelled.{lease_field};

use machine::Lease;
use record_fields::{CodecFault, Item, Readable, read_u64, write_u64};
use std::alloc::Global;

/// How leases stand in lists.
pub struct LeaseField;

#[tactic(auto, unfolding(crate::specs::Spelled::lease_field))]
impl Item for LeaseField {
    type Value = Lease;

    ghost use Rattle.table_codec.specs.Spelled.{lease_field};

    ghost field = { lease_field };

    ghost fits = { λ _. Unit {0} };

    fn item_length(_: &Lease) -> u64 {
        16
    }

    fn write_item(out: &mut [u8], place: usize, value: &Lease) -> usize {
        write_lease(out, place, *value)
    }
}

// Writes the lease at the place, its number and that of its view, and answers the place behind it.
#[tactic(auto, unfolding(crate::specs::Spelled::lease_field))]
fn write_lease(out: &mut [u8], place: usize, lease: Lease) -> usize
    requires { place + length (lease_field lease) ≤ length out.old }
    ensures { WritesField out.old place (lease_field lease) out.new result }
{
    let next = write_u64(out, place, lease.number);
    write_u64(out, next, lease.view)
}

impl Readable for LeaseField {
    type Value = Lease;

    ghost use Rattle.table_codec.specs.Readers.{lease_at};
    ghost use Rattle.table_codec.specs.Spelled.{lease_field};
    ghost use Rattle.table_codec.specs.Values.{IsEncodableLease};

    ghost field = { lease_field };

    ghost fits = { IsEncodableLease };

    ghost at = { lease_at };

    #[tactic(auto, unfolding(crate::specs::Readers::lease_at))]
    fn read_here(_: Global, bytes: &[u8], place: usize) -> Result<(Lease, usize), CodecFault> {
        let (number, next) = read_u64(bytes, place)?;
        let (view, next) = read_u64(bytes, next)?;
        Ok((Lease { number, view }, next))
    }

    fn reads_as_spelled() {}
}
