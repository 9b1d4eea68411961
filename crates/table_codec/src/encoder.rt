// Writing tables, and how long they are.
ghost use Rattle.std.specs.Prelude.{◌≡◌, ◌+◌, ◌<◌, ◌≤◌, ◌^◌, ◌++◌, length, drop};
ghost use Rattle.record_fields.specs.Places.{WritesField};
ghost use Rattle.table_codec.specs.Spelled.{lists_field, state_text};
ghost use Rattle.table_codec.specs.Values.{IsEncodableState};

use crate::app_field::AppField;
use crate::lease_field::LeaseField;
use crate::view_field::ViewField;
use record_codec::ContentField;
use record_fields::{list_length, write_list, write_u64};
use store_state::StoreState;

#[tactic(auto, using(record_fields::proofs::Long::lengths), unfolding(crate::specs::Spelled::lists_field))]
fn lists_length(state: &StoreState) -> u64
    requires { length (lists_field state.now) < 2 ^ 63 }
    ensures { result ≡ length (lists_field state.now) }
{
    list_length::<LeaseField>(state.leases.as_slice())
        + list_length::<ViewField>(state.views.as_slice())
        + list_length::<AppField>(state.apps.as_slice())
        + list_length::<ContentField>(state.contents.as_slice())
}

/// How many bytes the encoding of the tables has, which are fewer than 2^63.
pub fn encoded_length_of_state(state: &StoreState) -> u64
    requires { length (state_text state.now) < 2 ^ 63 }
    ensures { result ≡ length (state_text state.now) }
{
    24 + lists_length(state)
}

// Writes the leases, the views, the applications and the contents at the place, and answers the
// place behind them.
#[tactic(auto, using(record_fields::proofs::Long::lengths), unfolding(crate::specs::Spelled::lists_field))]
fn write_lists(out: &mut [u8], place: usize, state: &StoreState) -> usize
    requires state { IsEncodableState state.now }
    requires room { place + length (lists_field state.now) ≤ length out.old }
    ensures { WritesField out.old place (lists_field state.now) out.new result }
{
    let next = write_list::<LeaseField>(out, place, state.leases.as_slice());
    let next = write_list::<ViewField>(out, next, state.views.as_slice());
    let next = write_list::<AppField>(out, next, state.apps.as_slice());
    write_list::<ContentField>(out, next, state.contents.as_slice())
}

/// Writes the encoding of the tables to the front of the buffer, leaves the rest, and answers how
/// many bytes it has. It takes no memory.
#[tactic(auto, using(record_fields::proofs::Long::lengths), unfolding(crate::specs::Spelled::state_text))]
pub fn encode_state(state: &StoreState, out: &mut [u8]) -> usize
    requires state { IsEncodableState state.now }
    requires room { length (state_text state.now) ≤ length out.old }
    ensures length { result ≡ length (state_text state.now) }
    ensures text { out.new ≡ state_text state.now ++ drop result out.old }
{
    let next = write_u64(out, 0, state.boot);
    let next = write_u64(out, next, state.next_view);
    let next = write_u64(out, next, state.next_lease);
    write_lists(out, next, state)
}
