// Lists and options: how long they are, and how they are written.
ghost use Rattle.std.specs.Prelude.{◌≡◌, ℕ, ◌+◌, ◌<◌, ◌≤◌, ◌^◌, List, All, IfSome, length, flat_map};
ghost use Rattle.record_fields.specs.Places.{WritesField};
ghost use Rattle.record_fields.specs.Spelled.{list_field, option_field};

use crate::field_writers::{write_u8, write_u32};
use crate::numbers::{FALSE_BYTE, TRUE_BYTE};

/// How values stand in lists and options: how they are spelled, and how they are written. A type of
/// its own names it, so that a crate above says it of any value.
pub trait Item {
    /// What the list or the option holds.
    type Value;

    // How it is spelled.
    ghost field: { Self.Value → List ℕ };

    // What it has to be so that it can be written.
    ghost fits: { Self.Value → Type 0 };

    /// How many bytes it takes.
    fn item_length(value: &Self::Value) -> u64
        requires { length (field value.now) < 2 ^ 63 }
        ensures { result ≡ length (field value.now) };

    /// Writes it at the place, and answers the place behind it.
    fn write_item(out: &mut [u8], place: usize, value: &Self::Value) -> usize
        requires fits { fits value.now }
        requires room { place + length (field value.now) ≤ length out.old }
        ensures { WritesField out.old place (field value.now) out.new result };
}

/// How many bytes an option takes.
pub fn option_length<T: Item>(value: &Option<T::Value>) -> u64
    requires { length (option_field T.field value.now) < 2 ^ 63 }
    ensures { result ≡ length (option_field T.field value.now) }
{
    match value {
        None => 1,
        Some(item) => 1 + T::item_length(item),
    }
}

/// Writes an option at the place, a byte that says whether there is a value, and the value, and answers the place
/// behind it.
pub fn write_option<T: Item>(out: &mut [u8], place: usize, value: &Option<T::Value>) -> usize
    requires fits { IfSome value.now T.fits }
    requires room { place + length (option_field T.field value.now) ≤ length out.old }
    ensures { WritesField out.old place (option_field T.field value.now) out.new result }
{
    match value {
        None => write_u8(out, place, FALSE_BYTE),
        Some(item) => {
            let next = write_u8(out, place, TRUE_BYTE);
            T::write_item(out, next, item)
        }
    }
}

// How many bytes items take.
fn items_length<T: Item>(items: &[T::Value]) -> u64
    requires { length (flat_map T.field items.now) < 2 ^ 63 }
    ensures { result ≡ length (flat_map T.field items.now) }
{
    let mut total = 0;
    for item in items {
        total += T::item_length(item);
    }
    total
}

/// How many bytes a list takes.
#[tactic(auto, using(crate::proofs::Long::lengths), unfolding(crate::specs::Spelled::list_field))]
pub fn list_length<T: Item>(items: &[T::Value]) -> u64
    requires { length (list_field T.field items.now) < 2 ^ 63 }
    ensures { result ≡ length (list_field T.field items.now) }
{
    4 + items_length::<T>(items)
}

// Writes items one behind another from the place on, and answers the place behind them.
fn write_items<T: Item>(out: &mut [u8], place: usize, items: &[T::Value]) -> usize
    requires fits { All T.fits items.now }
    requires room { place + length (flat_map T.field items.now) ≤ length out.old }
    ensures { WritesField out.old place (flat_map T.field items.now) out.new result }
{
    let mut next = place;
    for item in items {
        next = T::write_item(out, next, item);
    }
    next
}

/// Writes a list at the place, behind the number of its items in four bytes, and answers the place
/// behind it.
pub fn write_list<T: Item>(out: &mut [u8], place: usize, items: &[T::Value]) -> usize
    requires few { length items.now < 2 ^ 32 }
    requires fits { All T.fits items.now }
    requires room { place + length (list_field T.field items.now) ≤ length out.old }
    ensures { WritesField out.old place (list_field T.field items.now) out.new result }
{
    let next = write_u32(out, place, items.len() as u32);
    write_items::<T>(out, next, items)
}
