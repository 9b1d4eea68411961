//! What tables hold for the files that they name, what a change brings, and what it lets go.
#![tactic(auto)]

mod content_order;
mod freed_items;
mod held_items;
mod laws;
mod needed_contents;

pub use freed_items::{freed, lets_go};
pub use held_items::{HeldItem, brought, held};
pub use laws::{changes_keep_items, held_are_used};
