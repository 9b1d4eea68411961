//! A change, of whichever kind it is, made in the tables.
#![tactic(auto)]

mod dispatch;

pub use dispatch::make;
