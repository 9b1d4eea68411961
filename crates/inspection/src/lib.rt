//! A manifest is read from a source, and what it says is written to a sink.
#![tactic(auto)]

mod lines;
mod manifest;

pub use manifest::{INSPECTED_LIMIT, InspectionEnd, Kind, inspect, numbers_are};
