//! A journal on a disk: a head block and two halves, of which one is current. A half has tables,
//! and behind them a log of changes, each behind a gate.
#![tactic(auto)]

mod fault;
mod form;
mod format;
mod gate;
mod head;
mod laws;
mod log;
mod piece;
mod read;
mod side;

pub use fault::LogFault;
pub use form::{HEAD_GATE, SERIAL_COUNT, SIGN, journal_numbers_are};
pub use head::are_limits;
pub use laws::{an_image_is_one_journal, an_open_log_stays_open, blocks_stay};
pub use log::{Log, Recovered};
pub use piece::{AROUND, AROUND_TABLES, BEFORE, BEFORE_TABLES};
pub use side::Side;
