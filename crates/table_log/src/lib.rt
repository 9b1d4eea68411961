//! Tables in a journal of two halves: how they are made new, read, and changed in memory and on the
//! disk together.
#![tactic(auto)]

mod fault;
mod laws;
mod new_journal;
mod piece;
mod recovery;
mod replay;
mod rooms;
mod step;
mod stored_pieces;

pub use fault::{OpenFault, StepFault};
pub use laws::{a_log_stays_open_as_tables, an_image_reads_as_one, new_journals_read};
pub use new_journal::format;
pub use recovery::{OpenTables, recover};
pub use rooms::Rooms;
pub use step::make_durable;
