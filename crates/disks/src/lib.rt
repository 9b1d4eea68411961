//! Disks: what their calls do and what a stop may leave, as a trait and in memory.
#![tactic(auto)]

mod answer;
mod call;
mod disk;
mod history;
mod laws;
mod mem_disk;
mod start;
mod stop;

pub use answer::Answer;
pub use call::{Call, Move, Pick};
pub use disk::Disk;
pub use laws::{honest_answers_are_true, honest_answers_stay_honest};
pub use mem_disk::MemDisk;
pub use start::{Start, Unknown};
pub use stop::StopFault;
