//! The commands over a disk: each is one step of the machine, and durable once it is answered.
#![tactic(auto)]

mod data_files;
mod durable;
mod fault;
mod launch_step;
mod laws;
mod leased;
mod opened;
mod put_step;
mod refusal;
mod requirement;
mod rollback_step;
mod rows;
mod skip_step;
mod store_tables;
mod updater;

pub use fault::RecoverFault;
pub use laws::one_image_one_store;
pub use updater::Updater;
