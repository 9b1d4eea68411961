//! Installs that are open at once: what blocks each of them has, and who counts on them.
#![tactic(auto)]

mod beside;
mod content_key;
mod fault;
mod held;
mod slots;
mod table;

pub use beside::{blocks_are_counted, blocks_may_move, whole_files_stay};
pub use fault::JobFault;
pub use held::{Held, Slot};
pub use table::{Fetch, Job, JobTable};
