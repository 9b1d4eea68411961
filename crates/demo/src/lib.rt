//! The generated run: three releases of generated files are published and installed over a disk, and
//! the first is launched and cleaned away. Each step is compared with what it must be.
#![tactic(auto)]

mod fault;
mod kept;
mod lines;
mod run;
mod site;
mod summary;
mod words;

pub use fault::{DemoFault, DemoLine};
pub use run::{STORE_BLOCKS, demo, store_blocks_are};
pub use summary::{Installed, Summary};
