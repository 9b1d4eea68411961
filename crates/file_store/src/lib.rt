//! The contents of files, in blocks on a disk. Another part of the disk may stand before them.
#![tactic(auto)]

mod draft;
mod fault;
mod laws;
mod marks;
mod piece;
mod read;
mod store;

pub use draft::Draft;
pub use fault::FileFault;
pub use laws::{freed_contents_stay, images_stay};
pub use marks::are_apart;
pub use store::FileStore;
