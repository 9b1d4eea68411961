//! What commands of a store do with contents that lie in blocks: a part is read, a content is
//! compared with bytes, copied into a draft, or written from bytes.
#![tactic(auto)]

mod copy;
mod fault;
mod laws;
mod part;
mod run;
mod sameness;
mod write;

pub use copy::copy_content;
pub use fault::PartFault;
pub use laws::used_contents_stay;
pub use part::read_part;
pub use sameness::has_bytes;
pub use write::write_content;
