//! Values that every layer speaks of: bytes, texts, lists, names, limits and decimal numbers. No
//! device is needed for them.
#![tactic(auto)]

mod bytes;
mod cut;
mod decimal;
mod duplicate;
mod laws;
mod limit;
pub mod limits;
mod list;
mod name;
mod print_fault;
mod room;
mod slices;
mod target;
mod text;
mod word;

pub use bytes::Bytes;
pub use cut::cut_once;
pub use decimal::{are_digits, parse_digits, read_decimal};
pub use duplicate::{CopyFault, Duplicate};
pub use laws::{contents_are_bytes, contents_stay};
pub use limit::Limit;
pub use list::List;
pub use name::{Name, NameFault, is_name};
pub use print_fault::PrintFault;
pub use room::{Room, new_room};
pub use slices::{copy_front, rest_from};
pub use target::Target;
pub use text::Text;
pub use word::Word;
