//! Changes of a store as bytes: the one encoding of each, and the change that bytes encode.
#![tactic(auto)]

mod change_writers;
mod decoder;
mod encoder;
mod item_values;
mod lengths;
mod numbers;
mod view_parts;
mod view_readers;
mod view_writers;

pub use decoder::decode_change;
pub use encoder::{encode_change, encoded_length};
pub use item_values::{BlockField, ContentField, LocalField};
pub use lengths::view_length;
pub use numbers::{
    BOOT_KIND, CLEAN_KIND, COUNT_LIMIT, FINISH_KIND, GROUP_KIND, HEARD_KIND, INSTALL_KIND,
    LAUNCH_KIND, PUT_KIND, REMOVE_KIND, REQUIRE_KIND, ROLLBACK_KIND, SKIP_KIND, UNHEARD_KIND,
    change_numbers_are,
};
pub use view_parts::{read_content, read_local, read_view};
pub use view_writers::{write_content, write_local, write_view};
