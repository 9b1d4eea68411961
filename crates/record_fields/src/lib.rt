//! Fields of records as bytes: numbers, texts, names, options, lists, digests and what manifests say,
//! the one spelling of each, and the value that bytes spell at a place.
#![tactic(auto)]

mod application_readers;
mod byte_readers;
mod deployment_readers;
mod digest_readers;
mod fault;
mod field_readers;
mod field_writers;
mod form_readers;
mod item;
mod item_values;
mod lengths;
mod manifest_writers;
mod numbers;
mod option_readers;
mod part_readers;
mod part_writers;
mod parts;
mod readable;
mod record_parts;

pub use fault::CodecFault;
pub use field_writers::{
    write_bytes, write_key, write_name, write_text, write_u8, write_u16, write_u32, write_u64,
    write_version,
};
pub use item::{Item, list_length, option_length, write_list, write_option};
pub use item_values::{DigestField, EntryField, TextField, VersionField};
pub use lengths::{
    application_length, bytes_length, deployment_length, digest_length, digests_length,
    entry_length, identity_length, key_length, name_length, rule_length, target_length,
    text_length,
};
pub use manifest_writers::{
    write_application, write_deployment, write_digest, write_digests, write_entry,
};
pub use numbers::{
    AGE_RULE, BEFORE_RULE, FALSE_BYTE, NEVER_RULE, SHA1_NUMBER, SHA256_NUMBER, SHA384_NUMBER,
    SHA512_NUMBER, TRUE_BYTE, field_numbers_are,
};
pub use part_writers::{write_identity, write_rule, write_target, write_truth};
pub use parts::{
    read_bytes, read_identity, read_key, read_name, read_rule, read_target, read_text, read_truth,
    read_u8, read_u16, read_u32, read_u64, read_version,
};
pub use readable::Readable;
pub use record_parts::{
    read_application, read_deployment, read_digest, read_digests, read_entries, read_entry,
    read_list, read_option, read_text_option, read_texts, read_version_option,
};
