//! The tables of a store as bytes: the one encoding of each, and the tables that bytes encode.
#![tactic(auto)]

mod app_field;
mod decoder;
mod encoder;
mod laws;
mod lease_field;
mod option_fields;
mod view_field;

pub use app_field::AppField;
pub use decoder::{decode_state, decode_tables};
pub use encoder::{encode_state, encoded_length_of_state};
pub use laws::{
    CHANGE_LIMIT, change_limit_is, changes_are_within_weights, changes_stay_encodable,
    encodings_are_within_table_weights, encodings_are_within_weights, fields_stay_encodable,
    tables_are_spelled_once,
};
pub use lease_field::LeaseField;
pub use option_fields::{NumberField, TargetField};
pub use view_field::ViewField;
