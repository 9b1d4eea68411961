//! How much tables weigh, and how much they would after a command: so it is known whether a half of
//! the journal has room for them.
#![tactic(auto)]

mod counts;
mod data_files;
mod entries;
mod fault;
mod groups;
mod laws;
mod moves;
mod room;
mod tables;
mod weighs;

pub use fault::WeightFault;
pub use laws::{
    changed_tables_weigh, changes_keep_tables, migrated_data_weigh, tables_weigh_as_shown,
};
pub use room::table_full;
pub use tables::{
    weight, weight_with_data, weight_with_group, weight_with_key, weight_with_release,
};
