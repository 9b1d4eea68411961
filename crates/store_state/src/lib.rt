//! The tables of a client's store, the changes of them that a journal keeps, and the store that
//! they show.
#![tactic(auto)]

mod brought_contents;
mod change;
mod change_rules;
mod content_key;
mod content_lookups;
mod contents;
mod dropped_views;
mod entries;
mod fields;
mod group_change;
mod install_change;
mod laws;
mod lease_change;
mod lease_list;
mod local_files;
mod lookups;
mod marks;
mod names;
mod note;
mod numbers;
mod state;
mod table_parts;
mod view;
mod views;

pub use change::Change;
pub use content_key::{ContentKey, key_order};
pub use laws::{
    boots_show_the_store, checks_show_the_entry, cleans_show_the_rest, drops_show_the_rest,
    each_change_shows_an_ordered_store, empty_tables_are_shown, files_are_their_contents,
    finishes_show_the_rest, groups_show_the_files, installs_show_the_view, launches_show_the_lease,
    locals_show_files, measured_tables_stay, one_store_is_shown, puts_show_the_file,
    reads_show_files, removals_show_the_rest, requires_show_the_entry, rollbacks_show_the_entry,
    shapes_are_shown, skips_show_the_entry,
};
pub use lease_list::LeaseList;
pub use state::{StateFault, StoreState};
pub use table_parts::{PartsFault, TableParts};
pub use view::{Content, LocalFile, Stored, View, is_in_group};
