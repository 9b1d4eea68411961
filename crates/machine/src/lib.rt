//! What a session's lines ask for and answer, and the machine that they are steps of. It stands on no device and has no
//! tables: what a store is here has whole bytes.
#![tactic(auto)]

mod app;
mod check_laws;
mod command;
mod data_laws;
mod due;
mod event;
mod group_laws;
mod install_laws;
mod laws;
mod lease;
mod lease_laws;
mod life_laws;
mod reply;
mod report;
mod rows;
mod weight_laws;
mod weights;

pub use app::AppState;
pub use check_laws::{checks_count, skipped_offers_are_not_due};
pub use command::{Command, LineFault};
pub use data_laws::{data_files_stay, data_is_of_files, one_data_file_is_changed};
pub use due::Due;
pub use event::{Event, Heard};
pub use group_laws::{group_files_suffice, groups_may_come, one_group_is_given};
pub use install_laws::{
    installs_are_current, installs_keep_minimums, installs_keep_sound, installs_keep_valid,
    migrations_are_one, one_install_is_given, stores_may_be_updated, wanted_files_suffice,
};
pub use laws::{
    addresses_are_short, blocks_are_counted, commands_are_answered, contents_are_compared,
    entries_stay_in_order, memory_changes_nothing, minimums_are_shown, minimums_never_fall,
    moments_are_set, one_entry_is_changed, one_refusal_is_given, read_addresses_may_be_held,
    read_manifests_may_be_held, refusals_change_nothing, refusals_come_in_order,
    sessions_stay_sound, some_stores_are_sound, steps_keep_numbers, steps_keep_sound,
    steps_keep_valid,
};
pub use lease::Lease;
pub use lease_laws::{
    free_launches_are_granted, launches_are_sound, launches_reach_minimums, leased_views_are_sound,
    leased_views_stay, reads_are_of_files,
};
pub use life_laws::{
    lists_show_current, rollbacks_go_back, shows_are_of_entries, used_views_stay, views_are_new,
    views_may_go,
};
pub use reply::Reply;
pub use report::{Report, ReportLine};
pub use rows::{ListRow, ShowRow};
pub use weight_laws::new_tables_are_weighed;
pub use weights::{
    APP_WEIGHT, BLOCK_WEIGHT, CHANGE_ROOM, CONTENT_WEIGHT, DIGEST_WEIGHT, FILE_WEIGHT,
    GROUP_WEIGHT, LOCAL_WEIGHT, STATE_WEIGHT, VIEW_WEIGHT, weights_are,
};
