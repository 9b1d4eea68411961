//! Tests of the devices in memory, of what a device notes, of the file store, of contents in blocks
//! and of the journal: that calls succeed and fail by their numbers.
#![tactic(auto)]

#[cfg(test)]
mod block_files_tests;
#[cfg(test)]
mod call_record_tests;
#[cfg(test)]
mod connections_tests;
#[cfg(test)]
mod disks_tests;
#[cfg(test)]
mod file_store_tests;
#[cfg(test)]
mod folders_tests;
#[cfg(test)]
mod journal_tests;
#[cfg(test)]
mod line_drafts_tests;
#[cfg(test)]
mod links_tests;
#[cfg(test)]
mod made;
#[cfg(test)]
mod mirrors_tests;
#[cfg(test)]
mod outside_tests;
