//! Tests of the tables, of their changes and of themselves as bytes, of both in a journal, of how
//! much they weigh, of what they hold for files, of what a clean takes, and of lines and replies.
#![tactic(auto)]

#[cfg(test)]
mod cleaner_tests;
#[cfg(test)]
mod command_text_tests;
#[cfg(test)]
mod record_codec_tests;
#[cfg(test)]
mod store_state_tests;
#[cfg(test)]
mod table_check_tests;
#[cfg(test)]
mod table_codec_tests;
#[cfg(test)]
mod table_files_tests;
#[cfg(test)]
mod table_log_tests;
#[cfg(test)]
mod table_weight_tests;
