//! Tests of commands over a disk in memory.
#![tactic(auto)]

#[cfg(test)]
mod store_tables_tests;
#[cfg(test)]
mod updater_tests;
