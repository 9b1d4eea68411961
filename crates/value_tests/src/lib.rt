//! Tests of values: worked texts and numbers from outside, and that calls succeed.
#![tactic(auto)]

#[cfg(test)]
mod addresses_tests;
#[cfg(test)]
mod audit_list_tests;
#[cfg(test)]
mod digest_list_tests;
#[cfg(test)]
mod identity_tests;
#[cfg(test)]
mod manifest_tree_reader_tests;
#[cfg(test)]
mod manifest_tree_write_tests;
#[cfg(test)]
mod publish_plan_tests;
#[cfg(test)]
mod small_types_tests;
