//! Tests of what is served and published, over devices in memory.
#![tactic(auto)]

#[cfg(test)]
mod fetcher_tests;
#[cfg(test)]
mod host_cli_tests;
#[cfg(test)]
mod http_plain_tests;
#[cfg(test)]
mod made;
#[cfg(test)]
mod plain_host_tests;
#[cfg(test)]
mod publisher_tests;
