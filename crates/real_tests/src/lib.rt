//! Tests of the real devices: what they do with real files, folders and connections, and with a runtime's streams.
#![tactic(auto)]

#[cfg(test)]
mod file_tests;
#[cfg(test)]
mod folder_tests;
#[cfg(test)]
mod narrow_tests;
#[cfg(test)]
mod shown;
#[cfg(test)]
mod stream_tests;
#[cfg(test)]
mod tcp_tests;
