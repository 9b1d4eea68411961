//! Runs of the client by the top call, over devices in memory, as a script describes them: sessions,
//! releases that are published and manifests that are inspected. A script has a line for each thing
//! that is to be done; what is printed is compared with what must be printed.
#![tactic(auto)]

mod changing_folder;
mod client;
mod next;
mod releases;
mod runs;
mod script;
mod site;
mod steps;

pub use script::play;
