//! That a client which installs what was published, from pages in memory, reads what was published.
#![tactic(auto)]

mod laws;

pub use laws::{a_link_shows_its_pages, reads_what_was_published};
