//! The top call of the client's program: new stores, and sessions of lines over a store.
#![tactic(auto)]

mod course;
mod demo_end;
mod laws;
mod limits;
mod line;
mod session;
mod status;
mod top;
mod whole_session;
mod words;

pub use demo::DemoFault;
pub use laws::{
    no_others_come, one_site_is_given, pages_have_releases, published_data_is_read,
    published_is_given, published_is_read, publishes_where_it_may, publishes_write,
    releases_are_offered, served_is_given, walks_find, walks_tell,
};
pub use limits::{INPUT_LIMIT, input_limit_is};
pub use machine::{Report, ReportLine};
pub use top::run;
pub use words::Request;
