//! What a publish will write, and its refusals before any file is read.
#![tactic(auto)]

mod early;
mod fault;
mod files;
mod laws;
mod marked;
mod options;
mod places;
mod plans;
mod written;

pub use early::check_options;
pub use fault::PlanFault;
pub use laws::{plain_name_limit_is, plans_have_facts};
pub use options::{Mark, MarkKind, Options, PlannedFile, PublishPlan};
pub use places::{PLAIN_NAME_LIMIT, codebase_of};
pub use plans::plan;
