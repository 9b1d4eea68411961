//! What installs, checks and groups hear of their links and come to: manifests are heard and
//! judged, and files are brought into free blocks.
#![tactic(auto)]

mod basket;
mod check;
mod deployment;
mod drafted;
mod fetch;
mod fetched_parts;
mod group;
mod install;
mod lack;
mod local_plans;
mod new_locals;
mod offers;
mod plan;
mod prepared;
mod release;
mod release_plan;
mod replies;
mod taken;
mod texts;
mod wanted;

pub use check::prepare_check;
pub use group::prepare_group;
pub use install::prepare;
pub use plan::{InstallPlan, WantedFile};
pub use prepared::{Prepared, PreparedFiles};
pub use release_plan::hear;
