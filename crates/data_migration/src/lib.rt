//! The data files of a new version: which old ones are carried over, and which come fresh.
#![tactic(auto)]

mod deployed_table;
mod fault;
mod migration_plans;
mod names;
mod plan;
mod same;

pub use deployed_table::{deployed, stays};
pub use fault::MigrateFault;
pub use migration_plans::{kept_names, migrate};
pub use plan::LocalPlan;
pub use same::same_content;
