//! What the two manifests of a release say.
#![tactic(auto)]

mod ages;
mod application;
mod attributes;
mod conditions;
mod deployment;
mod deployment_entry;
mod deployment_terms;
mod entry;
mod facts;
mod file_lists;
mod files;
mod laws;
mod listing;
mod releases;
mod types;

pub use addresses::{UrlFault, app_target, file_target, target_of};
pub use ages::{AGE_DIGIT_LIMIT, AGE_LIMIT, AgeUnit, DAY, HOUR, WEEK, age_limits_are};
pub use application::read_application;
pub use conditions::{
    are_application_facts, are_deployment_facts, are_sized, is_file, is_identity, is_minimum,
    is_provider, is_rule, is_value,
};
pub use deployment::read_deployment;
pub use facts::{Application, Deployment, FileEntry, Release, Rule};
pub use file_lists::are_files;
pub use laws::{applications_have_files, read_applications_are_facts, read_deployments_are_facts};
pub use manifest_parts::ManifestFault;
pub use releases::{ReleaseFault, release};
