//! Network addresses of a published application: of its manifests and of its files.
#![tactic(auto)]

mod address;
mod fault;
mod file_base;
mod join;
mod laws;

pub use address::{HTTP_PORT, target_of};
pub use fault::UrlFault;
pub use file_base::FileBase;
pub use join::{app_target, file_target};
pub use laws::{bases_are_http, http_port_is, names_are_joined};
