//! Leases: each keeps a view as it is while it is in use.
#![tactic(auto)]

mod fault;
mod grants;
mod lease_changes;

pub use fault::LeaseFault;
pub use grants::{check_room, end, grant, holds};
pub use lease_changes::{finish, start};
