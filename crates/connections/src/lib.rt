//! The connections of a client and of a host, and such connections in memory.
#![tactic(auto)]

mod door;
mod mem_door;
mod mem_wire;
mod parts;
mod wire;

pub use door::Door;
pub use mem_door::MemDoor;
pub use mem_wire::MemWire;
pub use wire::Wire;
