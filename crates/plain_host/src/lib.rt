//! A host of the files of a folder, over plain HTTP/1.1: one request a connection.
#![tactic(auto)]

mod answer;
mod connection;
mod fault;
mod host_room;
mod laws;
mod reply;
mod request;

pub use connection::{serve_connection, serve_in_room};
pub use fault::{ServeFault, Served};
pub use host_room::HostRoom;
pub use laws::numbers_are;
pub use request::REQUEST_PIECE;
