//! The devices of a program: standard input, standard output, a disk in a file, a folder and the
//! connections of a client and of a host. The file and the output tell by a record of their calls, and
//! the folder keeps one; the others tell no content.
#![tactic(auto)]

mod counted;
mod durable_file;
mod file;
mod file_disk;
mod folder_get;
mod folder_list;
mod folder_path;
mod folder_put;
mod folder_told;
mod real_folder;
mod reason;
mod std_sink;
mod std_source;
mod stream;
mod tcp_door;
mod tcp_wire;
mod told;

pub use file::{read_from, write_whole};
pub use file_disk::FileDisk;
pub use real_folder::RealFolder;
pub use reason::{Failure, Reason};
pub use std_sink::StdSink;
pub use std_source::StdSource;
pub use tcp_door::TcpDoor;
pub use tcp_wire::TcpWire;
