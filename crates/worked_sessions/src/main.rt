//! Sessions, releases and inspections by the top call, over devices in memory: lines and stops, installs, launches, checks,
//! data files, the life of an application, and what is published. What is to be done stands in its input, a line for each
//! thing, in parts of which each begins anew.
#![tactic(auto)]

use session_script::play;
use std::io;

fn main(rt: HostRuntime) -> io::Result<()> {
    play(&rt)
}
