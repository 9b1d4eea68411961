// Connections, one after the other.
ghost use Rattle.std.specs.Prelude.{◌≡◌, ◌≢◌, ◌≤◌, ◌<◌, ◌+◌, length, Err, Ok, OnOk};
ghost use Rattle.host_cli.specs.declared.run.RunFault.TheVariants.{Missed, Memory};
ghost use Rattle.host_cli.specs.Run.{AcceptsOne, AcceptsAsking, CountsRun, HostsOne, HostsBut, HostsButLast, IsBelowEnd, rises};

use connections::Door;
use folders::Folder;
use plain_host::{HostRoom, ServeFault, serve_in_room};
use std::alloc::Global;

/// Why a run ended early.
#[derive(Clone, Copy, Debug, PartialEq, Eq)]
pub(crate) enum RunFault {
    /// No connection was accepted: the door's count of misses rose.
    Missed,
    /// There was no memory to serve the last connection.
    Memory,
}

// Accepts one connection and serves it. A fault of the door or the folder ends that connection alone.
fn host_one<F: Folder, G: Door>(
    alloc: Global,
    folder: &mut F,
    door: &mut G,
    room: &mut HostRoom,
) -> Result<(), RunFault>
    ensures one { G.tells → OnOk result (AcceptsOne (G.accepted door.old) (G.accepted door.new)) }
    ensures fate { G.tells → F.tells → OnOk result (HostsOne (F.held folder.old)
        (G.accepted door.old) (G.accepted door.new)
        (G.count door.old) (G.count door.new) (F.count folder.old) (F.count folder.new)) }
    ensures memory { G.tells → result ≡ Err Memory
        → AcceptsAsking (G.accepted door.old) (G.accepted door.new) }
    ensures starved { result ≡ Err Memory → (G.count door.new ≡ G.count door.old)
        × (F.count folder.new ≡ F.count folder.old) }
    ensures none { G.tells → result ≡ Err Missed → G.accepted door.new ≡ G.accepted door.old }
    ensures counts { CountsRun (result ≡ Err Missed) (G.misses door.old) (G.misses door.new)
        (G.count door.old) (G.count door.new) (F.count folder.old) (F.count folder.new) }
    ensures held { F.tells → F.held folder.new ≡ F.held folder.old }
{
    let Ok(()) = door.accept() else {
        return Err(RunFault::Missed);
    };
    match serve_in_room(alloc, door, folder, room) {
        Ok(_) => Ok(()),
        Err(ServeFault::ReadFault) => Ok(()),
        Err(ServeFault::WriteFault) => Ok(()),
        Err(ServeFault::FolderFault) => Ok(()),
        Err(ServeFault::Memory) => Err(RunFault::Memory),
    }
}

// Accepts so many connections, one after the other, and serves each, in one room.
pub(crate) fn host_many<F: Folder, G: Door>(
    alloc: Global,
    count: u64,
    folder: &mut F,
    door: &mut G,
) -> Result<(), RunFault>
    ensures done { G.tells
        → OnOk result (length (G.accepted door.new) ≡ length (G.accepted door.old) + count) }
    ensures fewer { G.tells → result ≡ Err Missed
        → length (G.accepted door.new) < length (G.accepted door.old) + count }
    ensures most { G.tells → length (G.accepted door.new) ≤ length (G.accepted door.old) + count }
    ensures served { G.tells → F.tells
        → IsBelowEnd (G.count door.new) → IsBelowEnd (F.count folder.new) → result ≢ Err Memory
        → HostsBut (F.held folder.old) (G.accepted door.old) (G.accepted door.new)
        (rises (G.count door.old) (G.count door.new) (F.count folder.old) (F.count folder.new)) }
    ensures memory { G.tells → F.tells
        → IsBelowEnd (G.count door.new) → IsBelowEnd (F.count folder.new) → result ≡ Err Memory
        → HostsButLast (F.held folder.old) (G.accepted door.old) (G.accepted door.new)
        (rises (G.count door.old) (G.count door.new) (F.count folder.old) (F.count folder.new)) }
    ensures zero_done { count ≡ 0 → result ≡ Ok tt }
    ensures zero_door { count ≡ 0 → door.new ≡ door.old }
    ensures zero_folder { count ≡ 0 → folder.new ≡ folder.old }
    ensures counts { CountsRun (result ≡ Err Missed) (G.misses door.old) (G.misses door.new)
        (G.count door.old) (G.count door.new) (F.count folder.old) (F.count folder.new) }
    ensures held { F.tells → F.held folder.new ≡ F.held folder.old }
{
    let mut room = HostRoom::new(alloc);
    for _made in 0..count {
        if let Err(fault) = host_one(alloc, folder, door, &mut room) {
            return Err(fault);
        }
    }
    Ok(())
}
