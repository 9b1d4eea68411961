// Serving one connection.
ghost use Rattle.std.specs.Prelude.{◌≡◌, ◌≢◌, [], List, Err, IfOk, IfErr};
ghost use Rattle.folders.specs.declared.folder.Held.{Held};
ghost use Rattle.plain_host.specs.declared.fault.ServeFault.TheVariants.{ReadFault, WriteFault, FolderFault, Memory};
ghost use Rattle.plain_host.specs.Connection.{AsksFile, BreaksOff, answered_code, FaultsCounted, SendsNothing, ServesLast, ServesPart, ServesSome, SilentAtEnd};

use crate::answer::{prepare_answer, served_of};
use crate::fault::{ServeFault, Served, fault_of};
use crate::host_room::HostRoom;
use crate::reply::send_answer;
use crate::request::receive_front;
use connections::Door;
use folders::Folder;
use std::alloc::Global;

/// Does what `serve_connection` does, in the memory of a room, which the next connection then has. Nothing that is in the
/// room is looked at, and what it holds behind the call means nothing.
pub fn serve_in_room<G: Door, F: Folder>(
    alloc: Global,
    door: &mut G,
    folder: &mut F,
    room: &mut HostRoom,
) -> Result<Served, ServeFault>
    requires { G.tells → G.accepted door.old ≢ [] }

    // What was left of the request is answered as a host of the folder's files answers it.
    ensures served { G.tells → F.tells → IfOk result (λ served. ServesLast (F.held folder.old)
        (G.accepted door.old) (G.accepted door.new) (answered_code served)) }
    ensures silent { G.tells → IfOk result (SilentAtEnd (G.accepted door.old)) }

    // Over a folder that tells nothing it is the answer of a host of some files, and over a door that tells nothing it
    // is the answer to some request.
    ensures of_some { G.tells → IfOk result (λ served. (files : List Held) × ServesLast files
        (G.accepted door.old) (G.accepted door.new) (answered_code served)) }
    ensures to_some { F.tells
        → IfOk result (λ served. ServesSome (F.held folder.old) (answered_code served)) }

    // What a fault leaves.
    ensures part { G.tells → F.tells → result ≡ Err WriteFault
        → ServesPart (F.held folder.old) (G.accepted door.old) (G.accepted door.new) }
    ensures part_of_some { G.tells → result ≡ Err WriteFault
        → (files : List Held) × ServesPart files (G.accepted door.old) (G.accepted door.new) }
    ensures nothing { G.tells → IfErr result (λ e. e ≢ WriteFault
        → SendsNothing (G.accepted door.old) (G.accepted door.new)) }
    ensures broken { G.tells → result ≡ Err ReadFault
        → BreaksOff (G.accepted door.old) (G.accepted door.new) }
    ensures file { G.tells → result ≡ Err FolderFault
        → AsksFile (G.accepted door.old) (G.accepted door.new) }
    ensures memory { G.tells → result ≡ Err Memory
        → AsksFile (G.accepted door.old) (G.accepted door.new) }

    // Where the faults come from, and what stays.
    ensures counts { FaultsCounted (G.count door.old) (G.count door.new)
        (F.count folder.old) (F.count folder.new) result }
    ensures misses { G.misses door.new ≡ G.misses door.old }
    ensures held { F.tells → F.held folder.new ≡ F.held folder.old }
{
    let Ok(n) = receive_front(door, &mut room.request) else {
        return Err(ServeFault::ReadFault);
    };
    let prepared = match prepare_answer(alloc, folder, &room.request[..n], &mut room.file) {
        Ok(prepared) => prepared,
        Err(fault) => return Err(fault_of(fault)),
    };
    let Ok(()) = send_answer(door, &prepared, room.file.as_slice()) else {
        return Err(ServeFault::WriteFault);
    };
    Ok(served_of(&prepared))
}

/// Answers one request on the connection that the door accepted last, from the files of the folder.
/// It receives at most 65,536 bytes of the request, and no piece, of at most 8,192 bytes, once the
/// end of the head has come. It sends nothing before enough of the request has come to know the
/// answer, and the file, if there is one, was read whole. A file of at most 16,384 bytes goes out
/// in one call with its head.
///
/// `Silent` comes exactly where the request is empty. After `WriteFault` a first part of the answer
/// was sent, and not all; after each other fault nothing was sent. `ReadFault` comes only before
/// the request's head is whole, and `FolderFault` and `Memory` only where the request asks for a
/// file. Any result but `ReadFault` and `WriteFault` leaves the door's count, and any but
/// `FolderFault` the folder's, so no failed call is passed over.
pub fn serve_connection<G: Door, F: Folder>(
    alloc: Global,
    door: &mut G,
    folder: &mut F,
) -> Result<Served, ServeFault>
    requires { G.tells → G.accepted door.old ≢ [] }

    // What was left of the request is answered as a host of the folder's files answers it.
    ensures served { G.tells → F.tells → IfOk result (λ served. ServesLast (F.held folder.old)
        (G.accepted door.old) (G.accepted door.new) (answered_code served)) }
    ensures silent { G.tells → IfOk result (SilentAtEnd (G.accepted door.old)) }

    // Over a folder that tells nothing it is the answer of a host of some files, and over a door that tells nothing it
    // is the answer to some request.
    ensures of_some { G.tells → IfOk result (λ served. (files : List Held) × ServesLast files
        (G.accepted door.old) (G.accepted door.new) (answered_code served)) }
    ensures to_some { F.tells
        → IfOk result (λ served. ServesSome (F.held folder.old) (answered_code served)) }

    // What a fault leaves.
    ensures part { G.tells → F.tells → result ≡ Err WriteFault
        → ServesPart (F.held folder.old) (G.accepted door.old) (G.accepted door.new) }
    ensures part_of_some { G.tells → result ≡ Err WriteFault
        → (files : List Held) × ServesPart files (G.accepted door.old) (G.accepted door.new) }
    ensures nothing { G.tells → IfErr result (λ e. e ≢ WriteFault
        → SendsNothing (G.accepted door.old) (G.accepted door.new)) }
    ensures broken { G.tells → result ≡ Err ReadFault
        → BreaksOff (G.accepted door.old) (G.accepted door.new) }
    ensures file { G.tells → result ≡ Err FolderFault
        → AsksFile (G.accepted door.old) (G.accepted door.new) }
    ensures memory { G.tells → result ≡ Err Memory
        → AsksFile (G.accepted door.old) (G.accepted door.new) }

    // Where the faults come from, and what stays.
    ensures counts { FaultsCounted (G.count door.old) (G.count door.new)
        (F.count folder.old) (F.count folder.new) result }
    ensures misses { G.misses door.new ≡ G.misses door.old }
    ensures held { F.tells → F.held folder.new ≡ F.held folder.old }
{
    let mut room = HostRoom::new(alloc);
    serve_in_room(alloc, door, folder, &mut room)
}
