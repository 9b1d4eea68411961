// The run of a host.
ghost use Rattle.std.specs.Prelude.{◌≡◌, ◌≢◌, ◌≤◌, ◌<◌, ◌+◌, ◌⊎◌, ◌↔◌, ℕ, length, Some, None, IfSome};
ghost use Rattle.host_cli.specs.Run.{CountsRun, HostsBut, HostsButLast, IsBelowEnd, rises};
ghost use Rattle.host_cli.specs.Words.{count_of};

use crate::run::{RunFault, host_many};
use crate::status::{STATUS_DONE, STATUS_MEMORY, STATUS_MISSED, STATUS_WORDS};
use crate::words::read_words;
use connections::Door;
use folders::Folder;
use small_types::Word;
use std::alloc::Global;

/// Accepts connections at the door, one after the other, and answers one request on each from the
/// files of the folder. The words are `PORT COUNT`: 1 to 65,535, and 0 to 1,000,000, in 1 to 19
/// decimal digits each.
///
/// The status is 0 where so many connections were accepted, 1 exactly at other words, where nothing
/// is done, 2 where the door failed to accept, and 6 where there was no memory for the file that
/// the last connection asks for. Any status but 2 leaves the count of misses, so no failed accept
/// is passed over. A fault of the door or the folder while a connection is served ends that
/// connection alone.
///
/// So, over a door and a folder that tell, and where neither count of faults ended at its greatest
/// number, at most as many connections are not served as the counts rose by, and on those nothing
/// or a first part of the answer was sent. A host speaks only when enough of the request has come
/// to know the answer, and of no request it receives more than 65,536 bytes, or a piece, of at most
/// 8,192 bytes, once the end of the head has come. At status 6 the last connection is not counted:
/// it asks for a file, nothing was sent on it, and no more of its request was received than that.
pub fn host_run<F: Folder, G: Door>(
    alloc: Global,
    words: &[Word],
    folder: &mut F,
    door: &mut G,
) -> u8
    ensures words { result ≡ STATUS_WORDS ↔ count_of words.now ≡ None }
    ensures statuses { (result ≡ STATUS_DONE) ⊎ ((result ≡ STATUS_WORDS)
        ⊎ ((result ≡ STATUS_MISSED) ⊎ (result ≡ STATUS_MEMORY))) }

    // How many connections were accepted.
    ensures done { G.tells → result ≡ STATUS_DONE → IfSome (count_of words.now) (λ n.
        length (G.accepted door.new) ≡ length (G.accepted door.old) + n) }
    ensures fewer { G.tells → result ≡ STATUS_MISSED → IfSome (count_of words.now) (λ n.
        length (G.accepted door.new) < length (G.accepted door.old) + n) }
    ensures most { G.tells → IfSome (count_of words.now) (λ n.
        length (G.accepted door.new) ≤ length (G.accepted door.old) + n) }

    // How many of them were not served.
    ensures served { G.tells → F.tells
        → IsBelowEnd (G.count door.new) → IsBelowEnd (F.count folder.new) → result ≢ STATUS_MEMORY
        → HostsBut (F.held folder.old) (G.accepted door.old) (G.accepted door.new)
        (rises (G.count door.old) (G.count door.new) (F.count folder.old) (F.count folder.new)) }
    ensures memory { G.tells → F.tells
        → IsBelowEnd (G.count door.new) → IsBelowEnd (F.count folder.new) → result ≡ STATUS_MEMORY
        → HostsButLast (F.held folder.old) (G.accepted door.old) (G.accepted door.new)
        (rises (G.count door.old) (G.count door.new) (F.count folder.old) (F.count folder.new)) }

    // Where nothing is done.
    ensures other_words { result ≡ STATUS_WORDS
        → (door.new ≡ door.old) × (folder.new ≡ folder.old) }
    ensures no_connections { count_of words.now ≡ Some 0
        → (result ≡ STATUS_DONE) × (door.new ≡ door.old) × (folder.new ≡ folder.old) }

    // The counts, and that the folder is only read.
    ensures counts { CountsRun (result ≡ STATUS_MISSED) (G.misses door.old) (G.misses door.new)
        (G.count door.old) (G.count door.new) (F.count folder.old) (F.count folder.new) }
    ensures held { F.tells → F.held folder.new ≡ F.held folder.old }
{
    let Some(count) = read_words(words) else {
        return STATUS_WORDS;
    };
    match host_many(alloc, count, folder, door) {
        Ok(()) => STATUS_DONE,
        Err(RunFault::Missed) => STATUS_MISSED,
        Err(RunFault::Memory) => STATUS_MEMORY,
    }
}
