// How the drafts of a line end.
ghost use Rattle.std.specs.Prelude.{◌≡◌, ℕ, List, map, Ok, Err};
ghost use Rattle.disks.specs.Moments.{Each, LeavesOnly};
ghost use Rattle.file_store.specs.Stores.{AreUsed, SameRange, blocks_of_all, draft_blocks, free_of, store_base};
ghost use Rattle.line_drafts.specs.Held.{AreContents, AreHeld};
ghost use Rattle.install_plan.specs.Drafted.{EndsAs, Seals};

use crate::PreparedFiles;
use crate::lack::Lack;
use disks::Disk;
use file_store::FileStore;
use line_drafts::LineDrafts;
use machine::Reply;
use small_types::List;
use store_state::Change;

/// A change whose files came into drafts, all their blocks, and those that it does not bring.
#[derive(Drop)]
pub(crate) struct Drafted {
    pub(crate) change: Change,
    pub(crate) reply: Reply,
    pub(crate) taken: List<u32>,
    pub(crate) unused: List<u32>,
}

// Makes the drafts of a change durable, by one sync. Where the disk fails, the blocks of all drafts are
// free.
fn seal_change<D: Disk>(
    files: &mut FileStore,
    disk: &mut D,
    drafts: LineDrafts,
    drafted: Drafted,
) -> PreparedFiles
    requires { AreUsed files.old (blocks_of_all drafts) }
    ensures ends { EndsAs (Ok drafted) result }
    ensures seals { Seals D.Disk drafts (Ok drafted) files.old files.new disk.old disk.new result }
{
    match drafts.seal(disk, files) {
        Ok(sealed) => {
            drop(sealed);
            PreparedFiles::Change {
                change: drafted.change,
                reply: drafted.reply,
                taken: drafted.taken,
                unused: drafted.unused,
            }
        }
        Err(fault) => {
            drop(fault);
            drop(drafted);
            PreparedFiles::DiskFault
        }
    }
}

// What files that did not come lead to.
fn lack_end(lack: Lack) -> PreparedFiles
    ensures { EndsAs (Err lack) result }
{
    match lack {
        Lack::Reply { reply } => PreparedFiles::Reply { reply },
        Lack::DiskFault => PreparedFiles::DiskFault,
    }
}

// Makes the drafts of a change durable, by one sync. Where there is no change, or the disk fails, the
// blocks of all drafts are free.
pub(crate) fn finish<D: Disk>(
    files: &mut FileStore,
    disk: &mut D,
    drafts: LineDrafts,
    drafted: Result<Drafted, Lack>,
) -> PreparedFiles
    requires { AreUsed files.old (blocks_of_all drafts) }
    ensures ends { EndsAs drafted result }
    ensures seals { Seals D.Disk drafts drafted files.old files.new disk.old disk.new result }
{
    match drafted {
        Ok(drafted) => seal_change(files, disk, drafts, drafted),
        Err(lack) => {
            drafts.abandon(files);
            lack_end(lack)
        }
    }
}
