// What holds of images and of an open log, with no code.
ghost use Rattle.table_log.specs.Laws.{HasLimits, NewReads, NoneReads, ReadsAsOne, ReadsEach, ReadsOutside, StaysAsBehind, StaysAsFront, StaysAsRead};

use disks::Disk;
use table_codec::tables_are_spelled_once;

/// An image reads as one room and one tables at most, the room is one that a journal may have, and
/// what stands behind the halves is not read.
pub fn an_image_reads_as_one()
    ensures one { ReadsAsOne }
    ensures limits { HasLimits }
    ensures outside { ReadsOutside }
{
    tables_are_spelled_once();
}

/// A new journal reads as the empty tables, and what is no journal as none.
pub fn new_journals_read()
    ensures new { NewReads }
    ensures none { NoneReads }
{}

/// Each image of a log that is open as tables reads as them. It stays open so while the disk is
/// read, and while only what stands behind the halves is written.
pub fn a_log_stays_open_as_tables<D: Disk>()
    ensures each { ReadsEach D.Disk }
    ensures read { StaysAsRead D.Disk }
    ensures behind { StaysAsBehind D.Disk }
    ensures front { StaysAsFront D.Disk }
{}
