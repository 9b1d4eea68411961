// What holds of journals, of an open log, and of what is written behind the halves.
ghost use Rattle.journal.specs.Laws.{IsOne, StaysOutside, StaysBehind, AppendsBefore, TurnsBefore, UsesBytes, IsEachJournal, StaysOpenRead, StaysOpenBehind, StaysOpenFront};

use disks::Disk;

/// An image is one journal at most, and what stands behind the halves is no part of it.
pub fn an_image_is_one_journal()
    ensures one { IsOne }
    ensures stays { StaysOutside }
{}

/// An append and a checkpoint leave what stands behind the halves.
pub fn blocks_stay()
    ensures stays { StaysBehind }
    ensures append { AppendsBefore }
    ensures checkpoint { TurnsBefore }
{}

/// An open log stays open while the disk is read, and while only what stands behind the halves is
/// written. Each image is its journal all the while.
pub fn an_open_log_stays_open<D: Disk>()
    ensures used { UsesBytes D.Disk }
    ensures each { IsEachJournal D.Disk }
    ensures read { StaysOpenRead D.Disk }
    ensures behind { StaysOpenBehind D.Disk }
    ensures front { StaysOpenFront D.Disk }
{}
