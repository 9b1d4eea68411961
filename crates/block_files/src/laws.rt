// What stays while blocks are written that were free.
ghost use Rattle.block_files.specs.Laws.{ImagesKeepUsed, ReadsKeepUsed};

use disks::Disk;

/// While only blocks are written that were free, each content in used blocks stays: in each image
/// that a stop may leave, at each moment, and in what reads give.
pub fn used_contents_stay<D: Disk>()
    ensures images { ImagesKeepUsed D.Disk }
    ensures reads { ReadsKeepUsed D.Disk }
{}
