// What stays while drafts are written.
ghost use Rattle.file_store.specs.Laws.{FreedContentStays, ImagesKeepContents, ImagesKeepFronts};

use disks::Disk;

/// A content that was freed stays while drafts are written, until its blocks are handed out again.
pub fn freed_contents_stay()
    ensures { FreedContentStays }
{}

/// While blocks are written, each image that a stop may leave, at each moment, keeps the contents
/// that stand in other blocks, and what stands before the first block.
pub fn images_stay<D: Disk>()
    ensures contents { ImagesKeepContents D.Disk }
    ensures fronts { ImagesKeepFronts D.Disk }
{}
