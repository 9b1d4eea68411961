// Whether the files of tables have as many blocks as they need, and whether a disk has all their
// bytes.
ghost use Rattle.std.specs.Prelude.{◌≡◌, ◌↔◌, ◌+◌, ◌≤◌, ℕ, List, All, IsTrue, length};
ghost use Rattle.small_types.specs.declared.limits.TheConstants as limits;
ghost use Rattle.small_types.specs.Blocks.{blocks_start, count_for, place_of};
ghost use Rattle.store_state.specs.Contents.{IsMeasured};
ghost use Rattle.store_state.specs.Measured.{AreMeasured, IsMeasuredLocal};
ghost use Rattle.store_state.specs.Stored.{IsHeldFor};
ghost use Rattle.table_check.specs.Files.{EndsWithin, HasFiles};

use small_types::Room;
use small_types::limits::{BLOCK_SIZE, HEAD_BLOCK_SIZE};
use store_state::{Content, LocalFile, StoreState, Stored, View};

// ---- as many blocks as they need

// How many blocks so many bytes need.
fn count_for(size: u64) -> u64
    ensures { result ≡ count_for size }
{
    size.div_ceil(BLOCK_SIZE as u64)
}

// Whether a file of so many bytes has as many.
fn is_held_for(size: u64, held: &Stored) -> bool
    ensures { IsTrue result ↔ IsHeldFor size held.now }
{
    held.as_slice().len() as u64 == count_for(size)
}

fn are_measured_contents(contents: &[Content]) -> bool
    ensures { IsTrue result ↔ All IsMeasured contents.now }
{
    contents
        .iter()
        .all(|content| is_held_for(content.size, &content.held))
}

fn are_measured_locals(files: &[LocalFile]) -> bool
    ensures { IsTrue result ↔ All IsMeasuredLocal files.now }
{
    files
        .iter()
        .all(|file| is_held_for(file.length, &file.held))
}

// Whether each data file of the view has.
fn is_measured_view(view: &View) -> bool
    ensures { IsTrue result ↔ All IsMeasuredLocal view.now.locals }
{
    are_measured_locals(view.locals.as_slice())
}

fn are_measured_views(views: &[View]) -> bool
    ensures { IsTrue result ↔ All (λ view. All IsMeasuredLocal view.locals) views.now }
{
    views.iter().all(|view| is_measured_view(view))
}

// The same of the tables' own contents and views.
fn has_measured_contents(state: &StoreState) -> bool
    ensures { IsTrue result ↔ All IsMeasured state.now.contents }
{
    are_measured_contents(state.contents.as_slice())
}

fn has_measured_views(state: &StoreState) -> bool
    ensures { IsTrue result ↔ All (λ view. All IsMeasuredLocal view.locals) state.now.views }
{
    are_measured_views(state.views.as_slice())
}

/// Whether each content and each data file of the tables has as many blocks as its length needs. It
/// takes no memory.
pub fn is_measured(state: &StoreState) -> bool
    ensures { IsTrue result ↔ AreMeasured state.now }
{
    has_measured_contents(state) && has_measured_views(state)
}

// ---- all their bytes

// Whether so many bytes from the begin of the block on end within a disk of that length.
fn has_part(start: u64, block: u32, part: u64, disk_length: u64) -> bool
    requires { part ≤ limits.BLOCK_SIZE }
    ensures { IsTrue result ↔ place_of start block + part ≤ disk_length }
{
    start <= disk_length && BLOCK_SIZE as u64 * u64::from(block) + part <= disk_length - start
}

// Whether each of the blocks of a file of so many bytes does, as far as the file goes.
fn ends_within(start: u64, disk_length: u64, size: u64, blocks: &[u32]) -> bool
    ensures { IsTrue result ↔ EndsWithin start disk_length size blocks.now }
{
    let mut left = size;
    for block in blocks {
        let part = left.min(BLOCK_SIZE as u64);
        if !has_part(start, *block, part, disk_length) {
            return false;
        }
        left -= part;
    }
    true
}

// Whether those of a file do that is held so.
fn file_ends_within(start: u64, disk_length: u64, size: u64, held: &Stored) -> bool
    ensures { IsTrue result ↔ EndsWithin start disk_length size held.now }
{
    ends_within(start, disk_length, size, held.as_slice())
}

fn contents_end_within(start: u64, disk_length: u64, contents: &[Content]) -> bool
    ensures { IsTrue result
        ↔ All (λ content. EndsWithin start disk_length content.size content.held) contents.now }
{
    contents.iter().all(|content| file_ends_within(start, disk_length, content.size, &content.held))
}

fn locals_end_within(start: u64, disk_length: u64, files: &[LocalFile]) -> bool
    ensures { IsTrue result
        ↔ All (λ file. EndsWithin start disk_length file.length file.held) files.now }
{
    files.iter().all(|file| file_ends_within(start, disk_length, file.length, &file.held))
}

// Whether each data file of the view does.
fn view_ends_within(start: u64, disk_length: u64, view: &View) -> bool
    ensures { IsTrue result
        ↔ All (λ file. EndsWithin start disk_length file.length file.held) view.now.locals }
{
    locals_end_within(start, disk_length, view.locals.as_slice())
}

fn views_end_within(start: u64, disk_length: u64, views: &[View]) -> bool
    ensures { IsTrue result ↔ All (λ view. All
        (λ file. EndsWithin start disk_length file.length file.held) view.locals) views.now }
{
    views
        .iter()
        .all(|view| view_ends_within(start, disk_length, view))
}

// The same of the tables' own contents and views.
fn has_contents_within(state: &StoreState, start: u64, disk_length: u64) -> bool
    ensures { IsTrue result ↔ All
        (λ content. EndsWithin start disk_length content.size content.held) state.now.contents }
{
    contents_end_within(start, disk_length, state.contents.as_slice())
}

fn has_views_within(state: &StoreState, start: u64, disk_length: u64) -> bool
    ensures { IsTrue result ↔ All (λ view. All
        (λ file. EndsWithin start disk_length file.length file.held) view.locals)
        state.now.views }
{
    views_end_within(start, disk_length, state.views.as_slice())
}

// Where the block 0 begins.
fn blocks_start(half: u64) -> u64
    requires { half ≤ limits.HALF_LIMIT }
    ensures { result ≡ blocks_start half }
{
    HEAD_BLOCK_SIZE as u64 + 2 * half
}

/// Whether a disk of so many bytes has all bytes of the files of the tables, of which each has as
/// many blocks as its length needs: whether each block ends within the disk, as far as its file has
/// bytes in it. It takes no memory, and reads nothing of the disk.
pub fn has_files(state: &StoreState, room: Room, disk_length: u64) -> bool
    requires measured { AreMeasured state.now }
    requires half { room.half ≤ limits.HALF_LIMIT }
    ensures { (image : List ℕ) → length image ≡ disk_length
        → IsTrue result ↔ HasFiles room image state.now }
{
    let start = blocks_start(room.half);
    has_contents_within(state, start, disk_length) && has_views_within(state, start, disk_length)
}
