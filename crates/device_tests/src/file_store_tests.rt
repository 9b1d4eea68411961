// What no clause says of a file store, and of a draft as a basket: that their calls answer, and
// worked values.
ghost use Rattle.std.specs.Prelude.{◌≡◌, ◌∷◌, ◌++◌, [], length, IfOk, OnOk};
ghost use Rattle.file_store.specs.Stores.{AreUsed, draft_blocks, filled_of, draft_size};

use crate::made::{bytes, numbers};
use disks::{Disk, MemDisk};
use draft_basket::{DraftBasket, fill_draft};
use file_store::{Draft, FileFault, FileStore, freed_contents_stay, images_stay};
use links::{Basket, BasketFault};
use small_types::List;
use std::alloc::{AllocError, AllocFailed, Global};
use std::test::Fail;

// So many bytes of a content from a place on. They go up from 0 to 250, and begin again.
fn content_of(alloc: Global, from: usize, size: usize) -> Result<Vec<u8>, AllocError>
    ensures { IfOk result (λ made. length made.items ≡ size) }
{
    let mut made = vec![in alloc; 0; size]?;
    for (place, byte) in made.iter_mut().enumerate() {
        *byte = ((from % 251 + place % 251) % 251) as u8;
    }
    Ok(made)
}

// An empty disk whose calls of these numbers fail, counted from 1.
fn disk_of(alloc: Global, failing: &[u64]) -> Result<MemDisk, AllocError> {
    Ok(MemDisk::new(alloc, bytes(alloc, &[])?, numbers(alloc, failing)?))
}

// A store of 8 blocks from the place 100 on, of which block 1 is in use.
fn store_of(alloc: Global) -> Result<FileStore, FileFault> {
    let taken = List::from_vec([1].to_vec(alloc)?);
    FileStore::new(alloc, 8, 100, &taken)
}

// The calls of changes and syncs, and the bytes that they were handed.
fn costs(disk: &MemDisk) -> (u64, u64) {
    (disk.calls(), disk.written())
}

// Whether these are the blocks.
fn are(blocks: &List<u32>, want: &[u32]) -> bool {
    blocks.as_slice() == want
}

// A content of 5,000 bytes, whole and in two pieces.
#[derive(Drop)]
struct Content {
    whole: Vec<u8>,
    front: Vec<u8>,
    back: Vec<u8>,
    ghost whole_size: { length whole.items ≡ 5000 },
    ghost front_size: { length front.items ≡ 3000 },
    ghost back_size: { length back.items ≡ 2000 },
}

fn made_content(alloc: Global) -> Result<Content, AllocError> {
    let whole = content_of(alloc, 0, 5_000)?;
    let front = content_of(alloc, 0, 3_000)?;
    let back = content_of(alloc, 3_000, 2_000)?;
    Ok(Content { whole, front, back })
}

// Writes the content in two pieces, then again in one, and answers what each cost.
fn write_twice(
    store: &mut FileStore,
    disk: &mut MemDisk,
    draft: &mut Draft,
    content: &Content,
) -> Result<[(u64, u64); 2], FileFault>
    requires empty { filled_of draft.old ≡ 0 }
    requires size { draft_size draft.old ≡ 5000 }
    ensures filled { OnOk result (filled_of draft.new ≡ 5000) }
    ensures size { draft_size draft.new ≡ draft_size draft.old }
    ensures blocks { draft_blocks draft.new ≡ draft_blocks draft.old }
    ensures store { store.new ≡ store.old }
{
    store.store_piece(disk, draft, &content.front)?;
    store.store_piece(disk, draft, &content.back)?;
    let pieces = costs(disk);
    store.restart(draft);
    store.store_piece(disk, draft, &content.whole)?;
    Ok([pieces, costs(disk)])
}

// Whether the bytes of the content from a place on are read so, into a buffer of 200 bytes.
fn reads(
    store: &FileStore,
    disk: &mut MemDisk,
    blocks: &List<u32>,
    from: usize,
    content: &[u8],
) -> Result<bool, FileFault>
    requires { length blocks.now ≡ 2 }
{
    let mut buf = [7; 200];
    let n = store.read_content(disk, blocks, 5_000, from as u64, &mut buf)?;
    let rest = content.get(from..).unwrap_or(&[]);
    Ok(n == rest.len().min(200) && rest.starts_with(&buf[..n]))
}

// Writes the content, seals it, reads it in three places, and gives its blocks back. The number of
// the first step that came to something else.
fn one_content(
    alloc: Global,
    store: &mut FileStore,
    disk: &mut MemDisk,
    content: &Content,
) -> Result<Option<usize>, FileFault> {
    let free = store.free();
    let mut draft = store.begin(alloc, 5_000)?;
    let spent = write_twice(store, disk, &mut draft, content)?;
    let blocks = store.seal(disk, draft)?;
    let steps = [
        free == 7,
        store.free() == 5,
        are(&blocks, &[0, 2]),
        spent[0] == (3, 5_000),
        spent[1] == (5, 10_000),
        costs(disk) == (6, 10_000),
        reads(store, disk, &blocks, 4_000, &content.whole)?,
        reads(store, disk, &blocks, 4_900, &content.whole)?,
        reads(store, disk, &blocks, 5_000, &content.whole)?,
    ];
    store.release_blocks(&blocks);
    if store.free() != 7 {
        return Ok(Some(9));
    }
    Ok(steps.iter().position(|right| !*right))
}

// The same of a new store on an empty disk.
fn first_wrong(alloc: Global) -> Result<Option<usize>, FileFault> {
    let content = made_content(alloc)?;
    let mut store = store_of(alloc)?;
    let mut disk = disk_of(alloc, &[])?;
    let wrong = one_content(alloc, &mut store, &mut disk, &content);
    drop(disk);
    wrong
}

#[test]
fn a_content_goes_into_its_blocks(rt: HostRuntime) -> Result<(), Fail> {
    freed_contents_stay();
    images_stay::<MemDisk>();
    let wrong = first_wrong(rt.alloc())?;
    assert!(rt; wrong == None);
    Ok(())
}

// Both drafts in a list.
fn both(alloc: Global, first: Draft, second: Draft) -> Result<List<Draft>, FileFault>
    ensures { IfOk result (λ drafts. drafts ≡ first ∷ second ∷ []) }
{
    match vec![in alloc; first, second] {
        Ok(drafts) => Ok(List::from_vec(drafts)),
        Err(AllocFailed { .. }) => Err(FileFault::Memory),
    }
}

// Whether both drafts were sealed by one sync.
fn seal_both(
    alloc: Global,
    store: &mut FileStore,
    disk: &mut MemDisk,
    first: Draft,
    second: Draft,
) -> Result<bool, FileFault>
    requires first { filled_of first ≡ draft_size first }
    requires second { filled_of second ≡ draft_size second }
    requires used { AreUsed store.old (draft_blocks first ++ draft_blocks second) }
{
    let drafts = both(alloc, first, second)?;
    let result = store.seal_all(disk, drafts);
    let is_sealed = result.is_ok();
    drop(result);
    Ok(is_sealed)
}

// Whether drafts of 3,000 and of 2,000 bytes are sealed together, how many blocks are free before
// and then, and what it cost.
fn sealed(
    alloc: Global,
    store: &mut FileStore,
    disk: &mut MemDisk,
    content: &Content,
) -> Result<(bool, [u64; 4]), FileFault> {
    let mut first = store.begin(alloc, 3_000)?;
    let mut second = store.begin(alloc, 2_000)?;
    store.store_piece(disk, &mut first, &content.front)?;
    store.store_piece(disk, &mut second, &content.back)?;
    let before = store.free();
    let is_sealed = seal_both(alloc, store, disk, first, second)?;
    let (calls, written) = costs(disk);
    Ok((is_sealed, [before, store.free(), calls, written]))
}

// The same on a disk whose call of that number fails.
fn sealed_with(alloc: Global, failing: u64) -> Result<(bool, [u64; 4]), FileFault> {
    let content = made_content(alloc)?;
    let mut store = store_of(alloc)?;
    let mut disk = disk_of(alloc, &[failing])?;
    let found = sealed(alloc, &mut store, &mut disk, &content);
    drop(disk);
    found
}

#[test]
fn one_sync_seals_several_drafts(rt: HostRuntime) -> Result<(), Fail> {
    // Two writes and a sync. Where it fails the blocks are free again.
    assert!(rt; sealed_with(rt.alloc(), 0)? == (true, [5, 5, 3, 5_000]));
    assert!(rt; sealed_with(rt.alloc(), 3)? == (false, [5, 7, 3, 5_000]));
    Ok(())
}

// Hands a draft of 10 bytes pieces by way of a basket, and fills it anew. The second and the fourth
// call of the disk are to fail. The number of the first step that came to something else.
fn basket_steps(
    alloc: Global,
    store: &mut FileStore,
    disk: &mut MemDisk,
) -> Result<Option<usize>, FileFault> {
    let mut draft = store.begin(alloc, 10)?;
    let mut basket = DraftBasket::new(disk, store, &mut draft);
    let first = basket.take(b"abcdef") == Ok(());
    let fails = basket.take(b"ghij") == Err(BasketFault::Failed) && basket.faults() == 1;
    // More than the draft has room for, and then no other piece.
    let past = basket.take(b"ghijk") == Ok(()) && basket.take(b"l") == Ok(());
    let kept = draft.filled() == 6 && costs(disk) == (2, 10);
    let filled = fill_draft(store, disk, &mut draft, b"0123456789") == Ok(());
    let broken = fill_draft(store, disk, &mut draft, b"0123") == Err(BasketFault::Failed);
    let steps = [first, fails, past, kept, filled, broken, disk.faults() == 2];
    Ok(steps.iter().position(|right| !*right))
}

fn first_wrong_of_basket(alloc: Global) -> Result<Option<usize>, FileFault> {
    let mut store = store_of(alloc)?;
    let mut disk = disk_of(alloc, &[2, 4])?;
    let wrong = basket_steps(alloc, &mut store, &mut disk);
    drop(disk);
    wrong
}

#[test]
fn a_draft_is_a_basket(rt: HostRuntime) -> Result<(), Fail> {
    let wrong = first_wrong_of_basket(rt.alloc())?;
    assert!(rt; wrong == None);
    Ok(())
}
