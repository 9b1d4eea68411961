// Which tables of a journal, over which bytes, are opened as a store's.
ghost use Rattle.std.specs.Prelude.{◌≡◌, ◌+◌, length, IfOk};

use crate::updater_tests::{ROOM, disk_of, session};
use disks::{Disk, MemDisk};
use journal::{BEFORE, Log, are_limits};
use small_types::limits::NUMBER_LIMIT;
use std::alloc::{AllocError, Global};
use std::test::Fail;
use updater::RecoverFault;

// Tables with nothing in them.
const EMPTY: &[u8] = &[
    0, 0, 0, 0, 0, 0, 0, 0, 0, 0, 0, 0, 0, 0, 0, 1, 0, 0, 0, 0, 0, 0, 0, 1, 0, 0, 0, 0, 0, 0, 0, 0,
    0, 0, 0, 0, 0, 0, 0, 0,
];

// The same with a boot number of 2^62.
const BOOT: &[u8] = &[
    64, 0, 0, 0, 0, 0, 0, 0, 0, 0, 0, 0, 0, 0, 0, 1, 0, 0, 0, 0, 0, 0, 0, 1, 0, 0, 0, 0, 0, 0, 0,
    0, 0, 0, 0, 0, 0, 0, 0, 0,
];

// And of one more.
const BOOT_ABOVE: &[u8] = &[
    64, 0, 0, 0, 0, 0, 0, 1, 0, 0, 0, 0, 0, 0, 0, 1, 0, 0, 0, 0, 0, 0, 0, 1, 0, 0, 0, 0, 0, 0, 0,
    0, 0, 0, 0, 0, 0, 0, 0, 0,
];

// A lease on view 1, which is not there.
const LEASE: &[u8] = &[
    0, 0, 0, 0, 0, 0, 0, 0, 0, 0, 0, 0, 0, 0, 0, 2, 0, 0, 0, 0, 0, 0, 0, 2, 0, 0, 0, 1, 0, 0, 0, 0,
    0, 0, 0, 1, 0, 0, 0, 0, 0, 0, 0, 1, 0, 0, 0, 0, 0, 0, 0, 0, 0, 0, 0, 0,
];

// Tables with one view, up to the path of its address: no lease, its deployment, its application
// with one program file, and the host of its address.
const VIEW: &[u8] = &[
    0, 0, 0, 0, 0, 0, 0, 0, 0, 0, 0, 0, 0, 0, 0, 2, 0, 0, 0, 0, 0, 0, 0, 1, 0, 0, 0, 0, 0, 0, 0, 1,
    0, 0, 0, 0, 0, 0, 0, 1, 0, 0, 0, 1, 97, 0, 0, 0, 1, 116, 0, 0, 0, 1, 108, 0, 0, 0, 1, 120, 0,
    1, 0, 0, 0, 0, 0, 0, 0, 0, 0, 0, 1, 1, 0, 1, 0, 0, 0, 0, 0, 0, 0, 2, 0, 0, 0, 0, 0, 0, 14, 16,
    0, 0, 0, 0, 1, 109, 0, 0, 0, 1, 101, 0, 0, 0, 1, 116, 0, 0, 0, 1, 108, 0, 0, 0, 1, 120, 0, 1,
    0, 0, 0, 0, 0, 0, 0, 0, 0, 5, 119, 105, 110, 51, 50, 0, 0, 0, 0, 0, 0, 0, 3, 0, 0, 0, 1, 0, 0,
    0, 0, 20, 169, 153, 62, 54, 71, 6, 129, 106, 186, 62, 37, 113, 120, 80, 194, 108, 156, 208,
    216, 157, 0, 0, 0, 1, 101, 0, 0, 0, 1, 116, 0, 0, 0, 1, 108, 0, 0, 0, 1, 120, 0, 1, 0, 0, 0, 0,
    0, 0, 0, 0, 0, 5, 119, 105, 110, 51, 50, 0, 0, 0, 1, 102, 0, 0, 0, 0, 0, 0, 0, 1, 0, 0, 0, 1,
    102, 0, 0, 0, 0, 0, 0, 0, 3, 0, 0, 0, 1, 0, 0, 0, 0, 20, 169, 153, 62, 54, 71, 6, 129, 106,
    186, 62, 37, 113, 120, 80, 194, 108, 156, 208, 216, 157, 0, 0, 0, 0, 0, 1, 104, 0, 80,
];

// No group that stands.
const NO_GROUP: &[u8] = &[0, 0, 0, 0];

// Its application, up to the path of the address that updates come from.
const APP: &[u8] = &[
    0, 0, 0, 1, 0, 0, 0, 1, 97, 0, 0, 0, 1, 116, 0, 0, 0, 1, 108, 0, 0, 0, 1, 120, 1, 0, 0, 0, 1,
    104, 0, 80,
];

// What is known of it behind that.
const KNOWN: &[u8] = &[1, 0, 0, 0, 0, 0, 0, 0, 1, 0, 0, 0, 0, 0, 0, 0];

// The digest of the content of the program file, which has three bytes.
const DIGEST: &[u8] = &[
    0, 0, 0, 1, 0, 0, 0, 0, 20, 169, 153, 62, 54, 71, 6, 129, 106, 186, 62, 37, 113, 120, 80, 194,
    108, 156, 208, 216, 157,
];

// A data file: its name, its length and its blocks.
type Data = (u8, u64, &'static [u32]);

// A content with the digest: its length and its blocks.
type Held = (u64, &'static [u32]);

// Tables of an opening: those bytes, or tables with the view.
#[derive(Clone, Copy)]
enum Text {
    Bytes(&'static [u8]),
    // With these data files, and a content in the block 0.
    Data(&'static [Data]),
    // With these contents.
    Contents(&'static [Held]),
    // With paths of so many bytes in its address and in that of its application, 3,283 empty data
    // files with names of 235 bytes, and these data files.
    Heavy(u32, u32, &'static [Data]),
}

// What differs of tables with the view.
#[derive(Clone, Copy)]
struct Form {
    path: u32,
    app_path: u32,
    empty: u32,
    data: &'static [Data],
    contents: &'static [Held],
}

// Paths of two bytes, and a content in the block 0.
const PLAIN: Form = Form {
    path: 2,
    app_path: 2,
    empty: 0,
    data: &[],
    contents: &[(3, &[0])],
};

fn form_of(text: Text) -> Form {
    let mut form = PLAIN;
    match text {
        Text::Bytes(_) => {}
        Text::Data(data) => form.data = data,
        Text::Contents(contents) => form.contents = contents,
        Text::Heavy(path, app_path, data) => {
            form.path = path;
            form.app_path = app_path;
            form.empty = 3_283;
            form.data = data;
        }
    }
    form
}

fn push_path(text: &mut Vec<u8>, length: u32) -> Result<(), AllocError> {
    text.extend_from_slice(&length.to_be_bytes())?;
    let end = text.len().saturating_add(length as usize);
    text.resize(end, b'/')?;
    Ok(())
}

// How many items there are, where they are few.
fn count_of(length: usize) -> u32 {
    if length < 65_536 {
        length as u32
    } else {
        65_536
    }
}

// The blocks that a file has.
fn push_blocks(text: &mut Vec<u8>, blocks: &[u32]) -> Result<(), AllocError> {
    text.extend_from_slice(&count_of(blocks.len()).to_be_bytes())?;
    for block in blocks {
        text.extend_from_slice(&block.to_be_bytes())?;
    }
    Ok(())
}

// An empty data file, below `.pre`, where there may be any number: its name has its number, in four
// digits, and further letters.
fn push_empty(text: &mut Vec<u8>, number: u32) -> Result<(), AllocError> {
    text.extend_from_slice(&235u32.to_be_bytes())?;
    text.extend_from_slice(b".pre/")?;
    for digit in [
        number / 1_000,
        number / 100 % 10,
        number / 10 % 10,
        number % 10,
    ] {
        text.push(b'0'.saturating_add((digit % 10) as u8))?;
    }
    let end = text.len().saturating_add(226);
    text.resize(end, b'e')?;
    text.extend_from_slice(&[0; 12])?;
    Ok(())
}

// The data files of the view.
fn push_data(text: &mut Vec<u8>, form: &Form) -> Result<(), AllocError> {
    let count = form.empty.saturating_add(count_of(form.data.len()));
    text.extend_from_slice(&count.to_be_bytes())?;
    for number in 0..form.empty {
        push_empty(text, number)?;
    }
    for (name, length, blocks) in form.data {
        text.extend_from_slice(&[0, 0, 0, 1, *name])?;
        text.extend_from_slice(&length.to_be_bytes())?;
        push_blocks(text, blocks)?;
    }
    Ok(())
}

fn push_contents(text: &mut Vec<u8>, contents: &[Held]) -> Result<(), AllocError> {
    text.extend_from_slice(&count_of(contents.len()).to_be_bytes())?;
    for (size, blocks) in contents {
        text.extend_from_slice(&size.to_be_bytes())?;
        text.extend_from_slice(DIGEST)?;
        push_blocks(text, blocks)?;
    }
    Ok(())
}

fn view_of(alloc: Global, form: &Form) -> Result<Vec<u8>, AllocError> {
    let mut made = VIEW.to_vec(alloc)?;
    push_path(&mut made, form.path)?;
    made.extend_from_slice(NO_GROUP)?;
    push_data(&mut made, form)?;
    made.extend_from_slice(APP)?;
    push_path(&mut made, form.app_path)?;
    made.extend_from_slice(KNOWN)?;
    push_contents(&mut made, form.contents)?;
    Ok(made)
}

fn text_of(alloc: Global, text: Text) -> Result<Vec<u8>, AllocError> {
    match text {
        Text::Bytes(bytes) => Ok(bytes.to_vec(alloc)?),
        _ => view_of(alloc, &form_of(text)),
    }
}

// A disk with a new journal of so many blocks and of these tables, and so many bytes behind it.
fn journal_of(alloc: Global, blocks: u64, text: &[u8], behind: usize) -> Result<MemDisk, Fail> {
    let mut disk = disk_of(alloc, &[], 0)?;
    if are_limits(blocks, ROOM.half) {
        Log::format(alloc, &mut disk, blocks, ROOM.half, text)?;
    }
    let bytes = disk.bytes().to_vec(alloc);
    drop(disk);
    let mut bytes = bytes?;
    bytes.resize(START.saturating_add(behind), 0)?;
    disk_of(alloc, &bytes, 0)
}

// What opening a new disk with that boot number comes to: whether it has a store, how many calls of
// the disk were made, and how many bytes were written.
fn seen_on(alloc: Global, disk: &mut MemDisk, boot: u64) -> Result<(bool, u64, u64), Fail> {
    let found = session(alloc, disk, boot.min(NUMBER_LIMIT), &[]);
    let calls = disk.calls();
    let written = disk.written();
    match found {
        Ok(_) => Ok((true, calls, written)),
        Err(RecoverFault::NotAStore) => Ok((false, calls, written)),
        Err(fault) => Err(Fail::from(fault)),
    }
}

// The same of a new journal.
fn opened(
    alloc: Global,
    blocks: u64,
    text: &[u8],
    behind: usize,
    boot: u64,
) -> Result<(bool, u64, u64), Fail> {
    let mut disk = journal_of(alloc, blocks, text, behind)?;
    let found = seen_on(alloc, &mut disk, boot);
    drop(disk);
    found
}

// What stands before the blocks: the head and two halves.
const START: usize = 2_101_248;

// The name, the blocks, the tables, how many bytes stand behind the journal, the boot number, and
// whether that is a store.
type Row = (&'static str, u64, Text, usize, u64, bool);

// The view weighs 1,260 with paths of 2 and no data file, its application 263 and the content of the
// program file 100, all beside 131,072. That is 132,695. A half of 1,048,576 bytes has room for
// 983,040, which is 850,345 more: 3,283 data files of 259 each, and 48.
const ROWS: &[Row] = &[
    ("nothing", 1, Text::Bytes(EMPTY), 0, 0, true),
    (
        "1,048,576 blocks",
        1_048_576,
        Text::Bytes(EMPTY),
        0,
        0,
        true,
    ),
    (
        "a boot number of 2^62",
        1,
        Text::Bytes(BOOT),
        0,
        NUMBER_LIMIT,
        true,
    ),
    ("one above", 1, Text::Bytes(BOOT_ABOVE), 0, 0, false),
    ("a lease of no view", 1, Text::Bytes(LEASE), 0, 0, false),
    ("a content", 1, Text::Contents(&[(3, &[0])]), 3, 0, true),
    (
        "a content that ends too soon",
        1,
        Text::Contents(&[(3, &[0])]),
        2,
        0,
        false,
    ),
    (
        "a content of another size",
        1,
        Text::Contents(&[(2, &[0])]),
        4_096,
        0,
        false,
    ),
    (
        "a content without its block",
        1,
        Text::Contents(&[(3, &[])]),
        4_096,
        0,
        false,
    ),
    (
        "a content with a block more",
        2,
        Text::Contents(&[(3, &[0, 1])]),
        8_192,
        0,
        false,
    ),
    (
        "a content of nobody beside it",
        2,
        Text::Contents(&[(3, &[0]), (2, &[1])]),
        8_192,
        0,
        false,
    ),
    (
        "the same content twice",
        2,
        Text::Contents(&[(3, &[0]), (3, &[1])]),
        8_192,
        0,
        false,
    ),
    (
        "all blocks in use",
        3,
        Text::Data(&[(b'd', 8_192, &[2, 1])]),
        12_288,
        0,
        true,
    ),
    (
        "the last one ends too soon",
        3,
        Text::Data(&[(b'd', 8_192, &[2, 1])]),
        12_287,
        0,
        false,
    ),
    (
        "the last one is not full",
        3,
        Text::Data(&[(b'd', 8_191, &[1, 2])]),
        12_287,
        0,
        true,
    ),
    (
        "its last byte is missing",
        3,
        Text::Data(&[(b'd', 8_191, &[1, 2])]),
        12_286,
        0,
        false,
    ),
    (
        "a block that is none",
        3,
        Text::Data(&[(b'd', 8_192, &[3, 1])]),
        16_384,
        0,
        false,
    ),
    (
        "the greatest number",
        3,
        Text::Data(&[(b'd', 1, &[4_294_967_295])]),
        16_384,
        0,
        false,
    ),
    (
        "a block twice in a file",
        3,
        Text::Data(&[(b'd', 8_192, &[1, 1])]),
        12_288,
        0,
        false,
    ),
    (
        "a block in two files",
        3,
        Text::Data(&[(b'd', 1, &[1]), (b'e', 1, &[1])]),
        12_288,
        0,
        false,
    ),
    (
        "two files",
        3,
        Text::Data(&[(b'd', 1, &[1]), (b'e', 1, &[2])]),
        12_288,
        0,
        true,
    ),
    (
        "the block of the content",
        3,
        Text::Data(&[(b'd', 1, &[0])]),
        12_288,
        0,
        false,
    ),
    (
        "a block too few",
        3,
        Text::Data(&[(b'd', 4_097, &[1])]),
        12_288,
        0,
        false,
    ),
    (
        "a block too many",
        3,
        Text::Data(&[(b'd', 4_096, &[1, 2])]),
        12_288,
        0,
        false,
    ),
    (
        "more blocks than there are",
        2,
        Text::Data(&[(b'd', 4_097, &[1, 2])]),
        12_288,
        0,
        false,
    ),
    (
        "names out of order",
        3,
        Text::Data(&[(b'e', 0, &[]), (b'd', 0, &[])]),
        4_096,
        0,
        false,
    ),
    (
        "a name twice",
        3,
        Text::Data(&[(b'd', 0, &[]), (b'd', 0, &[])]),
        4_096,
        0,
        false,
    ),
    (
        "as heavy as may be",
        300,
        Text::Heavy(50, 2, &[]),
        4_096,
        0,
        true,
    ),
    (
        "a byte heavier",
        300,
        Text::Heavy(50, 3, &[]),
        4_096,
        0,
        false,
    ),
    (
        "a block heavier",
        300,
        Text::Heavy(22, 2, &[(b'd', 1, &[1])]),
        8_192,
        0,
        false,
    ),
    (
        "as heavy as may be, with a block",
        300,
        Text::Heavy(21, 2, &[(b'd', 1, &[1])]),
        8_192,
        0,
        true,
    ),
];

#[test]
fn tables_of_a_store_are_opened(rt: HostRuntime) -> Result<(), Fail> {
    for (name, blocks, text, behind, boot, is_store) in ROWS {
        let text = text_of(rt.alloc(), *text)?;
        // The sync of the opening, and nothing is written.
        let found = opened(rt.alloc(), *blocks, &text, *behind, *boot)?;
        assert!(rt; found == (*is_store, 1, 0), "{name}");
    }
    Ok(())
}

// What an entry behind the tables says of a data file of the view: that it is put with that length
// into these blocks, or that it is removed.
#[derive(Clone, Copy)]
enum Act {
    Put(u8, u64, &'static [u32]),
    Remove(u8),
}

fn change_of(alloc: Global, act: Act) -> Result<Vec<u8>, AllocError> {
    match act {
        Act::Put(name, length, blocks) => {
            let mut made = [10, 0, 0, 0, 0, 0, 0, 0, 1, 0, 0, 0, 1, name].to_vec(alloc)?;
            made.extend_from_slice(&length.to_be_bytes())?;
            push_blocks(&mut made, blocks)?;
            Ok(made)
        }
        Act::Remove(name) => Ok([11, 0, 0, 0, 0, 0, 0, 0, 1, 0, 0, 0, 1, name].to_vec(alloc)?),
    }
}

// A piece with room for the journal's bytes around the change.
fn piece_of(alloc: Global, change: &[u8]) -> Result<Vec<u8>, AllocError>
    ensures { IfOk result (λ piece. length piece.items ≡ 5 + length change.now + 1) }
{
    let mut piece = vec![in alloc; 0u8; BEFORE]?;
    piece.extend_from_slice(change)?;
    piece.push(0)?;
    Ok(piece)
}

// Adds an entry.
fn append(alloc: Global, disk: &mut MemDisk, act: Act) -> Result<(), Fail> {
    let change = change_of(alloc, act)?;
    if change.is_empty() {
        return Ok(());
    }
    let (mut log, _) = Log::recover(alloc, disk)?;
    let mut piece = piece_of(alloc, &change)?;
    log.append(disk, &mut piece)?;
    Ok(())
}

// The data file of the tables that entries stand behind.
const DATA: &[Data] = &[(b'd', 1, &[1])];

// A disk with a journal of three blocks, of tables with a content in the block 0 and a data file in
// the block 1, and of these entries, and so many bytes behind it.
fn changed(alloc: Global, acts: &[Act], behind: usize) -> Result<MemDisk, Fail> {
    let text = text_of(alloc, Text::Data(DATA))?;
    let mut disk = journal_of(alloc, 3, &text, behind)?;
    for act in acts {
        append(alloc, &mut disk, *act)?;
    }
    let bytes = disk.bytes().to_vec(alloc);
    drop(disk);
    let bytes = bytes?;
    disk_of(alloc, &bytes, 0)
}

// The name, the entries, how many bytes stand behind the journal, and whether that is a store.
type Changed = (&'static str, &'static [Act], usize, bool);

// An entry may name any blocks: what all entries lead to is judged.
const CHANGED: &[Changed] = &[
    ("a put", &[Act::Put(b'e', 1, &[2])], 12_288, true),
    (
        "one of too few blocks",
        &[Act::Put(b'e', 4_097, &[2])],
        12_288,
        false,
    ),
    (
        "a removal behind it",
        &[Act::Put(b'e', 4_097, &[2]), Act::Remove(b'e')],
        12_288,
        true,
    ),
    (
        "a put behind it",
        &[Act::Put(b'e', 4_097, &[2]), Act::Put(b'e', 4_096, &[2])],
        12_288,
        true,
    ),
    (
        "a put in the block of another file",
        &[Act::Put(b'e', 1, &[1])],
        12_288,
        false,
    ),
    (
        "a removal behind that",
        &[Act::Put(b'e', 1, &[1]), Act::Remove(b'e')],
        12_288,
        true,
    ),
    (
        "a removal of the other file",
        &[Act::Put(b'e', 1, &[1]), Act::Remove(b'd')],
        12_288,
        true,
    ),
    (
        "a put in its own block",
        &[Act::Put(b'd', 2, &[1])],
        12_288,
        true,
    ),
    (
        "a put in the block of the content",
        &[Act::Put(b'e', 1, &[0])],
        12_288,
        false,
    ),
    (
        "and a removal",
        &[Act::Put(b'e', 1, &[0]), Act::Remove(b'e')],
        12_288,
        true,
    ),
    (
        "a put in a block that is none",
        &[Act::Put(b'e', 1, &[3])],
        16_384,
        false,
    ),
    (
        "and no more",
        &[Act::Put(b'e', 1, &[3]), Act::Remove(b'e')],
        16_384,
        true,
    ),
    (
        "a put that ends too soon",
        &[Act::Put(b'e', 2, &[2])],
        8_193,
        false,
    ),
    (
        "which is put again",
        &[Act::Put(b'e', 2, &[2]), Act::Put(b'e', 1, &[2])],
        8_193,
        true,
    ),
    (
        "which is removed",
        &[Act::Put(b'e', 2, &[2]), Act::Remove(b'e')],
        8_193,
        true,
    ),
];

#[test]
fn what_changes_lead_to_is_judged(rt: HostRuntime) -> Result<(), Fail> {
    for (name, acts, behind, is_store) in CHANGED {
        let mut disk = changed(rt.alloc(), acts, *behind)?;
        let found = seen_on(rt.alloc(), &mut disk, 0)?;
        drop(disk);
        // The sync of the opening, and nothing is written.
        assert!(rt; found == (*is_store, 1, 0), "{name}");
    }
    Ok(())
}

// The name, bytes at their places in a new store, and whether that is one too.
type Edited = (&'static str, &'static [(usize, u8)], bool);

// The sign ends at 8, the half's length at 24; the first half begins at 4,096, and the second one at
// 1,052,672, each with its gate and its serial.
const EDITED: &[Edited] = &[
    ("as it was", &[], true),
    ("the first form", &[(7, b'0')], false),
    ("no half", &[(21, 0)], false),
    ("a half of a byte more", &[(23, 1)], false),
    ("a half of a block less", &[(21, 15), (22, 240)], false),
    (
        "a half above the limit",
        &[(20, 4), (21, 0), (22, 16)],
        false,
    ),
    ("no block", &[(15, 0)], false),
    ("a closed head", &[(64, 0)], false),
    ("both halves closed", &[(4_096, 0)], false),
    ("both open, of one serial", &[(1_052_672, 1)], false),
    (
        "the second one of the next serial, without tables",
        &[(1_052_672, 1), (1_052_673, 1)],
        false,
    ),
    (
        "the second one of the serial before",
        &[(1_052_672, 1), (1_052_673, 2)],
        true,
    ),
    (
        "a serial that is none",
        &[(1_052_672, 1), (1_052_673, 3)],
        false,
    ),
];

// A disk with a new journal of empty tables and one block, in which these bytes stand.
fn edited(alloc: Global, edits: &[(usize, u8)]) -> Result<MemDisk, Fail> {
    let disk = journal_of(alloc, 1, EMPTY, 0)?;
    let bytes = disk.bytes().to_vec(alloc);
    drop(disk);
    let mut bytes = bytes?;
    for (place, byte) in edits {
        if *place < bytes.len() {
            bytes[*place] = *byte;
        }
    }
    disk_of(alloc, &bytes, 0)
}

#[test]
fn other_heads_and_halves_are_no_store(rt: HostRuntime) -> Result<(), Fail> {
    for (name, edits, is_store) in EDITED {
        let mut disk = edited(rt.alloc(), edits)?;
        let found = seen_on(rt.alloc(), &mut disk, 0)?;
        drop(disk);
        // The sync of the opening, and nothing is written.
        assert!(rt; found == (*is_store, 1, 0), "{name}");
    }
    Ok(())
}
