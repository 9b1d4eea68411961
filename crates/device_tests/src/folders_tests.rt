// What no clause says of the folder in memory: that calls succeed, and worked values.
use crate::made::{all_right, bytes, numbers, same};
use folders::{Folder, FolderFault, Found, Held, MemFolder, are_distinct};
use small_types::{Bytes, List, Name};
use std::alloc::Global;
use std::test::Fail;

// A call of a folder and what it answers, or what is then found.
#[derive(Drop)]
enum Step {
    // The names in the folder, each with a bar behind it.
    List(Result<&'static [u8], FolderFault>),
    // The bytes of the file, or a bar where there is none.
    Get(&'static [u8], Result<&'static [u8], FolderFault>),
    // Whether there is the file to read into the buffer, and what the buffer has where there is one.
    GetInto(&'static [u8], Result<bool, FolderFault>),
    // The same of a file of at most so many bytes.
    GetWithin(&'static [u8], u64, Result<Found, FolderFault>),
    Buffer(&'static [u8]),
    Put(&'static [u8], &'static [u8], Result<(), FolderFault>),
    Faults(u64),
}

fn named(alloc: Global, name: &[u8]) -> Result<Name, FolderFault> {
    Name::read(alloc, name).ok().ok_or(FolderFault::Failed)
}

fn held(alloc: Global, name: &[u8], content: &[u8]) -> Result<Held, FolderFault> {
    Ok(Held {
        name: named(alloc, name)?,
        bytes: bytes(alloc, content)?,
    })
}

fn two_files(alloc: Global) -> Result<List<Held>, FolderFault> {
    let mut files = Vec::new(alloc);
    files.push(held(alloc, b"b", b"1")?)?;
    files.push(held(alloc, b"a/x", b"2")?)?;
    Ok(List::from_vec(files))
}

// The names in the folder, each with a bar behind it.
fn list<F: Folder>(alloc: Global, folder: &mut F) -> Result<Vec<u8>, FolderFault> {
    let names = folder.list(alloc)?;
    let mut made = Vec::new(alloc);
    for name in names.as_slice() {
        made.extend_from_slice(name.as_bytes())?;
        made.push(b'|')?;
    }
    Ok(made)
}

// The bytes of the file, or a bar where there is none.
fn get<F: Folder>(alloc: Global, folder: &mut F, name: &[u8]) -> Result<Vec<u8>, FolderFault> {
    let name = named(alloc, name)?;
    match folder.get(alloc, &name)? {
        Some(bytes) => Ok(bytes.into_vec()),
        None => Ok(b"|".to_vec(alloc)?),
    }
}

fn get_into<F: Folder>(
    alloc: Global,
    folder: &mut F,
    name: &[u8],
    into: &mut Bytes,
) -> Result<bool, FolderFault> {
    let name = named(alloc, name)?;
    folder.get_into(alloc, &name, into)
}

fn get_within<F: Folder>(
    alloc: Global,
    folder: &mut F,
    name: &[u8],
    limit: u64,
    into: &mut Bytes,
) -> Result<Found, FolderFault> {
    let name = named(alloc, name)?;
    folder.get_within(alloc, &name, limit, into)
}

fn put<F: Folder>(
    alloc: Global,
    folder: &mut F,
    name: &[u8],
    bytes: &[u8],
) -> Result<(), FolderFault> {
    let name = named(alloc, name)?;
    folder.put(&name, bytes)
}

fn gives(got: Result<Vec<u8>, FolderFault>, want: &Result<&'static [u8], FolderFault>) -> bool {
    match (got, want) {
        (Ok(bytes), Ok(want)) => same(&bytes, want),
        (Err(fault), Err(want)) => fault == *want,
        _ => false,
    }
}

// Whether the step answers what it is to.
fn answers<F: Folder>(alloc: Global, folder: &mut F, buffer: &mut Bytes, step: &Step) -> bool {
    match step {
        Step::List(want) => gives(list(alloc, folder), want),
        Step::Get(name, want) => gives(get(alloc, folder, name), want),
        Step::GetInto(name, want) => get_into(alloc, folder, name, buffer) == *want,
        Step::GetWithin(name, limit, want) => {
            get_within(alloc, folder, name, *limit, buffer) == *want
        }
        Step::Buffer(want) => same(buffer.as_slice(), want),
        Step::Put(name, bytes, want) => put(alloc, folder, name, bytes) == *want,
        Step::Faults(want) => folder.faults() == *want,
    }
}

// The number of the first step that answers something else.
fn first_wrong<F: Folder>(
    alloc: Global,
    folder: &mut F,
    buffer: &mut Bytes,
    steps: &[Step],
) -> Option<usize> {
    for (number, step) in steps.iter().enumerate() {
        if !answers(alloc, folder, buffer, step) {
            return Some(number);
        }
    }
    None
}

// A folder with two files, of which the calls with those numbers fail.
fn folder_of(alloc: Global, failing: &[u64]) -> Result<MemFolder, FolderFault> {
    let files = two_files(alloc)?;
    if !are_distinct(files.as_slice()) {
        return Err(FolderFault::Memory);
    }
    Ok(MemFolder::new(alloc, files, numbers(alloc, failing)?))
}

// The number of the first step that answers something else in such a folder.
fn begin_and_go(
    alloc: Global,
    failing: &[u64],
    steps: &[Step],
) -> Result<Option<usize>, FolderFault> {
    let mut buffer = bytes(alloc, b"before")?;
    let mut folder = folder_of(alloc, failing)?;
    let wrong = first_wrong(alloc, &mut folder, &mut buffer, steps);
    drop(folder);
    Ok(wrong)
}

const FAILED: FolderFault = FolderFault::Failed;

const WORKS: &[Step] = &[
    Step::List(Ok(b"a/x|b|")),
    Step::Get(b"b", Ok(b"1")),
    Step::Get(b"c", Ok(b"|")),
    Step::Put(b"b", b"3", Ok(())),
    Step::Put(b"a", b"", Ok(())),
    Step::List(Ok(b"a|a/x|b|")),
    Step::Get(b"b", Ok(b"3")),
    Step::Get(b"a", Ok(b"")),
    Step::Get(b"a/x", Ok(b"2")),
    Step::Faults(0),
];

const READS_INTO_A_BUFFER: &[Step] = &[
    Step::GetInto(b"b", Ok(true)),
    Step::Buffer(b"1"),
    Step::GetInto(b"c", Ok(false)),
    Step::GetInto(b"b", Err(FAILED)),
    Step::GetInto(b"a/x", Ok(true)),
    Step::Buffer(b"2"),
];

const READS_WITHIN_A_LIMIT: &[Step] = &[
    Step::GetWithin(b"c", 0, Ok(Found::Nothing)),
    Step::GetWithin(b"b", 1, Ok(Found::Whole)),
    Step::Buffer(b"1"),
    Step::GetWithin(b"a/x", 0, Ok(Found::TooLong { length: 1 })),
    Step::GetWithin(b"a/x", 9, Ok(Found::Whole)),
    Step::Buffer(b"2"),
    Step::GetWithin(b"b", 1, Err(FAILED)),
    Step::Put(b"b", b"345", Ok(())),
    Step::GetWithin(b"b", 2, Ok(Found::TooLong { length: 3 })),
    Step::GetWithin(b"b", 3, Ok(Found::Whole)),
    Step::Buffer(b"345"),
];

const FAILS: &[Step] = &[
    Step::List(Err(FAILED)),
    Step::List(Ok(b"a/x|b|")),
    Step::Put(b"b", b"3", Err(FAILED)),
    Step::Get(b"b", Ok(b"1")),
    Step::Get(b"b", Err(FAILED)),
    Step::Faults(3),
];

// The name, the calls that fail, and the steps.
const CASES: &[(&str, &[u64], &[Step])] = &[
    ("works", &[], WORKS),
    ("buffer", &[3], READS_INTO_A_BUFFER),
    ("limit", &[5], READS_WITHIN_A_LIMIT),
    ("fails", &[1, 3, 5], FAILS),
];

#[test]
fn folder_answers_step_by_step(rt: HostRuntime) -> Result<(), Fail> {
    for (name, failing, steps) in CASES {
        all_right(&rt, name, begin_and_go(rt.alloc(), failing, steps)?);
    }
    Ok(())
}
