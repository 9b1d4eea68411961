// What no clause says: that connections are served, and worked words.
use crate::made::{bytes, failing, same};
use connections::MemDoor;
use folders::{Held, MemFolder, are_distinct};
use host_cli::host_run;
use small_types::{Bytes, List, Name, Word};
use std::alloc::{AllocError, Global};
use std::test::Fail;

const REQUEST: &[u8] = b"GET /a HTTP/1.1\r\nHost: a\r\n\r\n";

const FOUND: &[u8] =
    b"HTTP/1.1 200 OK\r\nContent-Type: application/octet-stream\r\nContent-Length: 1\r\nConnection: close\r\n\r\n1";

fn one_file(alloc: Global) -> Result<List<Held>, AllocError> {
    let bytes = bytes(alloc, b"1")?;
    let Ok(name) = Name::read(alloc, b"a") else {
        return Err(AllocError);
    };
    Ok(List::from_vec(vec![in alloc; Held { name, bytes }]?))
}

// A folder of a file `a`, which holds `1`.
fn folder_of(alloc: Global, number: u64) -> Result<MemFolder, AllocError> {
    let files = one_file(alloc)?;
    if !are_distinct(files.as_slice()) {
        return Err(AllocError);
    }
    Ok(MemFolder::new(alloc, files, failing(alloc, number)?))
}

fn two_requests(alloc: Global) -> Result<List<Bytes>, AllocError> {
    let first = bytes(alloc, REQUEST)?;
    let second = bytes(alloc, REQUEST)?;
    Ok(List::from_vec(vec![in alloc; first, second]?))
}

// A door with two connections to come.
fn door_of(alloc: Global, number: u64) -> Result<MemDoor, AllocError> {
    let requests = two_requests(alloc)?;
    Ok(MemDoor::new(alloc, requests, failing(alloc, number)?))
}

fn words_of(alloc: Global, texts: &[&[u8]]) -> Result<Vec<Word>, AllocError> {
    let mut words = Vec::new(alloc);
    for text in texts {
        words.push(Word::from_vec(text.to_vec(alloc)?))?;
    }
    Ok(words)
}

// Runs the host. It promises nothing, so that what a test asks is tried and not proved.
fn host(alloc: Global, words: &[Word], folder: &mut MemFolder, door: &mut MemDoor) -> u8 {
    host_run(alloc, words, folder, door)
}

// How many connections were accepted, and how many of them were sent the whole file.
fn counts(door: &MemDoor) -> (usize, usize) {
    let sent = door.sent().as_slice();
    let mut served: usize = 0;
    for text in sent {
        if same(text.as_slice(), FOUND) {
            served = served.saturating_add(1);
        }
    }
    (sent.len(), served)
}

// The status of a run, how many connections it accepted, and how many of them were sent the whole file.
fn run(
    alloc: Global,
    texts: &[&[u8]],
    door_failing: u64,
    folder_failing: u64,
) -> Result<(u8, usize, usize), AllocError> {
    let words = words_of(alloc, texts)?;
    let mut folder = folder_of(alloc, folder_failing)?;
    let mut door = door_of(alloc, door_failing)?;
    let status = host(alloc, &words, &mut folder, &mut door);
    let (accepted, served) = counts(&door);
    Ok((status, accepted, served))
}

// Words, the status, and how many connections were accepted and sent the whole file.
const WORDS: &[(&[&[u8]], u8, usize)] = &[
    (&[b"8080", b"0"], 0, 0),
    (&[b"8080", b"2"], 0, 2),
    (&[b"1", b"1"], 0, 1),
    (&[b"65535", b"0000000000000000001"], 0, 1),
    (&[b"0", b"1"], 1, 0),
    (&[b"65536", b"1"], 1, 0),
    (&[b"8080", b"1000001"], 1, 0),
    (&[b"8080", b"00000000000000000001"], 1, 0),
    (&[b"8080", b"+1"], 1, 0),
    (&[b"8080", b"-1"], 1, 0),
    (&[b"8080", b""], 1, 0),
    (&[b"x", b"1"], 1, 0),
    (&[b"8080", b"3"], 2, 2),
    (&[b"8080"], 1, 0),
    (&[b"8080", b"1", b"1"], 1, 0),
];

#[test]
fn words_are_read(rt: HostRuntime) -> Result<(), Fail> {
    for (number, (texts, status, accepted)) in WORDS.iter().enumerate() {
        let made = run(rt.alloc(), texts, 0, 0)?;
        assert!(rt; made == (*status, *accepted, *accepted), "case {number}");
    }
    Ok(())
}

#[test]
fn faults_end_one_connection(rt: HostRuntime) -> Result<(), Fail> {
    let table = [
        (1, 0, 2, 0, 0),
        (2, 0, 0, 2, 1),
        (3, 0, 0, 2, 1),
        (4, 0, 2, 1, 1),
        (5, 0, 0, 2, 1),
        (6, 0, 0, 2, 1),
        (0, 1, 0, 2, 1),
        (0, 2, 0, 2, 1),
    ];
    for (door_failing, folder_failing, status, accepted, served) in table {
        let made = run(rt.alloc(), &[b"8080", b"2"], door_failing, folder_failing)?;
        assert!(rt;
            made == (status, accepted, served),
            "{door_failing} {folder_failing}"
        );
    }
    Ok(())
}
