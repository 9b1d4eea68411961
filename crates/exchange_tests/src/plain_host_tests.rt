// What no clause says: that connections are served, and worked answers byte by byte.
use crate::made::{bytes, failing, same};
use connections::{Door, MemDoor};
use folders::{Folder, Held, MemFolder, are_distinct};
use plain_host::{HostRoom, ServeFault, Served, serve_connection, serve_in_room};
use small_types::{Bytes, List, Name};
use std::alloc::{AllocError, Global};
use std::test::Fail;

fn one_file(alloc: Global) -> Result<List<Held>, AllocError> {
    let bytes = bytes(alloc, b"abc")?;
    let Ok(name) = Name::read(alloc, b"App.application") else {
        return Err(AllocError);
    };
    Ok(List::from_vec(vec![in alloc; Held { name, bytes }]?))
}

// A folder of `App.application`, which holds `abc`.
fn folder_of(alloc: Global, number: u64) -> Result<MemFolder, AllocError> {
    let files = one_file(alloc)?;
    if !are_distinct(files.as_slice()) {
        return Err(AllocError);
    }
    Ok(MemFolder::new(alloc, files, failing(alloc, number)?))
}

// A door with one connection to come.
fn door_of(alloc: Global, request: &[u8], number: u64) -> Result<MemDoor, AllocError> {
    let requests = List::from_vec(vec![in alloc; bytes(alloc, request)?]?);
    Ok(MemDoor::new(alloc, requests, failing(alloc, number)?))
}

// Serves the next connection, in a room of its own. It promises nothing, so that what a test asks is tried and not
// proved.
fn serve_next<G: Door, F: Folder>(
    alloc: Global,
    door: &mut G,
    folder: &mut F,
) -> Result<Served, ServeFault> {
    let Ok(()) = door.accept() else {
        return Err(ServeFault::ReadFault);
    };
    serve_connection(alloc, door, folder)
}

// The same, in a room that the connections before it had.
fn serve_next_in_room<G: Door, F: Folder>(
    alloc: Global,
    door: &mut G,
    folder: &mut F,
    room: &mut HostRoom,
) -> Result<Served, ServeFault> {
    let Ok(()) = door.accept() else {
        return Err(ServeFault::ReadFault);
    };
    serve_in_room(alloc, door, folder, room)
}

// Whether that was sent, over all connections.
fn was_sent(alloc: Global, door: &MemDoor, wanted: &[u8]) -> Result<bool, AllocError> {
    let mut sent = Vec::new(alloc);
    for text in door.sent().as_slice() {
        sent.extend_from_slice(text.as_slice())?;
    }
    Ok(same(&sent, wanted))
}

// A request, a call of the door and one of the folder that fail, what comes of it, and what is sent.
#[derive(Drop)]
struct Case {
    request: &'static [u8],
    door: u64,
    folder: u64,
    served: Result<Served, ServeFault>,
    sent: &'static [u8],
}

// What comes of a request, and whether that is sent.
fn serve(
    alloc: Global,
    request: &[u8],
    door_failing: u64,
    folder_failing: u64,
    wanted: &[u8],
) -> Result<(Result<Served, ServeFault>, bool), AllocError> {
    let mut folder = folder_of(alloc, folder_failing)?;
    let mut door = door_of(alloc, request, door_failing)?;
    let served = serve_next(alloc, &mut door, &mut folder);
    let sent = was_sent(alloc, &door, wanted)?;
    Ok((served, sent))
}

const FOUND: &[u8] =
    b"HTTP/1.1 200 OK\r\nContent-Type: application/x-ms-application\r\nContent-Length: 3\r\nConnection: close\r\n\r\nabc";

const HEAD_ALONE: &[u8] =
    b"HTTP/1.1 200 OK\r\nContent-Type: application/x-ms-application\r\nContent-Length: 3\r\nConnection: close\r\n\r\n";

const BAD: &[u8] = b"HTTP/1.1 400 Bad Request\r\nContent-Length: 0\r\nConnection: close\r\n\r\n";

const MISSING: &[u8] = b"HTTP/1.1 404 Not Found\r\nContent-Length: 0\r\nConnection: close\r\n\r\n";

const OTHER_METHOD: &[u8] =
    b"HTTP/1.1 405 Method Not Allowed\r\nAllow: GET, HEAD\r\nContent-Length: 0\r\nConnection: close\r\n\r\n";

const TOO_LARGE: &[u8] =
    b"HTTP/1.1 431 Request Header Fields Too Large\r\nContent-Length: 0\r\nConnection: close\r\n\r\n";

const CASES: &[Case] = &[
    Case {
        request: b"GET /App.application HTTP/1.1\r\nHost: a\r\n\r\n",
        door: 0,
        folder: 0,
        served: Ok(Served::Answered { code: 200 }),
        sent: FOUND,
    },
    Case {
        request: b"HEAD /App.application HTTP/1.1\r\nHost: a\r\n\r\n",
        door: 0,
        folder: 0,
        served: Ok(Served::Answered { code: 200 }),
        sent: HEAD_ALONE,
    },
    Case {
        request: b"POST /App.application HTTP/1.1\r\nHost: a\r\n\r\nabc",
        door: 0,
        folder: 0,
        served: Ok(Served::Answered { code: 405 }),
        sent: OTHER_METHOD,
    },
    Case {
        request: b"GET /../x HTTP/1.1\r\nHost: a\r\n\r\n",
        door: 0,
        folder: 0,
        served: Ok(Served::Answered { code: 400 }),
        sent: BAD,
    },
    Case {
        request: b"GET /none HTTP/1.1\r\nHost: a\r\n\r\n",
        door: 0,
        folder: 0,
        served: Ok(Served::Answered { code: 404 }),
        sent: MISSING,
    },
    Case {
        request: b"GET /App.application HTTP/1.1\r\n\r\n",
        door: 0,
        folder: 0,
        served: Ok(Served::Answered { code: 400 }),
        sent: BAD,
    },
    Case {
        request: b"GET /App.application HTTP/1.1\r\nHost: a\r\nHost: a\r\n\r\n",
        door: 0,
        folder: 0,
        served: Ok(Served::Answered { code: 400 }),
        sent: BAD,
    },
    Case {
        request: b"GET /App.application HTTP/1.0\r\n\r\n",
        door: 0,
        folder: 0,
        served: Ok(Served::Answered { code: 200 }),
        sent: FOUND,
    },
    Case {
        request: b"GET /App.application?a=/../b HTTP/1.1\r\nhost: a\r\n\r\n",
        door: 0,
        folder: 0,
        served: Ok(Served::Answered { code: 200 }),
        sent: FOUND,
    },
    Case {
        request: b"GET /%41pp.application HTTP/1.1\r\nHost: a\r\n\r\nmore",
        door: 0,
        folder: 0,
        served: Ok(Served::Answered { code: 200 }),
        sent: FOUND,
    },
    Case {
        request: b"GET /App.application HTTP/1.1\r\nHost: a\r\n",
        door: 0,
        folder: 0,
        served: Ok(Served::Answered { code: 400 }),
        sent: BAD,
    },
    Case {
        request: b"\r\n\r\n",
        door: 0,
        folder: 0,
        served: Ok(Served::Answered { code: 400 }),
        sent: BAD,
    },
    Case {
        request: b"",
        door: 0,
        folder: 0,
        served: Ok(Served::Silent),
        sent: b"",
    },
    Case {
        request: b"GET /App.application HTTP/1.1\r\nHost: a\r\n\r\n",
        door: 2,
        folder: 0,
        served: Err(ServeFault::ReadFault),
        sent: b"",
    },
    Case {
        request: b"GET /App.application HTTP/1.1\r\nHost: a\r\n\r\n",
        door: 3,
        folder: 0,
        served: Err(ServeFault::WriteFault),
        sent: b"",
    },
    Case {
        request: b"GET /App.application HTTP/1.1\r\nHost: a\r\n\r\n",
        door: 0,
        folder: 1,
        served: Err(ServeFault::FolderFault),
        sent: b"",
    },
];

#[test]
fn requests_are_answered(rt: HostRuntime) -> Result<(), Fail> {
    for (number, case) in CASES.iter().enumerate() {
        let (served, sent) = serve(rt.alloc(), case.request, case.door, case.folder, case.sent)?;
        assert!(rt; served == case.served, "case {number}");
        assert!(rt; sent, "case {number}: sent");
    }
    Ok(())
}

// A request with so many fields of so many bytes each, one of them `Host`.
fn request_of(alloc: Global, fields: usize, length: usize) -> Result<Vec<u8>, AllocError> {
    let mut request = Vec::from_slice(alloc, b"GET /App.application HTTP/1.1\r\nHost: ")?;
    for number in 0..fields {
        if number > 0 {
            request.extend_from_slice(b"\r\nX: ")?;
        }
        for _place in 0..length {
            request.push(b'a')?;
        }
    }
    request.extend_from_slice(b"\r\n\r\n")?;
    Ok(request)
}

// How many fields of how many bytes, the code of the answer, and what is sent.
const LARGE: &[(usize, usize, u16, &[u8])] = &[
    (64, 1, 200, FOUND),
    (65, 1, 400, BAD),
    (1, 65_495, 200, FOUND),
    (1, 65_496, 431, TOO_LARGE),
    (1, 70_000, 431, TOO_LARGE),
];

#[test]
fn large_requests_are_answered(rt: HostRuntime) -> Result<(), Fail> {
    for (fields, length, code, text) in LARGE {
        let request = request_of(rt.alloc(), *fields, *length)?;
        let (served, sent) = serve(rt.alloc(), &request, 0, 0, text)?;
        assert!(rt;
            served == Ok(Served::Answered { code: *code }),
            "{fields} {length}"
        );
        assert!(rt; sent, "{fields} {length}: sent");
    }
    Ok(())
}

// A file of so many bytes, all the same.
fn filled(alloc: Global, name: &[u8], byte: u8, length: usize) -> Result<Held, AllocError> {
    let bytes = Bytes::from_vec(vec![in alloc; byte; length]?);
    let Ok(name) = Name::read(alloc, name) else {
        return Err(AllocError);
    };
    Ok(Held { name, bytes })
}

fn two_held(alloc: Global) -> Result<List<Held>, AllocError> {
    let short = filled(alloc, b"short", 1, 16_384)?;
    let long = filled(alloc, b"long", 2, 16_385)?;
    Ok(List::from_vec(vec![in alloc; short, long]?))
}

// A folder of two files: `short` of 16,384 bytes, which are all 1, and `long` of one byte more, which are all 2.
fn two_files(alloc: Global) -> Result<MemFolder, AllocError> {
    let files = two_held(alloc)?;
    if !are_distinct(files.as_slice()) {
        return Err(AllocError);
    }
    Ok(MemFolder::new(alloc, files, List::from_vec(Vec::new(alloc))))
}

const THREE: &[&[u8]] = &[
    b"GET /long HTTP/1.0\r\n\r\n",
    b"GET /short HTTP/1.0\r\n\r\n",
    b"GET /long HTTP/1.0\r\n\r\n",
];

// A door with three connections to come, of which one call fails.
fn door_of_three(alloc: Global, number: u64) -> Result<MemDoor, AllocError> {
    let mut requests = Vec::new(alloc);
    for request in THREE {
        requests.push(bytes(alloc, request)?)?;
    }
    Ok(MemDoor::new(alloc, List::from_vec(requests), failing(alloc, number)?))
}

// How much was sent over the last connection.
fn sent_length(door: &MemDoor) -> usize {
    match door.sent().as_slice().last() {
        Some(text) => text.as_slice().len(),
        None => 0,
    }
}

// Serves the next connection, and tells how much was sent over it.
fn next_length(
    alloc: Global,
    door: &mut MemDoor,
    folder: &mut MemFolder,
    room: &mut HostRoom,
) -> usize {
    let _ = serve_next_in_room(alloc, door, folder, room);
    sent_length(door)
}

// How much of the answers to three requests is sent, where one call of the door fails.
fn sent_lengths(alloc: Global, failing: u64) -> Result<[usize; 3], AllocError> {
    let mut room = HostRoom::new(alloc);
    let mut folder = two_files(alloc)?;
    let mut door = door_of_three(alloc, failing)?;
    let mut lengths = [0; 3];
    for length in &mut lengths {
        *length = next_length(alloc, &mut door, &mut folder, &mut room);
    }
    Ok(lengths)
}

// The head of an answer with a file of five digits has 101 bytes. A short file goes out with it, in
// one call, and a long one in a second.
#[test]
fn files_follow_their_heads(rt: HostRuntime) -> Result<(), Fail> {
    let table = [
        (0, [16_486, 16_485, 16_486]),
        (3, [0, 16_485, 16_486]),
        (4, [101, 16_485, 16_486]),
        (7, [16_486, 0, 16_486]),
        (11, [16_486, 16_485, 101]),
    ];
    for (failing, lengths) in table {
        let sent = sent_lengths(rt.alloc(), failing)?;
        assert!(rt; sent == lengths, "{failing}");
    }
    Ok(())
}
