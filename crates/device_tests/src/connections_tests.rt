// What no clause says of the connections in memory: that calls succeed, and worked values.
use crate::made::{numbers, same};
use connections::{Door, MemDoor, MemWire, Wire};
use outside::Failed;
use small_types::{Bytes, List, Text};
use std::alloc::{AllocError, Global};
use std::test::Fail;

// A call of a client's or of a host's connections.
#[derive(Drop)]
enum Call {
    // A new connection: made by a client, accepted by a host.
    Begin,
    Send([u8; 2]),
    // Into a buffer of four bytes.
    Receive,
}

// What happens on connections from which those texts come, where the call of that number fails. A call answers
// how many bytes it took or gave; what was sent has a bar behind each connection.
#[derive(Drop)]
struct Case {
    coming: &'static [&'static [u8]],
    failing: u64,
    calls: &'static [Call],
    answers: &'static [Result<usize, Failed>],
    sent: &'static [u8],
    missed: u64,
    faults: u64,
}

fn texts(alloc: Global, from: &[&[u8]]) -> Result<List<Bytes>, AllocError> {
    let mut made = Vec::new(alloc);
    for text in from {
        made.push(Bytes::from_vec(text.to_vec(alloc)?))?;
    }
    Ok(List::from_vec(made))
}

// Whether the texts, each with a bar behind it, are those bytes.
fn are_joined(alloc: Global, from: &List<Bytes>, want: &[u8]) -> Result<bool, AllocError> {
    let mut made = Vec::new(alloc);
    for text in from.as_slice() {
        made.extend_from_slice(text.as_slice())?;
        made.push(b'|')?;
    }
    Ok(same(&made, want))
}

// Whether the answer of that number is this one.
fn is_answer(answers: &[Result<usize, Failed>], number: usize, got: Result<usize, Failed>) -> bool {
    match answers.get(number) {
        Some(want) => got == *want,
        None => false,
    }
}

fn call_wire<W: Wire>(wire: &mut W, host: &Text, call: &Call) -> Result<usize, Failed> {
    match call {
        Call::Begin => match wire.connect(host, 80) {
            Ok(()) => Ok(0),
            Err(fault) => Err(fault),
        },
        Call::Send(text) => wire.send(text),
        Call::Receive => wire.receive(&mut [b'.'; 4]),
    }
}

// Whether each call of a client's connections answers what it is to.
fn wire_answers<W: Wire>(wire: &mut W, host: &Text, case: &Case) -> bool {
    for (number, call) in case.calls.iter().enumerate() {
        let got = call_wire(wire, host, call);
        if !is_answer(case.answers, number, got) {
            return false;
        }
    }
    true
}

// Whether the wire has sent what it is to, failed so often, and never for want of memory.
fn is_wire_left(alloc: Global, wire: &MemWire, case: &Case) -> Result<bool, AllocError> {
    let sent = are_joined(alloc, wire.sent(), case.sent)?;
    Ok(sent && wire.faults() == case.faults && wire.starved() == 0)
}

// Whether the case comes to what it is to on a client's connections.
fn is_wire(alloc: Global, case: &Case) -> Result<bool, AllocError> {
    let host = Text::from_string(String::from_str(alloc, "host")?);
    let failing = numbers(alloc, &[case.failing])?;
    let mut wire = MemWire::new(alloc, texts(alloc, case.coming)?, failing);
    let answered = wire_answers(&mut wire, &host, case);
    drop(host);
    let left = is_wire_left(alloc, &wire, case);
    drop(wire);
    Ok(left? && answered)
}

fn call_door<D: Door>(door: &mut D, call: &Call) -> Result<usize, Failed> {
    match call {
        Call::Begin => match door.accept() {
            Ok(()) => Ok(0),
            Err(fault) => Err(fault),
        },
        Call::Send(text) => door.send(text),
        Call::Receive => door.receive(&mut [b'.'; 4]),
    }
}

// Whether each call of a host's connections answers what it is to.
fn door_answers<D: Door>(door: &mut D, case: &Case) -> bool {
    for (number, call) in case.calls.iter().enumerate() {
        let got = call_door(door, call);
        if !is_answer(case.answers, number, got) {
            return false;
        }
    }
    true
}

// Whether the door has sent what it is to, missed and failed so often, and never for want of memory.
fn is_door_left(alloc: Global, door: &MemDoor, case: &Case) -> Result<bool, AllocError> {
    let sent = are_joined(alloc, door.sent(), case.sent)?;
    let counted = door.missed() == case.missed && door.faults() == case.faults;
    Ok(sent && counted && door.starved() == 0)
}

// Whether the case comes to what it is to on a host's connections.
fn is_door(alloc: Global, case: &Case) -> Result<bool, AllocError> {
    let failing = numbers(alloc, &[case.failing])?;
    let mut door = MemDoor::new(alloc, texts(alloc, case.coming)?, failing);
    let answered = door_answers(&mut door, case);
    let left = is_door_left(alloc, &door, case);
    drop(door);
    Ok(left? && answered)
}

const TWO: &[&[u8]] = &[b"abcdef", b"xyz"];

const SIX: &[Call] = &[
    Call::Begin,
    Call::Send(*b"12"),
    Call::Receive,
    Call::Begin,
    Call::Send(*b"34"),
    Call::Receive,
];

// One connection, for calls past its end.
const ONE: &[&[u8]] = &[b"abcd"];

const E: Result<usize, Failed> = Err(Failed);

// Where a wire and a door do the same.
const BOTH: &[Case] = &[
    Case {
        coming: TWO,
        failing: 0,
        calls: SIX,
        answers: &[Ok(0), Ok(2), Ok(4), Ok(0), Ok(2), Ok(3)],
        sent: b"12|34|",
        missed: 0,
        faults: 0,
    },
    Case {
        coming: TWO,
        failing: 2,
        calls: SIX,
        answers: &[Ok(0), E, Ok(4), Ok(0), Ok(2), Ok(3)],
        sent: b"|34|",
        missed: 0,
        faults: 1,
    },
    Case {
        coming: TWO,
        failing: 3,
        calls: SIX,
        answers: &[Ok(0), Ok(2), E, Ok(0), Ok(2), Ok(3)],
        sent: b"12|34|",
        missed: 0,
        faults: 1,
    },
    Case {
        coming: TWO,
        failing: 5,
        calls: SIX,
        answers: &[Ok(0), Ok(2), Ok(4), Ok(0), E, Ok(3)],
        sent: b"12||",
        missed: 0,
        faults: 1,
    },
    Case {
        coming: TWO,
        failing: 6,
        calls: SIX,
        answers: &[Ok(0), Ok(2), Ok(4), Ok(0), Ok(2), E],
        sent: b"12|34|",
        missed: 0,
        faults: 1,
    },
];

const WIRES: &[Case] = &[
    Case {
        coming: TWO,
        failing: 1,
        calls: SIX,
        answers: &[E, E, E, Ok(0), Ok(2), Ok(4)],
        sent: b"34|",
        missed: 0,
        faults: 3,
    },
    Case {
        coming: TWO,
        failing: 4,
        calls: SIX,
        answers: &[Ok(0), Ok(2), Ok(4), E, E, E],
        sent: b"12|",
        missed: 0,
        faults: 3,
    },
    Case {
        coming: ONE,
        failing: 0,
        calls: &[
            Call::Begin,
            Call::Receive,
            Call::Receive,
            Call::Begin,
            Call::Receive,
        ],
        answers: &[Ok(0), Ok(4), Ok(0), E, E],
        sent: b"|",
        missed: 0,
        faults: 2,
    },
];

const DOORS: &[Case] = &[
    Case {
        coming: TWO,
        failing: 1,
        calls: SIX,
        answers: &[E, E, E, Ok(0), Ok(2), Ok(4)],
        sent: b"34|",
        missed: 1,
        faults: 2,
    },
    Case {
        coming: TWO,
        failing: 4,
        calls: SIX,
        answers: &[Ok(0), Ok(2), Ok(4), E, Ok(2), Ok(2)],
        sent: b"1234|",
        missed: 1,
        faults: 0,
    },
    Case {
        coming: ONE,
        failing: 0,
        calls: &[Call::Begin, Call::Receive, Call::Receive, Call::Begin],
        answers: &[Ok(0), Ok(4), Ok(0), E],
        sent: b"|",
        missed: 1,
        faults: 0,
    },
];

#[test]
fn wires_work_and_fail_by_number(rt: HostRuntime) -> Result<(), Fail> {
    for cases in [BOTH, WIRES] {
        for case in cases {
            assert!(rt; is_wire(rt.alloc(), case)?, "{}", case.failing);
        }
    }
    Ok(())
}

#[test]
fn doors_work_and_fail_by_number(rt: HostRuntime) -> Result<(), Fail> {
    for cases in [BOTH, DOORS] {
        for case in cases {
            assert!(rt; is_door(rt.alloc(), case)?, "{}", case.failing);
        }
    }
    Ok(())
}
