// What the connections over a network do with real ones.
use crate::shown::is_said;
use connections::{Door, Wire};
use outside::Failed;
use outside_real::{TcpDoor, TcpWire};
use small_types::Text;
use std::alloc::{AllocError, Global};
use std::cell::Cell;
use std::io;
use std::io::{ErrorKind, Write};
use std::net::{Ipv4Addr, Net, Shutdown, SocketAddr, TcpListener, TcpStream};
use std::process::Abort;
use std::rt::Clock;
use std::test::Fail;
use std::time::Duration;

// A network whose only port is bound already, and a clock that the test moves.
#[derive(Drop)]
struct Near<'a> {
    listener: &'a TcpListener,
    millis: &'a Cell<u64>,
}

impl Net for Near<'_> {
    type Stream = TcpStream;

    type Listener = TcpListener;

    fn bind(&self, _addr: SocketAddr) -> io::Result<TcpListener> {
        self.listener.try_clone()
    }

    fn connect(&self, _addr: SocketAddr) -> io::Result<TcpStream> {
        Err(io::Error::from(ErrorKind::Unsupported))
    }
}

impl Clock for Near<'_> {
    fn monotonic(&self) -> io::Result<Duration> {
        Ok(Duration::from_millis(self.millis.get()))
    }

    fn since_1970(&self) -> io::Result<Duration> {
        Err(io::Error::from(ErrorKind::Unsupported))
    }
}

// A port of this machine, which the system chooses.
fn bound(rt: &HostRuntime) -> io::Result<TcpListener> {
    TcpListener::bind(rt, SocketAddr::from((Ipv4Addr::LOCALHOST, 0)))
}

fn client_of(rt: &HostRuntime, listener: &TcpListener) -> io::Result<TcpStream> {
    TcpStream::connect(rt, listener.local_addr()?)
}

// Whether what is sent until the end is this text.
fn ends_with(alloc: Global, stream: TcpStream, want: &str) -> bool {
    match io::read_to_string(alloc, stream) {
        Ok(text) => text.as_str() == want,
        Err(_) => false,
    }
}

// A call of a door and what it answers.
#[derive(Drop)]
enum DoorStep {
    Accept(Result<(), Failed>),
    // What can be received at once, in a buffer of four bytes.
    Receive(Result<(usize, [u8; 4]), Failed>),
    Send(&'static [u8; 6], Result<usize, Failed>),
    // Sends until 65,536 bytes are taken, or a call fails.
    SendLong(Result<(), Failed>),
    // One of many sends to a peer that has gone fails.
    SendToNobody,
    // How often accepting failed, and how often the other calls did.
    Counts(u64, u64),
}

fn received<D: Door>(door: &mut D) -> Result<(usize, [u8; 4]), Failed> {
    let mut buf = *b"....";
    let n = door.receive(&mut buf)?;
    Ok((n, buf))
}

fn sent_long<D: Door>(door: &mut D) -> Result<(), Failed> {
    let mut left: usize = 65_536;
    for _ in 0..65_536 {
        if left == 0 {
            return Ok(());
        }
        left -= door.send(&[0; 4096][..left.min(4096)])?;
    }
    Ok(())
}

fn is_refused<D: Door>(door: &mut D) -> bool {
    for _ in 0..1000 {
        if door.send(b"more").is_err() {
            return true;
        }
    }
    false
}

// Whether the step answers what it is to.
fn door_answers<D: Door>(door: &mut D, step: &DoorStep) -> bool {
    match step {
        DoorStep::Accept(want) => door.accept() == *want,
        DoorStep::Receive(want) => received(door) == *want,
        DoorStep::Send(bytes, want) => door.send(*bytes) == *want,
        DoorStep::SendLong(want) => sent_long(door) == *want,
        DoorStep::SendToNobody => is_refused(door),
        DoorStep::Counts(missed, faults) => door.missed() == *missed && door.faults() == *faults,
    }
}

// Asserts each step.
fn go<D: Door>(abort: &impl Abort, rt: &HostRuntime, name: &str, door: &mut D, steps: &[DoorStep]) {
    for (number, step) in steps.iter().enumerate() {
        assert!(abort; door_answers(door, step), "{name}: step {number}");
    }
}

const NOBODY: &[DoorStep] = &[
    DoorStep::Receive(Err(Failed)),
    DoorStep::Send(b"answer", Err(Failed)),
    DoorStep::Counts(0, 2),
];

const FIRST: &[DoorStep] = &[
    DoorStep::Receive(Ok((4, *b"abcd"))),
    DoorStep::Send(b"answer", Ok(6)),
];

const ACCEPT: &[DoorStep] = &[DoorStep::Accept(Ok(()))];

const SECOND: &[DoorStep] = &[DoorStep::Receive(Ok((0, *b"....")))];

const GONE: &[DoorStep] = &[DoorStep::SendToNobody, DoorStep::Counts(0, 3)];

// The first client sends more than is received, and gets the answer once the second is accepted.
fn serve_two<D: Door>(
    abort: &impl Abort,
    rt: &HostRuntime,
    listener: &TcpListener,
    door: &mut D,
) -> io::Result<()> {
    let mut first = client_of(rt, listener)?;
    go(abort, rt, "first", door, ACCEPT);
    first.write_all(b"abcdefgh")?;
    go(abort, rt, "first", door, FIRST);
    first.shutdown(Shutdown::Write)?;
    let second = client_of(rt, listener)?;
    go(abort, rt, "second", door, ACCEPT);
    assert!(abort; ends_with(rt.alloc(), first, "answer"));
    second.shutdown(Shutdown::Write)?;
    go(abort, rt, "second", door, SECOND);
    Ok(())
}

#[test]
fn a_door_takes_one_connection_after_the_other(rt: HostRuntime) -> Result<(), Fail> {
    let listener = bound(&rt)?;
    let millis = Cell::new(0);
    let near = Near {
        listener: &listener,
        millis: &millis,
    };
    let mut door = TcpDoor::new(near, 0);
    go(&rt, &rt, "nobody", &mut door, NOBODY);
    serve_two(&rt, &rt, &listener, &mut door)?;
    go(&rt, &rt, "gone", &mut door, GONE);
    Ok(())
}

const IN_TIME: &[DoorStep] = &[
    DoorStep::Receive(Ok((3, *b"abc."))),
    DoorStep::Receive(Err(Failed)),
];

const TOO_LATE: &[DoorStep] = &[DoorStep::Receive(Err(Failed)), DoorStep::Counts(0, 2)];

// A client sends, falls silent until the time is up, and sends again.
fn serve_silent<D: Door>(
    abort: &impl Abort,
    rt: &HostRuntime,
    listener: &TcpListener,
    millis: &Cell<u64>,
    door: &mut D,
) -> io::Result<()> {
    let mut silent = client_of(rt, listener)?;
    go(abort, rt, "silent", door, ACCEPT);
    silent.write_all(b"abc")?;
    millis.set(9_900);
    go(abort, rt, "in time", door, IN_TIME);
    silent.write_all(b"d")?;
    millis.set(10_000);
    go(abort, rt, "too late", door, TOO_LATE);
    Ok(())
}

#[test]
fn a_door_does_not_wait_without_end(rt: HostRuntime) -> Result<(), Fail> {
    let listener = bound(&rt)?;
    let millis = Cell::new(0);
    let near = Near {
        listener: &listener,
        millis: &millis,
    };
    let mut door = TcpDoor::new(near, 0);
    serve_silent(&rt, &rt, &listener, &millis, &mut door)?;
    Ok(())
}

const ANSWER_IN_TIME: &[DoorStep] = &[DoorStep::SendLong(Ok(()))];

const LONGER_ANSWER: &[DoorStep] = &[DoorStep::Send(b"answer", Ok(6))];

const LATE_ANSWER: &[DoorStep] = &[DoorStep::Send(b"answer", Err(Failed))];

// A client takes nothing. What is sent to it has 20 seconds, and one more once 65,536 bytes of it were taken.
fn serve_slow<D: Door>(
    abort: &impl Abort,
    rt: &HostRuntime,
    listener: &TcpListener,
    millis: &Cell<u64>,
    door: &mut D,
) -> io::Result<()> {
    let slow = client_of(rt, listener)?;
    go(abort, rt, "slow", door, ACCEPT);
    millis.set(19_999);
    go(abort, rt, "in time", door, ANSWER_IN_TIME);
    millis.set(20_999);
    go(abort, rt, "longer", door, LONGER_ANSWER);
    millis.set(21_000);
    go(abort, rt, "late", door, LATE_ANSWER);
    drop(slow);
    let next = client_of(rt, listener)?;
    go(abort, rt, "next", door, ACCEPT);
    millis.set(41_000);
    go(abort, rt, "late", door, LATE_ANSWER);
    drop(next);
    Ok(())
}

#[test]
fn a_door_gives_an_answer_time_for_its_length(rt: HostRuntime) -> Result<(), Fail> {
    let listener = bound(&rt)?;
    let millis = Cell::new(0);
    let near = Near {
        listener: &listener,
        millis: &millis,
    };
    let mut door = TcpDoor::new(near, 0);
    serve_slow(&rt, &rt, &listener, &millis, &mut door)?;
    Ok(())
}

const MISSES: &[DoorStep] = &[DoorStep::Accept(Err(Failed)), DoorStep::Counts(1, 0)];

#[test]
fn a_door_that_cannot_be_bound_misses(rt: HostRuntime) -> Result<(), Fail> {
    let taken = TcpListener::bind(&rt, SocketAddr::from((Ipv4Addr::UNSPECIFIED, 0)))?;
    let mut door = TcpDoor::new(rt.clone()?, taken.local_addr()?.port());
    go(&rt, &rt, "taken", &mut door, MISSES);
    assert!(rt; is_said(rt.alloc(), door.why(), "Address already in use"));
    Ok(())
}

// A call of a wire and what it answers.
#[derive(Drop)]
enum WireStep {
    Connect(&'static str, Result<(), Failed>),
    Receive(Result<(usize, [u8; 4]), Failed>),
    Send(&'static [u8; 3], Result<usize, Failed>),
    Faults(u64),
}

fn connect<W: Wire>(alloc: Global, wire: &mut W, host: &str, port: u16) -> Result<(), Failed> {
    match String::from_str(alloc, host) {
        Ok(host) => wire.connect(&Text::from_string(host), port),
        Err(AllocError) => Err(Failed),
    }
}

fn taken<W: Wire>(wire: &mut W) -> Result<(usize, [u8; 4]), Failed> {
    let mut buf = *b"....";
    let n = wire.receive(&mut buf)?;
    Ok((n, buf))
}

// Whether the step answers what it is to, at that port.
fn wire_answers<W: Wire>(alloc: Global, wire: &mut W, port: u16, step: &WireStep) -> bool {
    match step {
        WireStep::Connect(host, want) => connect(alloc, wire, host, port) == *want,
        WireStep::Receive(want) => taken(wire) == *want,
        WireStep::Send(bytes, want) => wire.send(*bytes) == *want,
        WireStep::Faults(want) => wire.faults() == *want,
    }
}

// Asserts each step.
fn go_on<W: Wire>(
    abort: &impl Abort,
    rt: &HostRuntime,
    name: &str,
    wire: &mut W,
    port: u16,
    steps: &[WireStep],
) {
    for (number, step) in steps.iter().enumerate() {
        assert!(abort;
            wire_answers(rt.alloc(), wire, port, step),
            "{name}: step {number}"
        );
    }
}

const CONNECTED: &[WireStep] = &[
    WireStep::Receive(Err(Failed)),
    WireStep::Send(b"ask", Err(Failed)),
    WireStep::Connect("127.0.0.1", Ok(())),
];

const ASKED: &[WireStep] = &[WireStep::Send(b"ask", Ok(3))];

const ANSWERED: &[WireStep] = &[
    WireStep::Receive(Ok((4, *b"answ"))),
    WireStep::Receive(Ok((2, *b"er.."))),
    WireStep::Connect("localhost", Ok(())),
];

const ENDED: &[WireStep] = &[WireStep::Receive(Ok((0, *b"...."))), WireStep::Faults(2)];

const REFUSED: &[WireStep] = &[
    WireStep::Connect("127.0.0.1", Err(Failed)),
    WireStep::Send(b"ask", Err(Failed)),
    WireStep::Faults(4),
];

// A host that answers the first connection and ends the second.
fn host<W: Wire>(
    abort: &impl Abort,
    rt: &HostRuntime,
    listener: &TcpListener,
    wire: &mut W,
    port: u16,
) -> io::Result<()> {
    go_on(abort, rt, "connected", wire, port, CONNECTED);
    let (mut first, _) = listener.accept()?;
    go_on(abort, rt, "asked", wire, port, ASKED);
    first.write_all(b"answer")?;
    go_on(abort, rt, "answered", wire, port, ANSWERED);
    assert!(abort; ends_with(rt.alloc(), first, "ask"));
    let (second, _) = listener.accept()?;
    drop(second);
    go_on(abort, rt, "ended", wire, port, ENDED);
    Ok(())
}

#[test]
fn a_wire_leads_to_one_host_at_a_time(rt: HostRuntime) -> Result<(), Fail> {
    let listener = bound(&rt)?;
    let port = listener.local_addr()?.port();
    let mut wire = TcpWire::new(rt.clone()?);
    host(&rt, &rt, &listener, &mut wire, port)?;
    drop(listener);
    go_on(&rt, &rt, "refused", &mut wire, port, REFUSED);
    Ok(())
}
