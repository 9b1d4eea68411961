// One connection of a network.
ghost use Rattle.std.specs.Prelude.{◌≤◌, length, IfOk};
ghost use Rattle.outside.specs.Streams.{TakesSome};

use outside::Failed;
use std::io;
use std::io::{Read, Write};
use std::net::{Net, OpenStream, Shutdown, TcpStream, ToSocketAddrs};
use std::rt::Clock;
use std::time::{Duration, Instant};

// The seconds that the other side of a connection that was accepted may take for all that it sends, and those that one
// call waits until it takes anything.
pub(crate) const HOST_PATIENCE: u64 = 10;

// The seconds from the accept in which an answer of any length may be sent: those for the request, and ten more.
const ANSWER_PATIENCE: u64 = 20;

// For so many bytes that were sent there is another second.
const BYTES_A_SECOND: u64 = 65_536;

// The seconds that a client waits for a connection, for the next byte, and until any is taken.
pub(crate) const CLIENT_PATIENCE: u64 = 60;

// How many addresses of a host are tried at most.
const MOST_ADDRESSES: usize = 32;

// How many reads at most follow the last answer.
const MOST_READS: u64 = 4096;

// How often at most a call is made again that was interrupted. A process that is stopped and goes on interrupts those
// that wait for a limited time, and so does a machine that sleeps.
const MOST_INTERRUPTIONS: u64 = 1000;

// A connection that was accepted, since when, and how many bytes were sent on it.
#[derive(Drop)]
pub(crate) struct Guest<S> {
    pub(crate) stream: S,
    pub(crate) since: Instant,
    pub(crate) sent: u64,
}

// Sends each piece at once, and waits no longer than so many seconds for some of one to be taken.
pub(crate) fn prepare<S: OpenStream>(stream: &S, patience: u64) -> io::Result<()> {
    stream.set_nodelay(true)?;
    stream.set_write_timeout(Some(Duration::from_secs(patience)))
}

// The host without the brackets of an address of the sixth version.
fn without_brackets(host: &str) -> &str {
    match host.strip_prefix('[') {
        Some(rest) => rest.strip_suffix(']').unwrap_or(host),
        None => host,
    }
}

// What one of so many addresses may take of a time.
fn share(whole: Duration, addresses: usize) -> Duration {
    whole / addresses.clamp(1, MOST_ADDRESSES) as u32
}

// A connection to the host's port, at the first of its addresses that answers. Those that were not tried yet share the
// time that is left of a client's.
pub(crate) fn connect<R: Net + Clock>(rt: &R, host: &str, port: u16) -> io::Result<R::Stream> {
    let since = Instant::now(rt)?;
    let mut last = io::Error::from(io::ErrorKind::NotFound);
    let addresses = (without_brackets(host), port).to_socket_addrs(rt)?;
    let mut untried = addresses.size_hint().0;
    for address in addresses {
        let Some(left) = time_left(rt, since, Duration::from_secs(CLIENT_PATIENCE)) else {
            return Err(last);
        };
        match TcpStream::connect_timeout(rt, &address, share(left, untried)) {
            Ok(stream) => return Ok(stream),
            Err(error) => last = error,
        }
        untried = untried.saturating_sub(1);
    }
    Err(last)
}

// Whether the call was interrupted, and is to be made again.
fn is_interrupted(error: &io::Error) -> bool {
    error.kind() == io::ErrorKind::Interrupted
}

// Sends the first of the bytes in one system call that is not interrupted. No byte taken is a failure.
pub(crate) fn send_some<S: Write>(stream: &mut S, bytes: &[u8]) -> Result<usize, Failed>
    ensures { IfOk result (λ n. TakesSome n bytes.now) }
{
    for _ in 0..MOST_INTERRUPTIONS {
        match stream.write(bytes) {
            Err(error) if is_interrupted(&error) => {}
            Ok(0) | Err(_) => return Err(Failed),
            Ok(n) => return Ok(n),
        }
    }
    Err(Failed)
}

// What one system call gives that is not interrupted.
pub(crate) fn receive_some<S: Read>(stream: &mut S, buf: &mut [u8]) -> Result<usize, Failed>
    ensures { IfOk result (λ n. n ≤ length buf.old) }
{
    for _ in 0..MOST_INTERRUPTIONS {
        match stream.read(buf) {
            Err(error) if is_interrupted(&error) => {}
            Err(_) => return Err(Failed),
            Ok(n) => return Ok(n),
        }
    }
    Err(Failed)
}

// How much is left of a time that began at a moment, if any is.
fn time_left<R: Clock>(rt: &R, since: Instant, whole: Duration) -> Option<Duration> {
    match since.elapsed(rt) {
        Ok(spent) if spent < whole => Some(whole.saturating_sub(spent)),
        _ => None,
    }
}

// How long after the accept more may be sent, where so many bytes were.
fn answer_time(sent: u64) -> Duration {
    Duration::from_secs(ANSWER_PATIENCE + sent / BYTES_A_SECOND)
}

impl<S: Read + Write + OpenStream + Drop> Guest<S> {
    // Sends the first of the bytes in one system call, while there is time for the answer.
    pub(crate) fn send<R: Clock>(&mut self, rt: &R, bytes: &[u8]) -> Result<usize, Failed>
        ensures { IfOk result (λ n. TakesSome n bytes.now) }
    {
        if time_left(rt, self.since, answer_time(self.sent)).is_none() {
            return Err(Failed);
        }
        let n = send_some(&mut self.stream, bytes)?;
        self.sent = self.sent.saturating_add(n as u64);
        Ok(n)
    }

    // What one system call gives, within the time that is left.
    pub(crate) fn receive<R: Clock>(&mut self, rt: &R, buf: &mut [u8]) -> Result<usize, Failed>
        ensures { IfOk result (λ n. n ≤ length buf.old) }
    {
        let left = time_left(rt, self.since, Duration::from_secs(HOST_PATIENCE));
        if left.is_none() || self.stream.set_read_timeout(left).is_err() {
            return Err(Failed);
        }
        receive_some(&mut self.stream, buf)
    }

    // Whether bytes wait that were not received. It takes some of them.
    fn has_unread(&mut self) -> bool {
        let mut buf = [0; 1024];
        if self.stream.set_nonblocking(true).is_err() {
            return false;
        }
        let found = match self.stream.read(&mut buf) {
            Ok(n) => n > 0,
            Err(_) => false,
        };
        found && self.stream.set_nonblocking(false).is_ok()
    }

    // Ends the connection. Where bytes wait that were not received, what comes is first received, within the time that
    // is left: the system would else cut off what the other side has not received yet.
    pub(crate) fn end<R: Clock>(self, rt: &R) {
        let mut guest = self;
        let _ = guest.stream.shutdown(Shutdown::Write);
        if !guest.has_unread() {
            return;
        }
        let mut buf = [0; 16384];
        for _ in 0..MOST_READS {
            match guest.receive(rt, &mut buf) {
                Ok(0) | Err(_) => return,
                Ok(_) => {}
            }
        }
    }
}
