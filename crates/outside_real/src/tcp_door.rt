// A host's connections over a network.
ghost use Rattle.std.specs.Prelude.{◌≡◌, ◌<◌, ◌≤◌, [], length, take, IfOk, OnOk, OnErr};
ghost use Rattle.outside.specs.Streams.{Causes, TakesSome};
ghost use Rattle.connections.specs.Door.{Accepts, ReceivesOnLast, SendsOnLast};

use crate::counted::counted;
use crate::reason::{Reason, keep};
use crate::stream::{Guest, HOST_PATIENCE, prepare};
use connections::Door;
use outside::Failed;
use std::io;
use std::net::{Ipv4Addr, Net, OpenListener, OpenStream, SocketAddr, TcpListener};
use std::rt::Clock;
use std::time::Instant;

/// The TCP connections that a host accepts at a port of all its addresses of the fourth version,
/// over a runtime's network. It tells no content. The other side has 10 seconds from the accept for
/// all that it sends. A call that sends fails later than 20 seconds after the accept, and one second
/// more for each 65,536 bytes that were sent before it; and it fails where it waits 10 seconds for a
/// byte to be taken. A call that takes no byte is a failed one, and a peer that has gone is a
/// fault and no signal. Dropping the door ends the last connection as `accept` does.
pub struct TcpDoor<R: Net + Clock + Drop> {
    rt: R,
    port: u16,
    listener: Option<R::Listener>,
    guest: Option<Guest<R::Stream>>,
    faults: u64,
    missed: u64,
    why: Option<Reason>,
}

impl<R: Net + Clock + Drop> TcpDoor<R> {
    ghost use Rattle.outside_real.specs.TcpDoor.{tcp_door_faults, tcp_door_missed};

    /// The door at this port. It binds nothing: its first call of `accept` does. Where that is
    /// refused the call fails, and the next one tries again.
    pub fn new(rt: R, port: u16) -> TcpDoor<R>
        ensures faults { tcp_door_faults result ≡ 0 }
        ensures missed { tcp_door_missed result ≡ 0 }
    {
        TcpDoor {
            rt,
            port,
            listener: None,
            guest: None,
            faults: 0,
            missed: 0,
            why: None,
        }
    }

    /// Why the first call of `accept` that failed did.
    pub fn why(&self) -> Option<&Reason> {
        self.why.as_ref()
    }
}

impl<R: Net + Clock + Drop> Drop for TcpDoor<R> {
    fn drop(self) {
        let TcpDoor {
            rt,
            port: _,
            listener: _,
            guest,
            faults: _,
            missed: _,
            why: _,
        } = self;
        if let Some(last) = guest {
            last.end(&rt);
        }
    }
}

// How many connections at most are passed over that went away before they were taken.
const MOST_GONE: u64 = 1000;

// Whether the error is one of the connection that was to be taken, and not of the listener.
fn is_gone(error: &io::Error) -> bool {
    matches!(
        error.kind(),
        io::ErrorKind::ConnectionAborted
            | io::ErrorKind::ConnectionReset
            | io::ErrorKind::HostUnreachable
            | io::ErrorKind::NetworkUnreachable
            | io::ErrorKind::NetworkDown
            | io::ErrorKind::Interrupted
            | io::ErrorKind::TimedOut
    )
}

// The next connection that has not gone away before it is taken, made ready.
fn accept_one<L: OpenListener>(listener: &L) -> io::Result<L::Stream>
where
    L::Stream: OpenStream,
{
    for _ in 0..MOST_GONE {
        match listener.accept() {
            Ok((stream, _)) => {
                if prepare(&stream, HOST_PATIENCE).is_ok() {
                    return Ok(stream);
                }
            }
            Err(error) if is_gone(&error) => {}
            Err(error) => return Err(error),
        }
    }
    Err(io::Error::from(io::ErrorKind::ConnectionAborted))
}

// The next connection at the listener, which is bound if it is not yet.
fn next_guest<R: Net + Clock>(
    rt: &R,
    port: u16,
    listener: &mut Option<R::Listener>,
) -> io::Result<Guest<R::Stream>> {
    if listener.is_none() {
        let address = SocketAddr::from((Ipv4Addr::UNSPECIFIED, port));
        *listener = Some(TcpListener::bind(rt, address)?);
    }
    let Some(bound) = listener else {
        return Err(io::Error::from(io::ErrorKind::NotConnected));
    };
    let stream = accept_one(bound)?;
    Ok(Guest {
        stream,
        since: Instant::now(rt)?,
        sent: 0,
    })
}

// Ends the connection that stands, and takes the next one.
fn replace<R: Net + Clock>(
    rt: &R,
    port: u16,
    listener: &mut Option<R::Listener>,
    guest: &mut Option<Guest<R::Stream>>,
    why: &mut Option<Reason>,
) -> Result<(), Failed> {
    if let Some(last) = guest.take() {
        last.end(rt);
    }
    match next_guest(rt, port, listener) {
        Ok(next) => {
            *guest = Some(next);
            Ok(())
        }
        Err(error) => Err(keep(why, error)),
    }
}

fn receive<R: Net + Clock>(
    rt: &R,
    guest: &mut Option<Guest<R::Stream>>,
    buf: &mut [u8],
) -> Result<usize, Failed>
    ensures { IfOk result (λ n. n ≤ length buf.old) }
{
    match guest {
        Some(guest) => guest.receive(rt, buf),
        None => Err(Failed),
    }
}

fn send<R: Net + Clock>(
    rt: &R,
    guest: &mut Option<Guest<R::Stream>>,
    bytes: &[u8],
) -> Result<usize, Failed>
    ensures { IfOk result (λ n. TakesSome n bytes.now) }
{
    match guest {
        Some(guest) => guest.send(rt, bytes),
        None => Err(Failed),
    }
}

impl<R: Net + Clock + Drop> Door for TcpDoor<R> {
    ghost tells = { ⊥ };

    ghost accepted = { λ _. [] };

    ghost count = { λ d. d.faults };

    ghost misses = { λ d. d.missed };

    /// Ends the connection that stands, and waits for the next one without end. Before it ends one on which bytes
    /// wait that were not received, it receives what comes, within the 10 seconds of that connection.
    fn accept(&mut self) -> Result<(), Failed> {
        let done = replace(
            &self.rt,
            self.port,
            &mut self.listener,
            &mut self.guest,
            &mut self.why,
        );
        counted(&mut self.missed, done)
    }

    fn receive(&mut self, buf: &mut [u8]) -> Result<usize, Failed> {
        let done = receive(&self.rt, &mut self.guest, buf);
        counted(&mut self.faults, done)
    }

    fn send(&mut self, bytes: &[u8]) -> Result<usize, Failed> {
        let done = send(&self.rt, &mut self.guest, bytes);
        counted(&mut self.faults, done)
    }

    fn missed(&self) -> u64 {
        self.missed
    }

    fn faults(&self) -> u64 {
        self.faults
    }
}
