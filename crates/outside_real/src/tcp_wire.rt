// A client's connections over a network.
ghost use Rattle.std.specs.Prelude.{◌≡◌, ◌<◌, ◌≤◌, [], None, length, take, IfOk, OnOk, OnErr};
ghost use Rattle.outside.specs.Streams.{Causes, TakesSome};
ghost use Rattle.connections.specs.Wire.{Connects, Receives, Sends, all_sent};

use crate::counted::counted;
use crate::stream::{CLIENT_PATIENCE, connect, prepare, receive_some, send_some};
use connections::Wire;
use outside::Failed;
use small_types::Text;
use std::io;
use std::net::{Net, OpenStream};
use std::rt::Clock;
use std::time::Duration;

/// The TCP connections of a client, over a runtime's network. It tells no content. A host is a name
/// or an address. A connection that is not made within 60 seconds is a failed call, and so is a
/// call that waits that long for a byte to come or to be taken; the system's search for the
/// addresses of a name has its own limits. A call that takes no byte is a failed one, and a peer
/// that has gone is a fault and no signal.
#[derive(Drop)]
pub struct TcpWire<R: Net + Clock + Drop> {
    rt: R,
    stream: Option<R::Stream>,
    faults: u64,
}

impl<R: Net + Clock + Drop> TcpWire<R> {
    ghost use Rattle.outside_real.specs.TcpWire.{tcp_wire_faults};

    /// It connects to nothing yet.
    pub fn new(rt: R) -> TcpWire<R>
        ensures { tcp_wire_faults result ≡ 0 }
    {
        TcpWire {
            rt,
            stream: None,
            faults: 0,
        }
    }
}

// A connection that waits no longer than the client's patience.
fn patient<R: Net + Clock>(rt: &R, host: &str, port: u16) -> io::Result<R::Stream> {
    let stream = connect(rt, host, port)?;
    prepare(&stream, CLIENT_PATIENCE)?;
    stream.set_read_timeout(Some(Duration::from_secs(CLIENT_PATIENCE)))?;
    Ok(stream)
}

fn replace<R: Net + Clock>(
    rt: &R,
    stream: &mut Option<R::Stream>,
    host: &Text,
    port: u16,
) -> Result<(), Failed> {
    *stream = None;
    match patient(rt, host.as_str(), port) {
        Ok(made) => {
            *stream = Some(made);
            Ok(())
        }
        Err(_) => Err(Failed),
    }
}

fn receive<R: Net>(stream: &mut Option<R::Stream>, buf: &mut [u8]) -> Result<usize, Failed>
    ensures { IfOk result (λ n. n ≤ length buf.old) }
{
    match stream {
        Some(stream) => receive_some(stream, buf),
        None => Err(Failed),
    }
}

fn send<R: Net>(stream: &mut Option<R::Stream>, bytes: &[u8]) -> Result<usize, Failed>
    ensures { IfOk result (λ n. TakesSome n bytes.now) }
{
    match stream {
        Some(stream) => send_some(stream, bytes),
        None => Err(Failed),
    }
}

impl<R: Net + Clock + Drop> Wire for TcpWire<R> {
    ghost tells = { ⊥ };

    ghost over = { λ _. [] };

    ghost present = { λ _. None };

    ghost count = { λ w. w.faults };

    fn connect(&mut self, host: &Text, port: u16) -> Result<(), Failed> {
        let done = replace(&self.rt, &mut self.stream, host, port);
        counted(&mut self.faults, done)
    }

    fn receive(&mut self, buf: &mut [u8]) -> Result<usize, Failed> {
        let done = receive::<R>(&mut self.stream, buf);
        counted(&mut self.faults, done)
    }

    fn send(&mut self, bytes: &[u8]) -> Result<usize, Failed> {
        let done = send::<R>(&mut self.stream, bytes);
        counted(&mut self.faults, done)
    }

    fn faults(&self) -> u64 {
        self.faults
    }
}
