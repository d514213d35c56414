ghost use Rattle.std.specs.Prelude.{◌≡◌, ◌<◌, ◌^◌, None};
ghost use Rattle.aseba_edge.specs.Listener.{IfLink};

use crate::link::LinkOut;
use crate::listener::{Accepted, ListenFault, Listener};
use crate::tcp_in::TcpIn;
use crate::tcp_out::{Outgoing, TcpOut};
use std::alloc::Global;
use std::io;
use std::io::ErrorKind;
use std::net::{Ipv4Addr, Net, TcpListener, TcpStream};
use std::time::Duration;

/// For how many seconds a peer may take nothing before a put to it fails.
const PATIENCE: u64 = 30;

/// A listener over TCP. The links send small pieces at once, and a put of which the peer takes
/// nothing for 30 seconds fails.
#[derive(Drop)]
pub struct SystemListener<R> {
    rt: R,
    address: Ipv4Addr,
    listener: Option<TcpListener>,
    faults: u64,
    ghost counted: { faults < 2 ^ 64 },
}

impl<R> SystemListener<R> {
    /// A listener at all addresses of the machine. It takes no memory.
    pub fn everywhere(rt: R) -> SystemListener<R>
        ensures rt { result.rt ≡ rt }
        ensures faults { result.faults ≡ 0 }
    {
        SystemListener::at(rt, Ipv4Addr::UNSPECIFIED)
    }

    /// A listener that only the machine itself can reach. It takes no memory.
    pub fn on_loopback(rt: R) -> SystemListener<R>
        ensures rt { result.rt ≡ rt }
        ensures faults { result.faults ≡ 0 }
    {
        SystemListener::at(rt, Ipv4Addr::LOCALHOST)
    }

    fn at(rt: R, address: Ipv4Addr) -> SystemListener<R>
        ensures rt { result.rt ≡ rt }
        ensures faults { result.faults ≡ 0 }
    {
        SystemListener {
            rt,
            address,
            listener: None,
            faults: 0,
        }
    }
}

/// Whether an error is that of a connection which was lost before it was taken.
fn is_of_connection(kind: ErrorKind) -> bool {
    matches!(
        kind,
        ErrorKind::ConnectionAborted
            | ErrorKind::ConnectionReset
            | ErrorKind::HostUnreachable
            | ErrorKind::Interrupted
            | ErrorKind::NetworkDown
            | ErrorKind::NetworkUnreachable
            | ErrorKind::PermissionDenied
            | ErrorKind::TimedOut
    )
}

/// Sets up a connection that was taken. One that is lost already can refuse it.
fn set_up(stream: &TcpStream) -> io::Result<()> {
    stream.set_nodelay(true)?;
    stream.set_write_timeout(Some(Duration::from_secs(PATIENCE)))
}

/// The answer to an error of the listener itself.
fn refused<I, O>(error: io::Error) -> Accepted<I, O>
    ensures { IfLink result (λ _ _. ⊥) }
{
    if error.kind() == ErrorKind::OutOfMemory {
        return Accepted::Mem;
    }
    Accepted::Failed
}

/// Both ends of a connection.
fn ends(stream: TcpStream) -> Accepted<TcpIn, TcpOut>
    ensures input { IfLink result (λ input _. input.faults ≡ 0) }
    ensures output { IfLink result (λ _ output. output.faults ≡ 0) }
{
    match stream.try_clone() {
        Ok(other) => Accepted::Link(TcpIn::new(stream), TcpOut::new(Outgoing::Waiting(other))),
        Err(error) => refused(error),
    }
}

/// Takes the next connection, and passes over those that were lost before.
fn next_link(listener: &TcpListener) -> Accepted<TcpIn, TcpOut>
    ensures input { IfLink result (λ input _. input.faults ≡ 0) }
    ensures output { IfLink result (λ _ output. output.faults ≡ 0) }
{
    for _ in 0..u64::MAX {
        match listener.accept() {
            Ok((stream, _)) => {
                if set_up(&stream).is_ok() {
                    return ends(stream);
                }
            }
            Err(error) if is_of_connection(error.kind()) => {}
            Err(error) => return refused(error),
        }
    }
    Accepted::Failed
}

impl<R: Net<Listener = TcpListener, Stream = TcpStream> + Drop> Listener for SystemListener<R> {
    type In = TcpIn;

    type Out = TcpOut;

    ghost contents = { λ _. None };

    ghost faults = { λ listener. listener.faults };

    ghost bounds_faults = { λ listener. listener.counted };

    fn open(&mut self, port: u16) -> Result<(), ListenFault> {
        match TcpListener::bind(&self.rt, (self.address, port)) {
            Ok(listener) => {
                self.listener = Some(listener);
                Ok(())
            }
            Err(_) => {
                self.faults = self.faults.saturating_add(1);
                Err(ListenFault)
            }
        }
    }

    fn accept(&mut self, _alloc: Global) -> Accepted<TcpIn, TcpOut> {
        let answer = match &self.listener {
            Some(listener) => next_link(listener),
            None => Accepted::Failed,
        };
        if matches!(answer, Accepted::Failed) {
            self.faults = self.faults.saturating_add(1);
        }
        answer
    }

    fn back(&mut self, _input: TcpIn, output: TcpOut) {
        let mut output = output;
        output.hang_up();
    }
}
