ghost use Rattle.std.specs.Prelude.{◌≡◌, ◌<◌, ◌^◌, Err, IfOk, None};
ghost use Rattle.aseba_edge.specs.Counts.{Counts};
ghost use Rattle.aseba_edge.specs.Dialer.{is_refused};

use crate::dialer::{DialFault, Dialer};
use crate::polled_socket::PolledSocket;
use crate::tcp_in::TcpIn;
use crate::tcp_out::{Outgoing, TcpOut};
use crate::tcp_poll::TcpPoll;
use mio::Interest;
use std::alloc::Global;
use std::io;
use std::io::ErrorKind;
use std::net::{Net, TcpStream};

/// A dialer over TCP. An address is a host, by its name or number, a colon and a port. The links
/// send small pieces at once.
#[derive(Drop)]
pub struct SystemDialer<R> {
    rt: R,
    faults: u64,
    ghost counted: { faults < 2 ^ 64 },
}

impl<R> SystemDialer<R> {
    /// Takes no memory.
    pub fn new(rt: R) -> SystemDialer<R>
        ensures rt { result.rt ≡ rt }
        ensures faults { result.faults ≡ 0 }
    {
        SystemDialer { rt, faults: 0 }
    }

    /// What a dial answers that failed with an error. Unless it was for want of memory, it counts.
    fn fault(&mut self, error: io::Error) -> DialFault
        ensures count { Counts (is_refused {T = Unit {0}} (Err result)) self.old.faults self.new.faults }
    {
        if error.kind() == ErrorKind::OutOfMemory {
            return DialFault::Mem;
        }
        self.faults = self.faults.saturating_add(1);
        DialFault::Refused
    }
}

/// Connects to an address.
fn connect<N: Net<Stream = TcpStream>>(net: &N, address: &str) -> io::Result<TcpStream> {
    let stream = TcpStream::connect(net, address)?;
    stream.set_nodelay(true)?;
    Ok(stream)
}

/// Connects to an address, and gives both ends.
fn open<N: Net<Stream = TcpStream>>(net: &N, address: &str) -> io::Result<(TcpIn, TcpOut)>
    ensures input { IfOk result (λ ends. ends.0.faults ≡ 0) }
    ensures output { IfOk result (λ ends. ends.1.faults ≡ 0) }
{
    let stream = connect(net, address)?;
    let output = TcpOut::new(Outgoing::Waiting(stream.try_clone()?));
    Ok((TcpIn::new(stream), output))
}

/// Connects to an address, and gives both ends of a link that is polled.
fn open_polled<N: Net<Stream = TcpStream>>(
    alloc: Global,
    net: &N,
    address: &str,
) -> io::Result<(TcpPoll, TcpOut)>
    ensures input { IfOk result (λ ends. ends.0.faults ≡ 0) }
    ensures output { IfOk result (λ ends. ends.1.faults ≡ 0) }
{
    let stream = connect(net, address)?;
    let outgoing = PolledSocket::new(alloc, net, stream.try_clone()?, Interest::WRITABLE)?;
    let incoming = PolledSocket::new(alloc, net, stream, Interest::READABLE)?;
    let output = TcpOut::new(Outgoing::Polled(outgoing));
    Ok((TcpPoll::new(incoming), output))
}

impl<R: Net<Stream = TcpStream>> Dialer for SystemDialer<R> {
    type In = TcpIn;

    type Out = TcpOut;

    type Poll = TcpPoll;

    ghost contents = { λ _. None };

    ghost faults = { λ dialer. dialer.faults };

    ghost bounds_faults = { λ dialer. dialer.counted };

    fn dial(&mut self, _alloc: Global, address: &str) -> Result<(TcpIn, TcpOut), DialFault> {
        match open(&self.rt, address) {
            Ok(ends) => Ok(ends),
            Err(error) => Err(self.fault(error)),
        }
    }

    fn dial_polled(
        &mut self,
        alloc: Global,
        address: &str,
    ) -> Result<(TcpPoll, TcpOut), DialFault> {
        match open_polled(alloc, &self.rt, address) {
            Ok(ends) => Ok(ends),
            Err(error) => Err(self.fault(error)),
        }
    }
}
