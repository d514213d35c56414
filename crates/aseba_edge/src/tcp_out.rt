ghost use Rattle.std.specs.Prelude.{◌≡◌, ◌<◌, ◌^◌, None, refl};

use crate::link::LinkOut;
use crate::polled_socket::PolledSocket;
use crate::sink::PutFault;
use crate::writer_sink::write_on;
use std::io;
use std::io::Write;
use std::net::{Shutdown, TcpStream};

/// A socket that takes bytes, and waits until it can or is polled for that.
#[derive(Drop)]
pub(crate) enum Outgoing {
    Waiting(TcpStream),
    Polled(PolledSocket),
}

impl Outgoing {
    /// Closes the connection on both sides.
    fn shut(&self) -> io::Result<()> {
        match self {
            Outgoing::Waiting(stream) => stream.shutdown(Shutdown::Both),
            Outgoing::Polled(socket) => socket.shut(),
        }
    }
}

impl Write for Outgoing {
    fn write(&mut self, bytes: &[u8]) -> io::Result<usize> {
        match self {
            Outgoing::Waiting(stream) => stream.write(bytes),
            Outgoing::Polled(socket) => socket.write(bytes),
        }
    }

    fn flush(&mut self) -> io::Result<()> {
        Ok(())
    }
}

/// The output of a link over TCP. It gives its descriptor back when it hangs up: from then on each
/// put fails, but a put of nothing.
#[derive(Drop)]
pub struct TcpOut {
    socket: Option<Outgoing>,
    faults: u64,
    ghost counted: { faults < 2 ^ 64 },
}

impl TcpOut {
    /// Takes no memory.
    pub(crate) fn new(socket: Outgoing) -> TcpOut
        ensures { result.faults ≡ 0 }
    {
        TcpOut {
            socket: Some(socket),
            faults: 0,
        }
    }
}

impl LinkOut for TcpOut {
    ghost taken = { λ _. None };

    ghost mark = { λ _. None };

    ghost faults = { λ output. output.faults };

    ghost tells_mark = { λ _. refl };

    ghost bounds_faults = { λ output. output.counted };

    fn put(&mut self, piece: &[u8]) -> Result<(), PutFault> {
        let taken = match &mut self.socket {
            Some(socket) => write_on(socket, piece),
            None => 0,
        };
        if taken < piece.len() {
            self.faults = self.faults.saturating_add(1);
            return Err(PutFault { taken });
        }
        Ok(())
    }

    fn hang_up(&mut self) {
        if let Some(socket) = self.socket.take() {
            // A connection that is gone already is closed as well as can be.
            let _ = socket.shut();
        }
    }
}
