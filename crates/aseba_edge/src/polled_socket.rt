ghost use Rattle.std.specs.Prelude.{◌<◌, length};
ghost use Rattle.aseba_edge.specs.Link.{IsInRoom};

use crate::poll::Polled;
use mio::net::TcpStream;
use mio::{Events, Interest, Poll, Token};
use std::alloc::Global;
use std::io::{ErrorKind, Read, Write};
use std::net::{Net, Shutdown};
use std::time::Duration;
use std::{io, net};

/// A TCP socket whose reads and writes never wait, and what waits until it is ready for one of them.
#[derive(Drop)]
pub(crate) struct PolledSocket {
    stream: TcpStream,
    poll: Poll,
    events: Events,
}

impl PolledSocket {
    /// Makes the socket one that never waits. All that it will need of memory is taken here.
    pub fn new<N: Net>(
        alloc: Global,
        net: &N,
        stream: net::TcpStream,
        interest: Interest,
    ) -> io::Result<PolledSocket> {
        stream.set_nonblocking(true)?;
        let mut stream = TcpStream::from_std(stream);
        let poll = Poll::new(net)?;
        poll.registry().register(&mut stream, Token(0), interest)?;
        let events = Events::with_capacity(alloc, 1)?;
        Ok(PolledSocket {
            stream,
            poll,
            events,
        })
    }

    /// Waits until the socket has become ready, but no longer than a time.
    fn wait(&mut self, most: Duration) -> io::Result<()> {
        self.poll.poll(&mut self.events, Some(most))
    }

    /// Takes what has come.
    fn take(&mut self, buf: &mut [u8]) -> Polled
        requires { 0 < length buf.old }
        ensures { IsInRoom (length buf.old) result }
    {
        match self.stream.read(buf) {
            Ok(0) => Polled::Ended,
            Ok(count) => Polled::Piece(count),
            Err(error) => match error.kind() {
                ErrorKind::WouldBlock | ErrorKind::Interrupted => Polled::NotYet,
                _ => Polled::Failed,
            },
        }
    }

    /// Takes what has come, or comes within a time.
    pub fn take_within(&mut self, most: Duration, buf: &mut [u8]) -> Polled
        requires { 0 < length buf.old }
        ensures { IsInRoom (length buf.old) result }
    {
        let answer = self.take(buf);
        if !matches!(answer, Polled::NotYet) {
            return answer;
        }
        if self.wait(most).is_err() {
            return Polled::Failed;
        }
        self.take(buf)
    }

    /// Closes the connection on both sides.
    pub fn shut(&self) -> io::Result<()> {
        self.stream.shutdown(Shutdown::Both)
    }
}

/// Where the socket takes nothing now, one waits until it does, and the write counts as interrupted.
impl Write for PolledSocket {
    fn write(&mut self, bytes: &[u8]) -> io::Result<usize> {
        match self.stream.write(bytes) {
            Err(error) if error.kind() == ErrorKind::WouldBlock => {
                self.wait(Duration::from_secs(1))?;
                Err(io::Error::from(ErrorKind::Interrupted))
            }
            answer => answer,
        }
    }

    fn flush(&mut self) -> io::Result<()> {
        Ok(())
    }
}
