ghost use Rattle.std.specs.Prelude.{◌≡◌, ◌<◌, ◌^◌, None, refl};

use crate::poll::{LinkPoll, Polled};
use crate::polled_socket::PolledSocket;
use std::time::Duration;

/// The input of a link over TCP, for one who polls it. A poll waits up to a millisecond for bytes, so
/// that one who polls on and on takes next to no processor. It gives its descriptor back at its end
/// and at its first fault: from then on it stays at its end, or fails again.
#[derive(Drop)]
pub struct TcpPoll {
    socket: Option<PolledSocket>,
    faults: u64,
    ghost counted: { faults < 2 ^ 64 },
}

impl TcpPoll {
    /// Takes no memory.
    pub(crate) fn new(socket: PolledSocket) -> TcpPoll
        ensures { result.faults ≡ 0 }
    {
        TcpPoll {
            socket: Some(socket),
            faults: 0,
        }
    }
}

impl LinkPoll for TcpPoll {
    ghost contents = { λ _. None };

    ghost mark = { λ _. None };

    ghost faults = { λ input. input.faults };

    ghost tells_mark = { λ _. refl };

    ghost bounds_faults = { λ input. input.counted };

    fn poll(&mut self, buf: &mut [u8]) -> Polled {
        let answer = match &mut self.socket {
            Some(socket) => socket.take_within(Duration::from_millis(1), buf),
            None if self.faults == 0 => Polled::Ended,
            None => Polled::Failed,
        };
        match answer {
            Polled::Piece(_) | Polled::NotYet => {}
            Polled::Ended => self.socket = None,
            Polled::Failed => {
                self.socket = None;
                self.faults = self.faults.saturating_add(1);
            }
        }
        answer
    }
}
