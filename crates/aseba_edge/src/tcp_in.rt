ghost use Rattle.std.specs.Prelude.{◌≡◌, ◌<◌, ◌≤◌, ◌^◌, IfSome, None, length, refl};

use crate::link::{LinkFault, LinkIn};
use crate::reading::read_once;
use std::net::TcpStream;

/// The input of a link over TCP. It gives its descriptor back at its end and at its first fault:
/// from then on it stays at its end, or fails again.
#[derive(Drop)]
pub struct TcpIn {
    stream: Option<TcpStream>,
    faults: u64,
    ghost counted: { faults < 2 ^ 64 },
}

impl TcpIn {
    /// Takes no memory.
    pub(crate) fn new(stream: TcpStream) -> TcpIn
        ensures { result.faults ≡ 0 }
    {
        TcpIn {
            stream: Some(stream),
            faults: 0,
        }
    }

    /// How many bytes came, none where the read failed.
    fn take(&mut self, buf: &mut [u8]) -> Option<usize>
        ensures fits { IfSome result (λ count. count ≤ length buf.old) }
        ensures faults { self.new.faults ≡ self.old.faults }
    {
        if buf.is_empty() {
            return Some(0);
        }
        let Some(stream) = &mut self.stream else {
            return if self.faults == 0 { Some(0) } else { None };
        };
        let count = read_once(stream, buf).ok()?;
        if count == 0 {
            self.stream = None;
        }
        Some(count)
    }
}

impl LinkIn for TcpIn {
    ghost contents = { λ _. None };

    ghost mark = { λ _. None };

    ghost faults = { λ input. input.faults };

    ghost tells_mark = { λ _. refl };

    ghost bounds_faults = { λ input. input.counted };

    fn read(&mut self, buf: &mut [u8]) -> Result<usize, LinkFault> {
        match self.take(buf) {
            Some(count) => Ok(count),
            None => {
                self.stream = None;
                self.faults = self.faults.saturating_add(1);
                Err(LinkFault)
            }
        }
    }
}
