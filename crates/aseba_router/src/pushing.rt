ghost use Rattle.std.specs.Prelude.{◌≡◌, ◌+◌, ◌<◌, ◌≤◌, ◌^◌, length};
ghost use Rattle.std.specs.Arc.{arc_value};
ghost use Rattle.aseba_router.specs.Handed.{Gave};
ghost use Rattle.aseba_router.specs.Hub.{frame as frame_put};
ghost use Rattle.aseba_router.specs.Queue.{Drained, OthersStay};

use crate::entry::Entry;
use crate::ports::Ports;
use crate::session::Session;
use aseba_message::Frame;
use std::alloc::Global;
use std::collections::VecDeque;
use std::sync::Arc;

/// Pushes the Ends that wait for a port, in order, up to the first that comes back. Says whether one
/// did.
pub(crate) fn drain<P: Ports>(waiting: &mut VecDeque<Session>, port: u16, ports: &mut P) -> bool
    requires there { port < P.ports ports.old }
    requires room { length (P.queue ports.old port).list + length waiting.old.items ≤ 2 ^ 62 }
    ensures drained { Drained result waiting.old.items (P.queue ports.old port) waiting.new.items (P.queue ports.new port) }
    ensures others { OthersStay port (P.queue ports.old) (P.queue ports.new) }
    ensures count { P.ports ports.new ≡ P.ports ports.old }
{
    while let Some(&session) = waiting.front() {
        if ports.push(port, Entry::End(session)).is_err() {
            return true;
        }
        waiting.pop_front();
    }
    false
}

/// Pushes a frame behind the Ends that wait for a port. Says whether something came back.
pub(crate) fn give<P: Ports>(
    waiting: &mut VecDeque<Session>,
    port: u16,
    frame: Arc<Frame, Global>,
    ports: &mut P,
) -> bool
    requires there { port < P.ports ports.old }
    requires room { length (P.queue ports.old port).list + length waiting.old.items < 2 ^ 62 }
    ensures gave { Gave (frame_put (arc_value frame)) result waiting.old.items (P.queue ports.old port) waiting.new.items (P.queue ports.new port) }
    ensures others { OthersStay port (P.queue ports.old) (P.queue ports.new) }
    ensures count { P.ports ports.new ≡ P.ports ports.old }
{
    if drain(waiting, port, ports) {
        return true;
    }
    ports.push(port, Entry::Frame(frame)).is_err()
}
