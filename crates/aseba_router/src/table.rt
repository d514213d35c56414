//! The rows of the router's table, one for each port.
ghost use Rattle.std.specs.Prelude.{◌≡◌, ◌<◌, ◌≤◌, ◌^◌, ℕ, Bool, length, OnOk, OnErr};
ghost use Rattle.std.specs.Arc.{arc_value};
ghost use Rattle.aseba_router.specs.Handed.{AllHanded, AllShared, AllTried, Happened, HaveRoom, KeptPorts};
ghost use Rattle.aseba_router.specs.Hub.{joins, leaves, says};
ghost use Rattle.aseba_router.specs.Queue.{Queue};
ghost use Rattle.aseba_router.specs.Routed.{port_of};
ghost use Rattle.aseba_router.specs.Shown.{act};

use crate::item::Item;
use crate::place::Place;
use crate::ports::Ports;
use crate::session::Session;
use aseba_message::Frame;
use aseba_words::Mem;
use std::alloc::Global;
use std::sync::Arc;

/// Takes a share of a frame for each session that hears it.
fn take_shares(
    places: &mut [Place],
    sayer: Session,
    frame: &Arc<Frame, Global>,
    echo: bool,
) -> Result<(), Mem>
    ensures shared { OnOk result (AllShared echo sayer (arc_value frame.now) places.old places.new) }
    ensures kept { KeptPorts places.old places.new }
{
    for index in 0..places.len() {
        places[index].take_share(sayer, frame, echo)?;
    }
    Ok(())
}

/// Pushes the shares, in the order of the ports.
fn hand_all<P: Ports>(places: &mut [Place], at: u64, ports: &mut P)
    requires few { length places.old < 2 ^ 16 }
    requires there { length places.old ≤ P.ports ports.old }
    requires room { HaveRoom at places.old (P.queue ports.old) }
    requires begun { at < 2 ^ 62 }
    ensures handed { AllHanded at places.old (P.queue ports.old) places.new (P.queue ports.new) }
    ensures count { P.ports ports.new ≡ P.ports ports.old }
{
    for index in 0..places.len() {
        places[index].hand(index as u16, at, ports);
    }
}

/// A session says a frame.
fn say<P: Ports>(
    places: &mut [Place],
    sayer: Session,
    frame: &Arc<Frame, Global>,
    at: u64,
    echo: bool,
    ports: &mut P,
) -> Result<(), Mem>
    requires few { length places.old < 2 ^ 16 }
    requires there { length places.old ≤ P.ports ports.old }
    requires room { HaveRoom at places.old (P.queue ports.old) }
    requires begun { at < 2 ^ 62 }
    ensures happened { OnOk result (Happened (says sayer (arc_value frame.now)) echo at places.old (P.queue ports.old) places.new (P.queue ports.new)) }
    ensures kept { OnErr result (KeptPorts places.old places.new × (ports.new ≡ ports.old)) }
    ensures count { P.ports ports.new ≡ P.ports ports.old }
{
    take_shares(places, sayer, frame, echo)?;
    hand_all(places, at, ports);
    Ok(())
}

/// A session joins.
fn join(places: &mut [Place], session: Session)
    requires { session.port < length places.old }
    ensures { (echo : Bool) (at : ℕ) (queues : ℕ → Queue) →
        Happened (joins session) echo at places.old queues places.new queues }
{
    places[usize::from(session.port)].join(session);
}

/// A session leaves.
fn leave<P: Ports>(
    places: &mut [Place],
    session: Session,
    at: u64,
    ports: &mut P,
) -> Result<(), Mem>
    requires port { session.port < length places.old }
    requires there { length places.old ≤ P.ports ports.old }
    requires room { HaveRoom at places.old (P.queue ports.old) }
    requires begun { at < 2 ^ 62 }
    ensures happened { OnOk result ((echo : Bool) → Happened (leaves session) echo at places.old (P.queue ports.old) places.new (P.queue ports.new)) }
    ensures kept { OnErr result (KeptPorts places.old places.new × (ports.new ≡ ports.old)) }
    ensures count { P.ports ports.new ≡ P.ports ports.old }
{
    places[usize::from(session.port)].leave(session, at, ports)
}

/// An item happens.
pub(crate) fn happen<P: Ports>(
    places: &mut [Place],
    item: Item,
    at: u64,
    echo: bool,
    ports: &mut P,
) -> Result<(), Mem>
    requires port { port_of (act item) < length places.old }
    requires few { length places.old < 2 ^ 16 }
    requires there { length places.old ≤ P.ports ports.old }
    requires room { HaveRoom at places.old (P.queue ports.old) }
    requires begun { at < 2 ^ 62 }
    ensures happened { OnOk result (Happened (act item) echo at places.old (P.queue ports.old) places.new (P.queue ports.new)) }
    ensures kept { OnErr result (KeptPorts places.old places.new × (ports.new ≡ ports.old)) }
    ensures count { P.ports ports.new ≡ P.ports ports.old }
{
    match item {
        Item::Join(session) => {
            join(places, session);
            Ok(())
        }
        Item::Said(sayer, frame) => say(places, sayer, &frame, at, echo, ports),
        Item::Leave(session) => leave(places, session, at, ports),
    }
}

/// Pushes the Ends that wait, in the order of the ports.
pub(crate) fn retry_all<P: Ports>(places: &mut [Place], ports: &mut P)
    requires few { length places.old < 2 ^ 16 }
    requires there { length places.old ≤ P.ports ports.old }
    requires room { HaveRoom (2 ^ 62) places.old (P.queue ports.old) }
    ensures tried { AllTried places.old (P.queue ports.old) places.new (P.queue ports.new) }
    ensures count { P.ports ports.new ≡ P.ports ports.old }
{
    for index in 0..places.len() {
        places[index].retry(index as u16, ports);
    }
}
