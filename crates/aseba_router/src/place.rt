ghost use Rattle.std.specs.Prelude.{◌≡◌, ◌+◌, ◌<◌, ◌≤◌, ◌^◌, length, OnOk, OnErr};
ghost use Rattle.std.specs.Arc.{arc_value};
ghost use Rattle.aseba_router.specs.Hub.{same, leaves};
ghost use Rattle.aseba_router.specs.Port.{hears, is_session, marked};
ghost use Rattle.aseba_router.specs.Queue.{OthersStay};
ghost use Rattle.aseba_router.specs.Routed.{Tries};

use crate::ports::Ports;
use crate::pushing::{drain, give};
use crate::session::Session;
use aseba_message::Frame;
use aseba_words::Mem;
use std::alloc::Global;
use std::collections::VecDeque;
use std::sync::Arc;

/// What the router knows of a port.
#[derive(Drop)]
pub(crate) struct Place {
    /// The session that is in.
    pub session: Option<Session>,
    /// The sessions whose Ends came back, in order.
    pub waiting: VecDeque<Session>,
    /// The place of the item by which the last session was dropped.
    pub full: Option<u64>,
    /// The share of a frame that the session is to get next. Shares are taken before any push.
    pub share: Option<Arc<Frame, Global>>,
}

/// Whether two sessions are one.
fn is_same(one: Session, other: Session) -> bool
    ensures { result ≡ same one other }
{
    one.port == other.port && one.nth == other.nth
}

impl Place {
    ghost use Rattle.aseba_router.specs.Handed.{Hands, shared};
    ghost use Rattle.aseba_router.specs.Rows.{blank, row};
    ghost use Rattle.aseba_router.specs.Left.{Left};

    /// A port that no session has held.
    pub fn new(alloc: Global) -> Place
        ensures { row result ≡ blank }
    {
        Place {
            session: None,
            waiting: VecDeque::new(alloc),
            full: None,
            share: None,
        }
    }

    /// Whether the session of the port hears what another one says.
    fn hears(&self, sayer: Session, echo: bool) -> bool
        ensures { result ≡ hears echo sayer self.now.session self.now.full }
    {
        match self.session {
            Some(session) => self.full.is_none() && (echo || !is_same(session, sayer)),
            None => false,
        }
    }

    /// Takes a share of a frame if the session hears it.
    pub fn take_share(
        &mut self,
        sayer: Session,
        frame: &Arc<Frame, Global>,
        echo: bool,
    ) -> Result<(), Mem>
        ensures shared { OnOk result (row self.new ≡ shared echo sayer (arc_value frame.now) (row self.old)) }
        ensures port { (row self.new).port ≡ (row self.old).port }
    {
        self.share = None;
        if self.hears(sayer, echo) {
            self.share = Some(Arc::try_clone(frame)?);
        }
        Ok(())
    }

    /// Keeps the place of the first item at which a push came back.
    fn mark(&mut self, back: bool, at: u64)
        ensures { self.new ≡ record self.old { full = marked at back self.old.full } }
    {
        if back && self.full.is_none() {
            self.full = Some(at);
        }
    }

    /// Pushes the share, if there is one. Says whether something came back.
    pub fn hand<P: Ports>(&mut self, port: u16, at: u64, ports: &mut P) -> bool
        requires there { port < P.ports ports.old }
        requires room { length (P.queue ports.old port).list + length self.old.waiting.items < 2 ^ 62 }
        ensures handed { Hands result at (row self.old) (P.queue ports.old port) (row self.new) (P.queue ports.new port) }
        ensures others { OthersStay port (P.queue ports.old) (P.queue ports.new) }
        ensures count { P.ports ports.new ≡ P.ports ports.old }
    {
        let Some(share) = self.share.take() else {
            return false;
        };
        let back = give(&mut self.waiting, port, share, ports);
        self.mark(back, at);
        back
    }

    /// Lets a session in, in the place of one that there was.
    pub fn join(&mut self, session: Session)
        ensures { row self.new ≡ record (row self.old) { port = record (row self.old).port { session = Some session; full = None } } }
    {
        self.session = Some(session);
        self.full = None;
    }

    /// Whether the session of the port is this one.
    fn holds(&self, session: Session) -> bool
        ensures { result ≡ is_session session self.now.session }
    {
        let Some(there) = self.session else {
            return false;
        };
        is_same(there, session)
    }

    /// Lets the port's session out and pushes its End, behind those that wait. The End has a place
    /// among them before anything is pushed.
    pub fn leave<P: Ports>(&mut self, session: Session, at: u64, ports: &mut P) -> Result<(), Mem>
        requires there { session.port < P.ports ports.old }
        requires room { length (P.queue ports.old session.port).list + length self.old.waiting.items < 2 ^ 62 }
        ensures left { OnOk result (Left session at (row self.old) (P.queue ports.old session.port) (row self.new) (P.queue ports.new session.port)) }
        ensures refused { OnErr result ((row self.new ≡ row self.old) × (ports.new ≡ ports.old)) }
        ensures others { OthersStay session.port (P.queue ports.old) (P.queue ports.new) }
        ensures count { P.ports ports.new ≡ P.ports ports.old }
    {
        if !self.holds(session) {
            return Ok(());
        }
        self.waiting.push_back(session)?;
        self.session = None;
        let back = drain(&mut self.waiting, session.port, ports);
        self.mark(back, at);
        Ok(())
    }

    /// Pushes the Ends that wait.
    pub fn retry<P: Ports>(&mut self, port: u16, ports: &mut P)
        requires there { port < P.ports ports.old }
        requires room { length (P.queue ports.old port).list + length self.old.waiting.items ≤ 2 ^ 62 }
        ensures tried { Tries (row self.old).port (P.queue ports.old port) (row self.new).port (P.queue ports.new port) }
        ensures others { OthersStay port (P.queue ports.old) (P.queue ports.new) }
        ensures count { P.ports ports.new ≡ P.ports ports.old }
    {
        drain(&mut self.waiting, port, ports);
    }
}
