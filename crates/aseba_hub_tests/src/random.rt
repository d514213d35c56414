//! Random lists of items, with pops and tries between them. What each port's sessions get is
//! compared with what they are owed, as a plain program computes it from the list.
use crate::dice::Dice;
use crate::hub::Hub;
use aseba_router::Session;
use aseba_words::Mem;
use std::alloc::Global;
use std::test::Fail;

/// How many ports the hubs have.
const PORTS: u16 = 3;

/// What happened, in order.
#[derive(Clone, Copy, Drop)]
enum Deed {
    Joined(Session),
    Said(Session, u16),
    Left(Session),
}

/// A session of a port, and what became of it.
#[derive(Clone, Copy, Drop)]
struct Stay {
    session: Session,
    is_in: bool,
    full: Option<u64>,
}

fn is_one(one: Session, other: Session) -> bool {
    one.port == other.port && one.nth == other.nth
}

/// The kinds of the frames that a session is owed, and then none for its End if it has left.
fn owed(alloc: Global, deeds: &[Deed], stay: &Stay, echo: bool) -> Result<Vec<Option<u16>>, Mem> {
    let mut kinds = Vec::new(alloc);
    let mut is_in = false;
    for (place, deed) in deeds.iter().enumerate() {
        if stay.full == Some(place as u64) {
            break;
        }
        match *deed {
            Deed::Joined(session) => is_in = is_in || is_one(session, stay.session),
            Deed::Left(session) => is_in = is_in && !is_one(session, stay.session),
            Deed::Said(session, kind) => {
                if is_in && (echo || !is_one(session, stay.session)) {
                    kinds.push(Some(kind))?;
                }
            }
        }
    }
    if !stay.is_in {
        kinds.push(None)?;
    }
    Ok(kinds)
}

/// A hub, what happened in it and what was popped from its queues.
#[derive(Drop)]
struct Game {
    hub: Hub,
    deeds: Vec<Deed>,
    stays: Vec<Stay>,
    got: Vec<(u16, Option<u16>)>,
}

impl Game {
    fn new(alloc: Global, queue: u32, echo: bool) -> Result<Game, Mem> {
        Ok(Game {
            hub: Hub::new(alloc, PORTS, queue, echo)?,
            deeds: Vec::new(alloc),
            stays: Vec::new(alloc),
            got: Vec::new(alloc),
        })
    }

    /// The last session of a port.
    fn last(&self, port: u16) -> Option<Stay> {
        self.stays
            .iter()
            .rev()
            .find(|stay| stay.session.port == port)
            .copied()
    }

    /// The next session of a port joins, if the last one has left.
    fn join(&mut self, port: u16) -> Result<(), Mem> {
        let nth = match self.last(port) {
            Some(stay) if stay.is_in => return Ok(()),
            Some(stay) => stay.session.nth.saturating_add(1),
            None => 0,
        };
        let session = Session { port, nth };
        self.hub.join(session)?;
        self.deeds.push(Deed::Joined(session))?;
        self.stays.push(Stay {
            session,
            is_in: true,
            full: None,
        })?;
        Ok(())
    }

    /// The session of a port says a frame, if there is one.
    fn say(&mut self, alloc: Global, port: u16, kind: u16) -> Result<(), Mem> {
        if let Some(
            Stay {
                session,
                is_in: true,
                ..
            },
        ) = self.last(port)
        {
            self.hub.say(alloc, session, kind)?;
            self.deeds.push(Deed::Said(session, kind))?;
        }
        Ok(())
    }

    /// The session of a port leaves, if there is one.
    fn leave(&mut self, port: u16) -> Result<(), Mem> {
        if let Some(
            Stay {
                session,
                is_in: true,
                ..
            },
        ) = self.last(port)
        {
            self.hub.leave(session)?;
            self.deeds.push(Deed::Left(session))?;
            for stay in self.stays.iter_mut() {
                if is_one(stay.session, session) {
                    stay.is_in = false;
                }
            }
        }
        Ok(())
    }

    fn pop(&mut self, port: u16) -> Result<(), Mem> {
        if let Some(kind) = self.hub.pop(port) {
            self.got.push((port, kind))?;
        }
        Ok(())
    }

    /// Notes at which items the last sessions of the ports were dropped.
    fn note(&mut self) {
        for port in 0..PORTS {
            let full = self.hub.full_at(port);
            if let Some(last) = self.last(port) {
                for stay in self.stays.iter_mut() {
                    if is_one(stay.session, last.session) {
                        stay.full = full;
                    }
                }
            }
        }
    }

    /// Whether the sessions of a port got what they are owed, one behind the other.
    fn is_owed(&self, alloc: Global, port: u16, echo: bool) -> Result<bool, Mem> {
        let mut wanted = Vec::new(alloc);
        for stay in &self.stays {
            if stay.session.port == port {
                let kinds = owed(alloc, self.deeds.as_slice(), stay, echo)?;
                wanted.extend_from_slice(kinds.as_slice())?;
            }
        }
        let mut got = Vec::new(alloc);
        for (from, kind) in &self.got {
            if *from == port {
                got.push(*kind)?;
            }
        }
        Ok(got.as_slice() == wanted.as_slice())
    }
}

/// One of the things that may happen.
fn turn(alloc: Global, game: &mut Game, dice: &mut Dice, kind: u16) -> Result<(), Mem> {
    let port = dice.below(u64::from(PORTS)) as u16;
    match dice.below(9) {
        0 | 1 => game.join(port)?,
        2..=4 => game.say(alloc, port, kind)?,
        5 => game.leave(port)?,
        6 | 7 => game.pop(port)?,
        _ => game.hub.retry(),
    }
    game.note();
    Ok(())
}

/// Whether all is as owed behind so many turns.
fn plays(alloc: Global, seed: u64) -> Result<bool, Mem> {
    let mut dice = Dice::new(seed);
    let queue = dice.below(4) as u32;
    let echo = dice.below(2) == 1;
    let mut game = Game::new(alloc, queue.saturating_add(1), echo)?;
    for kind in 0..40 {
        turn(alloc, &mut game, &mut dice, kind)?;
    }
    for _ in 0..40 {
        game.hub.retry();
        for port in 0..PORTS {
            game.pop(port)?;
        }
    }
    for port in 0..PORTS {
        if !game.is_owed(alloc, port, echo)? {
            return Ok(false);
        }
    }
    Ok(true)
}

#[test]
fn random_lists_give_what_is_owed(rt: HostRuntime) -> Result<(), Fail> {
    for seed in 0..2_000 {
        assert!(rt; plays(rt.alloc(), seed)?, "list {seed}");
    }
    Ok(())
}
