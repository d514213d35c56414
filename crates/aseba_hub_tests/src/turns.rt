//! Random turns of the switch on one thread. What each link's output took is compared with what its
//! session is owed, as a plain program computes it from the items.
ghost use Rattle.std.specs.Prelude.{◌≤◌, ◌<◌};

use crate::dice::Dice;
use aseba_edge::{LinkScript, MemoryIn, MemoryLink, MemoryOut};
use aseba_router::{HubConfig, Item, Relay, Session, Turn, relay};
use aseba_words::{List, Mem};
use std::alloc::Global;
use std::test::Fail;

/// How many links there are, of which the last one has no port.
const LINKS: u16 = 4;

/// How many ports the switch has.
const PORTS: u16 = 3;

/// The bytes of a frame of this kind, with nothing in it.
fn spelled(kind: u16) -> [u8; 6] {
    let [low, high] = kind.to_le_bytes();
    [0, 0, 1, 0, low, high]
}

/// Some frames of a link, behind which its input may end, break off inside a frame, or give a length
/// that no frame has.
fn said(alloc: Global, dice: &mut Dice, link: u16) -> Result<Vec<u8>, Mem> {
    let mut bytes = Vec::new(alloc);
    let [link, _] = link.to_le_bytes();
    for nth in 0..dice.below(8) {
        let kind = u16::from_le_bytes([nth as u8, link]);
        bytes.extend_from_slice(spelled(kind).as_slice())?;
    }
    match dice.below(3) {
        0 => (),
        1 => bytes.extend_from_slice([3, 0, 1, 0, 9].as_slice())?,
        _ => bytes.extend_from_slice([255, 255, 1, 0, 0, 0].as_slice())?,
    }
    Ok(bytes)
}

/// Bytes in pieces of random lengths.
fn pieces(alloc: Global, dice: &mut Dice, bytes: &[u8]) -> Result<List<List<u8>>, Mem> {
    let mut pieces = List::new(alloc);
    let mut piece = List::new(alloc);
    for byte in bytes {
        piece.add(*byte)?;
        if dice.below(5) == 0 {
            pieces.add(piece)?;
            piece = List::new(alloc);
        }
    }
    pieces.add(piece)?;
    Ok(pieces)
}

/// The links, each with something to say.
fn links(alloc: Global, dice: &mut Dice) -> Result<List<(MemoryIn, MemoryOut)>, Mem> {
    let mut links = List::new(alloc);
    for link in 0..LINKS {
        let bytes = said(alloc, dice, link)?;
        let pieces = pieces(alloc, dice, bytes.as_slice())?;
        let script = LinkScript::new(alloc, u64::from(link), 1000);
        let MemoryLink { input, output, .. } = MemoryLink::new(alloc, script, pieces.as_slice())?;
        links.add((input, output))?;
    }
    Ok(links)
}

/// One of the turns that may be taken.
fn turn(dice: &mut Dice) -> Turn {
    let link = dice.below(u64::from(LINKS)) as u16;
    match dice.below(9) {
        0 => Turn::Open(link),
        1..=3 => Turn::Read(link),
        4 | 5 => Turn::Route,
        _ => Turn::Write(link),
    }
}

/// Random turns, behind which all items are routed and then all entries written.
fn turns(alloc: Global, dice: &mut Dice) -> Result<Vec<Turn>, Mem> {
    let mut turns = Vec::new(alloc);
    for _ in 0..80 {
        turns.push(turn(dice))?;
    }
    for _ in 0..80 {
        turns.push(Turn::Route)?;
    }
    for _ in 0..6 {
        for link in 0..LINKS {
            turns.push(Turn::Write(link))?;
        }
    }
    Ok(turns)
}

/// The bytes of the frames that a session is owed.
fn owed(
    alloc: Global,
    items: &[Item],
    session: Session,
    full: Option<u64>,
    echo: bool,
) -> Result<Vec<u8>, Mem> {
    let mut bytes = Vec::new(alloc);
    let mut is_in = false;
    for (place, item) in items.iter().enumerate() {
        if full == Some(place as u64) {
            break;
        }
        match item {
            Item::Join(joined) => is_in = is_in || *joined == session,
            Item::Leave(left) => is_in = is_in && *left != session,
            Item::Said(sayer, frame) => {
                if is_in && (echo || *sayer != session) {
                    bytes.extend_from_slice(spelled(frame.kind).as_slice())?;
                }
            }
        }
    }
    Ok(bytes)
}

/// Whether each link took what its session is owed. A link without a port has no session, and is
/// owed nothing.
fn is_owed<I>(alloc: Global, relay: &Relay<I, MemoryOut>, echo: bool) -> Result<bool, Mem> {
    let links = relay.links.as_slice().iter();
    let full = relay.full.as_slice().iter();
    for (port, (link, full)) in links.zip(full).enumerate() {
        let Ok(port) = u16::try_from(port) else {
            return Ok(false);
        };
        let session = Session { port, nth: 0 };
        let bytes = owed(alloc, relay.items.as_slice(), session, *full, echo)?;
        if link.1.bytes() != bytes.as_slice() {
            return Ok(false);
        }
    }
    Ok(true)
}

/// What became of random turns.
#[derive(Drop)]
struct Played {
    is_owed: bool,
    was_dropped: bool,
}

fn play(alloc: Global, seed: u64) -> Result<Played, Mem> {
    let mut dice = Dice::new(seed);
    let config = HubConfig {
        ports: PORTS,
        queue: (dice.below(4) as u32).saturating_add(1),
        echo: dice.below(2) == 1,
        sessions: 0,
    };
    let links = links(alloc, &mut dice)?;
    let turns = turns(alloc, &mut dice)?;
    let relay = relay(alloc, &config, links, turns.as_slice())?;
    Ok(Played {
        is_owed: is_owed(alloc, &relay, config.echo)?,
        was_dropped: relay.full.as_slice().iter().any(Option::is_some),
    })
}

#[test]
fn random_turns_give_what_is_owed(rt: HostRuntime) -> Result<(), Fail> {
    let mut drops: u32 = 0;
    for seed in 0..3_000 {
        let played = play(rt.alloc(), seed)?;
        assert!(rt; played.is_owed, "turns {seed}");
        if played.was_dropped {
            drops = drops.saturating_add(1);
        }
    }
    assert!(rt; drops > 500);
    assert!(rt; drops < 2_500);
    Ok(())
}
