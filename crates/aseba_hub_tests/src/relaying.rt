//! Switches on one thread, worked by hand.
use aseba_edge::{LinkScript, MemoryIn, MemoryLink, MemoryOut};
use aseba_router::{HubConfig, Relay, Turn, relay};
use aseba_words::{List, Mem};
use std::alloc::Global;
use std::test::Fail;

/// A link whose input gives these bytes in one piece.
fn link(alloc: Global, mark: u64, bytes: &[u8]) -> Result<(MemoryIn, MemoryOut), Mem> {
    let mut pieces = List::new(alloc);
    pieces.add(List::from_slice(alloc, bytes)?)?;
    let MemoryLink { input, output, .. } = MemoryLink::new(
        alloc,
        LinkScript::new(alloc, mark, 1000),
        pieces.as_slice(),
    )?;
    Ok((input, output))
}

/// Three frames of the kinds 0, 1 and 2, with nothing in them.
const THREE: [u8; 18] = [0, 0, 1, 0, 0, 0, 0, 0, 1, 0, 1, 0, 0, 0, 1, 0, 2, 0];

/// A frame without a payload.
const ONE: [u8; 6] = [0, 0, 1, 0, 0, 0];

/// Two links, of which the first says a frame.
fn two_links(alloc: Global) -> Result<List<(MemoryIn, MemoryOut)>, Mem> {
    let mut links = List::new(alloc);
    links.add(link(alloc, 0, &ONE)?)?;
    links.add(link(alloc, 1, &[])?)?;
    Ok(links)
}

/// Three links, of which the first says three frames.
fn three_links(alloc: Global) -> Result<List<(MemoryIn, MemoryOut)>, Mem> {
    let mut links = List::new(alloc);
    links.add(link(alloc, 0, &THREE)?)?;
    links.add(link(alloc, 1, &[])?)?;
    links.add(link(alloc, 2, &[])?)?;
    Ok(links)
}

#[test]
fn a_slow_link_is_dropped(rt: HostRuntime) -> Result<(), Fail> {
    let alloc = rt.alloc();
    let config = HubConfig {
        ports: 3,
        queue: 2,
        echo: false,
        sessions: 0,
    };
    let turns = [
        Turn::Open(0),
        Turn::Route,
        Turn::Open(1),
        Turn::Route,
        Turn::Open(2),
        Turn::Route,
        Turn::Read(0),
        Turn::Route,
        Turn::Write(1),
        Turn::Read(0),
        Turn::Route,
        Turn::Write(1),
        Turn::Read(0),
        Turn::Route,
        Turn::Write(1),
    ];
    let Relay { items, links, full } = relay(alloc, &config, three_links(alloc)?, &turns)?;
    assert_eq!(rt; items.as_slice().len(), 6);
    assert_eq!(rt; full.as_slice(), [None, None, Some(5)].as_slice());
    assert_eq!(rt; links.as_slice()[0].1.bytes(), [].as_slice());
    assert_eq!(rt; links.as_slice()[1].1.bytes(), THREE.as_slice());
    assert_eq!(rt; links.as_slice()[2].1.bytes(), [].as_slice());
    Ok(())
}

#[test]
fn with_echo_a_session_hears_itself(rt: HostRuntime) -> Result<(), Fail> {
    let alloc = rt.alloc();
    let config = HubConfig {
        ports: 3,
        queue: 4,
        echo: true,
        sessions: 0,
    };
    let turns = [
        Turn::Open(0),
        Turn::Route,
        Turn::Open(1),
        Turn::Route,
        Turn::Open(2),
        Turn::Route,
        Turn::Read(0),
        Turn::Route,
        Turn::Write(1),
        Turn::Write(0),
        Turn::Read(0),
        Turn::Route,
        Turn::Write(1),
        Turn::Write(0),
        Turn::Read(0),
        Turn::Route,
        Turn::Write(1),
        Turn::Write(0),
    ];
    let Relay { items, links, full } = relay(alloc, &config, three_links(alloc)?, &turns)?;
    assert_eq!(rt; items.as_slice().len(), 6);
    assert_eq!(rt; full.as_slice(), [None, None, None].as_slice());
    assert_eq!(rt; links.as_slice()[0].1.bytes(), THREE.as_slice());
    assert_eq!(rt; links.as_slice()[1].1.bytes(), THREE.as_slice());
    assert_eq!(rt; links.as_slice()[2].1.bytes(), [].as_slice());
    Ok(())
}

#[test]
fn an_end_that_came_back_is_told(rt: HostRuntime) -> Result<(), Fail> {
    let alloc = rt.alloc();
    let config = HubConfig {
        ports: 2,
        queue: 1,
        echo: false,
        sessions: 0,
    };
    let turns = [
        Turn::Open(0),
        Turn::Route,
        Turn::Open(1),
        Turn::Route,
        Turn::Read(0),
        Turn::Route,
        Turn::Read(1),
        Turn::Route,
        Turn::Write(1),
        Turn::Write(1),
    ];
    let Relay { items, links, full } = relay(alloc, &config, two_links(alloc)?, &turns)?;
    assert_eq!(rt; items.as_slice().len(), 4);
    assert_eq!(rt; full.as_slice(), [None, Some(3)].as_slice());
    assert_eq!(rt; links.as_slice()[0].1.bytes(), [].as_slice());
    assert_eq!(rt; links.as_slice()[1].1.bytes(), ONE.as_slice());
    Ok(())
}
