//! Links in memory, and the dialers.
use crate::outside::read_all;
use aseba_edge::{
    Accepted, DialFault, Dialer, LinkIn, LinkOut, LinkPoll, LinkScript, ListenFault, Listener,
    MemoryDialer, MemoryLink, MemoryListener, MemoryPolledLink, PollAnswer, Polled, PutFault,
};
use aseba_words::{List, Mem};
use std::alloc::Global;
use std::test::Fail;

fn pieces_of(alloc: Global, texts: &[&str]) -> Result<List<List<u8>>, Mem> {
    let mut pieces = List::new(alloc);
    for text in texts {
        let piece = List::from_slice(alloc, text.as_bytes())?;
        pieces.push(piece).map_err(|_| Mem)?;
    }
    Ok(pieces)
}

fn link_of(alloc: Global, mark: u64, until: Option<u64>) -> Result<MemoryLink, Mem> {
    let pieces = pieces_of(alloc, &["abcde", "", "f"])?;
    let script = LinkScript::new(alloc, mark, 10);
    match until {
        None => MemoryLink::new(alloc, script, pieces.as_slice()),
        Some(until) => MemoryLink::gated(alloc, script, pieces.as_slice(), until),
    }
}

fn polled_link_of(alloc: Global) -> Result<MemoryPolledLink, Mem> {
    let mut answers = List::new(alloc);
    for text in ["abc", ""] {
        let piece = List::from_slice(alloc, text.as_bytes())?;
        answers.push(PollAnswer::Bytes(piece)).map_err(|_| Mem)?;
        answers.push(PollAnswer::Later).map_err(|_| Mem)?;
    }
    let mut script = LinkScript::new(alloc, 9, 10);
    script.failing_reads = List::from_slice(alloc, &[5])?;
    MemoryPolledLink::new(alloc, script, answers.as_slice())
}

#[test]
fn an_input_in_memory_gives_its_pieces(rt: HostRuntime) -> Result<(), Fail> {
    let MemoryLink { mut input, output } = link_of(rt.alloc(), 1, None)?;
    let mut piece = [0; 3];
    for wanted in [b"abc".as_slice(), b"de", b"f", b"", b""] {
        let count = input.read(&mut piece).ok().ok_or("read")?;
        assert!(rt; count <= 3);
        assert_eq!(rt; &piece[..count], wanted);
    }
    assert_eq!(rt; output.bytes(), b"".as_slice());
    Ok(())
}

#[test]
fn a_read_that_is_to_fail_gives_nothing(rt: HostRuntime) -> Result<(), Fail> {
    let alloc = rt.alloc();
    let pieces = pieces_of(alloc, &["ab"])?;
    let mut script = LinkScript::new(alloc, 1, 10);
    script.failing_reads = List::from_slice(alloc, &[1])?;
    let MemoryLink {
        mut input,
        output: _,
    } = MemoryLink::new(alloc, script, pieces.as_slice())?;
    assert!(rt; read_all(alloc, &mut input).is_err());
    assert_eq!(rt; input.faults(), 1);
    let bytes = read_all(alloc, &mut input).ok().ok_or("read")?;
    assert_eq!(rt; bytes.as_slice(), b"ab".as_slice());
    Ok(())
}

#[test]
fn a_gate_opens_when_the_output_took_enough(rt: HostRuntime) -> Result<(), Fail> {
    let MemoryLink {
        mut input,
        mut output,
    } = link_of(rt.alloc(), 1, Some(2))?;
    assert_eq!(rt; output.put(b"xy"), Ok(()));
    assert!(rt; read_all(rt.alloc(), &mut input).is_ok());
    assert_eq!(rt; input.faults(), 0);
    Ok(())
}

#[test]
fn an_output_in_memory_counts_its_faults_and_hang_ups(rt: HostRuntime) -> Result<(), Fail> {
    let MemoryLink {
        input: _,
        mut output,
    } = link_of(rt.alloc(), 6, None)?;
    assert_eq!(rt; output.mark(), 6);
    assert_eq!(rt; output.put(b"0123456789"), Ok(()));
    assert_eq!(rt; output.faults(), 0);
    assert_eq!(rt; output.put(b"x"), Err(PutFault { taken: 0 }));
    assert_eq!(rt; output.faults(), 1);
    assert_eq!(rt; output.hang_ups(), 0);
    output.hang_up();
    output.hang_up();
    assert_eq!(rt; output.hang_ups(), 2);
    Ok(())
}

#[test]
fn a_polled_input_in_memory_gives_its_answers(rt: HostRuntime) -> Result<(), Fail> {
    let MemoryPolledLink {
        mut input,
        output: _,
    } = polled_link_of(rt.alloc())?;
    let mut piece = [0; 2];
    assert_eq!(rt; input.poll(&mut piece), Polled::Piece(2));
    assert_eq!(rt; piece, *b"ab");
    assert_eq!(rt; input.poll(&mut piece), Polled::Piece(1));
    assert_eq!(rt; piece, *b"cb");
    assert_eq!(rt; input.poll(&mut piece), Polled::NotYet);
    assert_eq!(rt; input.poll(&mut piece), Polled::NotYet);
    assert_eq!(rt; input.faults(), 0);
    assert_eq!(rt; input.poll(&mut piece), Polled::Failed);
    assert_eq!(rt; input.faults(), 1);
    assert_eq!(rt; input.poll(&mut piece), Polled::Ended);
    Ok(())
}

#[test]
fn a_dialer_in_memory_gives_its_links_in_order(rt: HostRuntime) -> Result<(), Fail> {
    let alloc = rt.alloc();
    let mut links = List::new(alloc);
    for mark in [4, 7] {
        links.push(link_of(alloc, mark, None)?).map_err(|_| Mem)?;
    }
    let mut polled = List::new(alloc);
    polled.push(polled_link_of(alloc)?).map_err(|_| Mem)?;
    let mut dialer = MemoryDialer::new(alloc, links, polled, List::from_slice(alloc, &[2])?);
    let (input, _output) = dialer.dial(alloc, "h:1").ok().ok_or("first")?;
    assert_eq!(rt; input.mark(), 4);
    assert!(rt; matches!(dialer.dial(alloc, "h:2"), Err(DialFault::Refused)));
    let (input, _output) = dialer.dial(alloc, "h:3").ok().ok_or("third")?;
    assert_eq!(rt; input.mark(), 7);
    assert!(rt; matches!(dialer.dial(alloc, "h:4"), Err(DialFault::Refused)));
    assert!(rt; dialer.dial_polled(alloc, "h:5").is_ok());
    Ok(())
}

#[test]
fn a_listener_in_memory_gives_its_links_and_takes_them_back(rt: HostRuntime) -> Result<(), Fail> {
    let alloc = rt.alloc();
    let mut links = List::new(alloc);
    for mark in [4, 7] {
        links.push(link_of(alloc, mark, None)?).map_err(|_| Mem)?;
    }
    let mut listener = MemoryListener::new(alloc, links, List::from_slice(alloc, &[1, 4])?);
    assert_eq!(rt; listener.open(80), Err(ListenFault));
    assert_eq!(rt; listener.open(81), Ok(()));
    let Accepted::Link(input, mut output) = listener.accept(alloc) else {
        return Err(Fail::new("link"));
    };
    assert_eq!(rt; input.mark(), 4);
    assert!(rt; matches!(listener.accept(alloc), Accepted::Failed));
    assert_eq!(rt; listener.faults(), 2);
    assert_eq!(rt; output.put(b"x"), Ok(()));
    listener.back(input, output);
    assert!(rt; matches!(listener.accept(alloc), Accepted::Link(_, _)));
    assert!(rt; matches!(listener.accept(alloc), Accepted::NoMore));
    assert_eq!(rt; listener.ports(), [81].as_slice());
    assert_eq!(rt; listener.returned().len(), 1);
    assert_eq!(rt; listener.returned()[0].output.bytes(), b"x".as_slice());
    Ok(())
}
