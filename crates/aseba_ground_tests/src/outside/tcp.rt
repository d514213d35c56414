//! Links over TCP, from the machine to itself.
ghost use Rattle.std.specs.Prelude.{◌<◌};

use aseba_edge::{
    Accepted, DialFault, Dialer, LinkIn, LinkOut, LinkPoll, ListenFault, Listener, Polled,
    SystemDialer, SystemListener, TcpIn, TcpOut,
};
use std::alloc::Global;
use std::net::{Net, TcpListener, TcpStream};
use std::test::Fail;
use std::thread;

/// Opens a listener at the first port that is free from one on, and answers which it was.
fn open_from<R: Net<Listener = TcpListener, Stream = TcpStream> + Drop>(
    listener: &mut SystemListener<R>,
    first: u16,
) -> Option<u16>
    requires { first < 60000 }
{
    (first..first + 100).find(|port| listener.open(*port).is_ok())
}

fn next_of<L: Listener<In = TcpIn, Out = TcpOut>>(
    alloc: Global,
    listener: &mut L,
) -> Option<(TcpIn, TcpOut)> {
    match listener.accept(alloc) {
        Accepted::Link(input, output) => Some((input, output)),
        _ => None,
    }
}

#[test]
fn a_link_over_tcp_goes_both_ways_and_ends(rt: HostRuntime) -> Result<(), Fail> {
    let alloc = rt.alloc();
    let mut listener = SystemListener::on_loopback(&rt);
    let port = open_from(&mut listener, 41_000).ok_or("no port")?;
    let address = format!(in alloc; "localhost:{port}")?;
    let mut dialer = SystemDialer::new(&rt);
    let (mut input, mut output) = dialer.dial(alloc, address.as_str()).ok().ok_or("dial")?;
    let (mut there, mut back) = next_of(alloc, &mut listener).ok_or("accept")?;
    let mut piece = [0; 8];
    assert_eq!(rt; output.put(b"abc"), Ok(()));
    assert_eq!(rt; there.read(&mut piece), Ok(3));
    assert_eq!(rt; &piece[..3], b"abc".as_slice());
    assert_eq!(rt; back.put(b"de"), Ok(()));
    assert_eq!(rt; input.read(&mut piece), Ok(2));
    assert_eq!(rt; input.read(&mut []), Ok(0));
    output.hang_up();
    assert!(rt; output.put(b"f").is_err());
    assert_eq!(rt; output.put(b""), Ok(()));
    assert_eq!(rt; there.read(&mut piece), Ok(0));
    assert_eq!(rt; there.read(&mut piece), Ok(0));
    listener.back(there, back);
    assert_eq!(rt; input.read(&mut piece), Ok(0));
    Ok(())
}

#[test]
fn a_polled_link_over_tcp_waits_for_no_bytes(rt: HostRuntime) -> Result<(), Fail> {
    let alloc = rt.alloc();
    let mut listener = SystemListener::everywhere(&rt);
    let port = open_from(&mut listener, 42_000).ok_or("no port")?;
    let address = format!(in alloc; "127.0.0.1:{port}")?;
    let mut dialer = SystemDialer::new(&rt);
    let ends = dialer.dial_polled(alloc, address.as_str()).ok();
    let (mut input, mut output) = ends.ok_or("dial")?;
    let (mut there, mut back) = next_of(alloc, &mut listener).ok_or("accept")?;
    let mut piece = [0; 2];
    assert_eq!(rt; input.poll(&mut piece), Polled::NotYet);
    assert_eq!(rt; back.put(b"abc"), Ok(()));
    let answer = poll_on(&mut input, &mut piece);
    assert_eq!(rt; answer, Polled::Piece(2));
    assert_eq!(rt; input.poll(&mut piece), Polled::Piece(1));
    assert_eq!(rt; piece[0], b'c');
    assert_eq!(rt; input.poll(&mut piece), Polled::NotYet);
    assert_eq!(rt; output.put(b"xy"), Ok(()));
    assert_eq!(rt; there.read(&mut piece), Ok(2));
    back.hang_up();
    let answer = poll_on(&mut input, &mut piece);
    assert_eq!(rt; answer, Polled::Ended);
    assert_eq!(rt; input.poll(&mut piece), Polled::Ended);
    Ok(())
}

/// Polls until there is something, but not for ever.
fn poll_on<I: LinkPoll>(input: &mut I, piece: &mut [u8; 2]) -> Polled {
    for _ in 0..10_000 {
        let answer = input.poll(piece);
        if answer != Polled::NotYet {
            return answer;
        }
    }
    Polled::NotYet
}

/// Reads until the end, and answers how many bytes came and whether each was the same.
fn count_all<I: LinkIn>(input: &mut I, byte: u8) -> (u64, bool) {
    let mut piece = [0; 5000];
    let mut total: u64 = 0;
    let mut same = true;
    for _ in 0..u64::MAX {
        let Ok(count) = input.read(&mut piece) else {
            return (total, false);
        };
        if count == 0 {
            return (total, same);
        }
        total = total.saturating_add(count as u64);
        same = same && piece.iter().take(count).all(|one| *one == byte);
    }
    (total, false)
}

#[test]
fn a_put_goes_on_where_the_socket_is_full(rt: HostRuntime) -> Result<(), Fail> {
    let alloc = rt.alloc();
    let mut listener = SystemListener::on_loopback(&rt);
    let port = open_from(&mut listener, 43_000).ok_or("no port")?;
    let address = format!(in alloc; "127.0.0.1:{port}")?;
    let mut dialer = SystemDialer::new(&rt);
    let ends = dialer.dial_polled(alloc, address.as_str()).ok();
    let (_input, mut output) = ends.ok_or("dial")?;
    let (mut there, _back) = next_of(alloc, &mut listener).ok_or("accept")?;
    let bytes = Vec::from_elem(alloc, 7u8, 20_000_000)?;
    let (answer, counted) = thread::join(
        &rt,
        move || {
            let answer = output.put(bytes.as_slice());
            output.hang_up();
            answer
        },
        || count_all(&mut there, 7),
    );
    assert_eq!(rt; answer, Ok(()));
    assert_eq!(rt; counted, (20_000_000, true));
    Ok(())
}

#[test]
fn nobody_listens_at_a_closed_port(rt: HostRuntime) -> Result<(), Fail> {
    let alloc = rt.alloc();
    let mut listener = SystemListener::on_loopback(&rt);
    assert!(rt; matches!(listener.accept(alloc), Accepted::Failed));
    let port = open_from(&mut listener, 44_000).ok_or("no port")?;
    let mut other = SystemListener::on_loopback(&rt);
    assert_eq!(rt; other.open(port), Err(ListenFault));
    drop(listener);
    let address = format!(in alloc; "127.0.0.1:{port}")?;
    let mut dialer = SystemDialer::new(&rt);
    let answer = dialer.dial(alloc, address.as_str());
    assert!(rt; matches!(answer, Err(DialFault::Refused)));
    let answer = dialer.dial_polled(alloc, address.as_str());
    assert!(rt; matches!(answer, Err(DialFault::Refused)));
    Ok(())
}
