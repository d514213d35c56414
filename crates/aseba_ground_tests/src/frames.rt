//! Frames in pieces of streams, worked by hand.
use aseba_message::{Fed, FrameReader, Taken, encode};
use aseba_words::List;
use std::test::Fail;

/// Source 1, kind 2, and a payload of two words.
const ONE: [u8; 10] = [4, 0, 1, 0, 2, 0, 3, 0, 255, 255];

/// The event 1 of source 1, with the arguments 3 and -1.
const PONG: [u8; 10] = [4, 0, 1, 0, 1, 0, 3, 0, 255, 255];

#[test]
fn byte_by_byte(rt: HostRuntime) {
    let mut reader = FrameReader::new();
    for (place, byte) in PONG.iter().enumerate() {
        assert_eq!(rt; reader.held(), place);
        let fed = reader.feed(*byte);
        assert_eq!(rt; fed, if place < 9 { Fed::More } else { Fed::Whole });
    }
    assert_eq!(rt; reader.held(), 0);
}

#[test]
fn one_frame(rt: HostRuntime) -> Result<(), Fail> {
    let mut reader = FrameReader::new();
    for byte in ONE {
        if let Fed::Whole = reader.feed(byte) {
            let frame = reader.frame(rt.alloc())?;
            assert_eq!(rt; (frame.source, frame.kind), (1, 2));
            assert_eq!(rt; frame.payload.as_slice(), [3, 0, 255, 255].as_slice());
            let mut out = List::new(rt.alloc());
            out.push(7).ok().ok_or("no memory")?;
            encode(rt.alloc(), &frame, &mut out)?;
            assert_eq!(rt;
                out.as_slice(),
                [7, 4, 0, 1, 0, 2, 0, 3, 0, 255, 255].as_slice()
            );
            return Ok(());
        }
    }
    Err(Fail::from("no frame"))
}

#[test]
fn pieces(rt: HostRuntime) {
    let mut reader = FrameReader::new();
    assert_eq!(rt;
        reader.feed_piece(&ONE[..1]),
        Taken {
            count: 1,
            fed: Fed::More
        }
    );
    assert_eq!(rt;
        reader.feed_piece(&ONE[1..7]),
        Taken {
            count: 6,
            fed: Fed::More
        }
    );
    assert_eq!(rt; reader.held(), 7);
    let rest = [0, 255, 255, 0, 0, 2, 1, 2, 0, 4, 0, 1];
    assert_eq!(rt;
        reader.feed_piece(&rest),
        Taken {
            count: 3,
            fed: Fed::Whole
        }
    );
    assert_eq!(rt;
        reader.feed_piece(&rest[3..]),
        Taken {
            count: 6,
            fed: Fed::Whole
        }
    );
    assert_eq!(rt;
        reader.feed_piece(&rest[9..]),
        Taken {
            count: 3,
            fed: Fed::More
        }
    );
    assert_eq!(rt; reader.held(), 3);
}

#[test]
fn longest(rt: HostRuntime) -> Result<(), Fail> {
    let mut reader = FrameReader::new();
    assert_eq!(rt; reader.feed_piece(&[0, 4, 1, 0, 2, 0]).fed, Fed::More);
    let payload = [9; 1024];
    assert_eq!(rt;
        reader.feed_piece(&payload[..1023]),
        Taken {
            count: 1023,
            fed: Fed::More
        }
    );
    let taken = reader.feed_piece(&payload);
    assert_eq!(rt; taken.count, 1);
    match taken.fed {
        Fed::Whole => {
            let frame = reader.frame(rt.alloc())?;
            assert_eq!(rt; frame.payload.as_slice(), payload.as_slice());
            Ok(())
        }
        Fed::More | Fed::TooLong { .. } => Err(Fail::from("no frame")),
    }
}

#[test]
fn too_long(rt: HostRuntime) {
    let mut reader = FrameReader::new();
    assert_eq!(rt; reader.feed(1), Fed::More);
    for byte in [4, 0, 0, 1, 0, 1, 0] {
        assert_eq!(rt; reader.feed(byte), Fed::TooLong { len: 1025 });
        assert_eq!(rt; reader.held(), 2);
    }
    assert_eq!(rt;
        reader.feed_piece(&ONE),
        Taken {
            count: 1,
            fed: Fed::TooLong { len: 1025 }
        }
    );
    let mut reader = FrameReader::new();
    assert_eq!(rt;
        reader.feed_piece(&[255, 255, 0, 0]),
        Taken {
            count: 2,
            fed: Fed::TooLong { len: 65535 }
        }
    );
}

/// As many bytes are asked for as are missing to the length, and then to the frame's end.
#[test]
fn awaited(rt: HostRuntime) {
    let mut reader = FrameReader::new();
    assert_eq!(rt; reader.awaited(), 2);
    assert_eq!(rt; reader.feed_piece(&ONE[..1]).fed, Fed::More);
    assert_eq!(rt; reader.awaited(), 1);
    assert_eq!(rt; reader.feed_piece(&ONE[1..2]).fed, Fed::More);
    assert_eq!(rt; reader.awaited(), 8);
    assert_eq!(rt; reader.feed_piece(&ONE[2..9]).fed, Fed::More);
    assert_eq!(rt; (reader.awaited(), reader.is_whole()), (1, false));
    assert_eq!(rt; reader.feed_piece(&ONE[9..]).fed, Fed::Whole);
    assert_eq!(rt; (reader.awaited(), reader.is_whole()), (2, true));
    assert_eq!(rt; reader.feed_piece(&[1, 4]).fed, Fed::TooLong { len: 1025 });
    assert_eq!(rt; (reader.awaited(), reader.is_whole()), (0, false));
}
