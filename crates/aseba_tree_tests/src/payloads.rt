//! Messages of each type, with their bytes, worked by hand.
ghost use Rattle.std.specs.Prelude.{◌≤◌};

use aseba_message::Frame;
use aseba_payload::{Payload, PayloadError, decode, to_frame};
use aseba_words::List;
use std::alloc::Global;
use std::process::Abort;
use std::test::Fail;

/// A frame of node 7.
fn frame(alloc: Global, kind: u16, bytes: &[u8]) -> Result<Frame, Fail> {
    if bytes.len() > 1024 {
        return Err(Fail::from("no frame is so long"));
    }
    let payload = List::from_slice(alloc, bytes)?;
    Ok(Frame {
        source: 7,
        kind,
        payload,
    })
}

/// What the bytes say; the same bytes are made of it again, and of its copy.
fn both_ways(rt: &impl Abort, alloc: Global, kind: u16, bytes: &[u8]) -> Result<Payload, Fail> {
    let payload = decode(alloc, &frame(alloc, kind, bytes)?)?;
    let again = to_frame(alloc, 7, &payload)?;
    assert_eq!(rt; (again.source, again.kind), (7, kind));
    assert_eq!(rt; again.payload.as_slice(), bytes);
    let copied = to_frame(alloc, 8, &payload.copy(alloc)?)?;
    assert_eq!(rt; (copied.source, copied.kind), (8, kind));
    assert_eq!(rt; copied.payload.as_slice(), bytes);
    Ok(payload)
}

/// What is wrong with the bytes.
fn wrong(alloc: Global, kind: u16, bytes: &[u8]) -> Result<PayloadError, Fail> {
    match decode(alloc, &frame(alloc, kind, bytes)?) {
        Ok(_) => Err(Fail::from("the bytes say something")),
        Err(error) => Ok(error),
    }
}

/// What the bytes say. Without the last they are too short, and with one more too long.
fn exactly(rt: &impl Abort, alloc: Global, kind: u16, bytes: &[u8]) -> Result<Payload, Fail> {
    let at = bytes.len() - bytes.len().min(1);
    assert_eq!(rt;
        wrong(alloc, kind, &bytes[..at])?,
        PayloadError::Short { at }
    );
    let mut longer = Vec::from_slice(alloc, bytes)?;
    longer.push(0)?;
    assert_eq!(rt;
        wrong(alloc, kind, &longer)?,
        PayloadError::Long { at: bytes.len() }
    );
    both_ways(rt, alloc, kind, bytes)
}

/// Whether each row's bytes, and neither fewer nor more, say what is written beside them.
fn say(rt: &impl Abort, alloc: Global, rows: &[(u16, &[u8], &str)]) -> Result<(), Fail> {
    for (kind, bytes, said) in rows {
        let payload = exactly(rt, alloc, *kind, bytes)?;
        let text = format!(in alloc; "{payload:?}")?;
        assert_eq!(rt; text.as_str(), *said);
    }
    Ok(())
}

#[test]
fn texts(rt: HostRuntime) -> Result<(), Fail> {
    say(
        &rt,
        rt.alloc(),
        &[
            (
                0x9000,
                b"\x01A\x05\0\0\x08\x40\0\0\x04\x01\0\x02\0\x03\0",
                "Describe { name: Name { bytes: [65] }, version: 5, code: 2048, stack: 64, cells: 1024, variables: 1, locals: 2, natives: 3 }",
            ),
            (
                0x9000,
                &[0; 15],
                "Describe { name: Name { bytes: [] }, version: 0, code: 0, stack: 0, cells: 0, variables: 0, locals: 0, natives: 0 }",
            ),
            (
                0x9001,
                b"\x01\0\x02AB",
                "Variable { size: 1, name: Name { bytes: [65, 66] } }",
            ),
            (
                0x9002,
                b"\x01A\x02BC",
                "LocalEvent { name: Name { bytes: [65] }, text: Name { bytes: [66, 67] } }",
            ),
            (
                0x9003,
                b"\x01A\x01B\0\0",
                "NativeOf { name: Name { bytes: [65] }, text: Name { bytes: [66] }, params: List { items: [] } }",
            ),
            (
                0x9003,
                b"\0\0\x02\0\xff\xff\x01A\x02\x01\0",
                "NativeOf { name: Name { bytes: [] }, text: Name { bytes: [] }, params: List { items: [Param { size: -1, name: Name { bytes: [65] } }, Param { size: 258, name: Name { bytes: [] } }] } }",
            ),
            (
                0x9009,
                b"\x01\x02\x01A",
                "ErrorAt { pc: 513, text: Name { bytes: [65] } }",
            ),
        ],
    )
}

#[test]
fn words(rt: HostRuntime) -> Result<(), Fail> {
    say(
        &rt,
        rt.alloc(),
        &[
            (
                0x9006,
                &[1, 2, 3, 0, 255, 255],
                "BoundsAt { pc: 513, size: 3, index: 65535 }",
            ),
            (0x9007, &[1, 2], "DivisionAt { pc: 513 }"),
            (0x9008, &[1, 2], "KilledAt { pc: 513 }"),
            (0x900a, &[1, 2, 3, 0], "State { pc: 513, flags: 3 }"),
            (0x900b, &[1, 2, 1, 0], "BreakSet { pc: 513, result: 1 }"),
            (0x900c, &[5, 0], "Present { version: 5 }"),
            (0xa000, &[5, 0], "GetDescription { version: 5 }"),
            (0xa002, &[1, 2], "Reset { node: 513 }"),
            (0xa003, &[1, 2], "Run { node: 513 }"),
            (0xa004, &[1, 2], "Pause { node: 513 }"),
            (0xa005, &[1, 2], "Step { node: 513 }"),
            (0xa006, &[1, 2], "Stop { node: 513 }"),
            (0xa007, &[1, 2], "GetState { node: 513 }"),
            (0xa008, &[1, 0, 3, 4], "SetBreak { node: 1, pc: 1027 }"),
            (0xa009, &[1, 0, 3, 4], "ClearBreak { node: 1, pc: 1027 }"),
            (0xa00a, &[1, 2], "ClearBreaks { node: 513 }"),
            (
                0xa00b,
                &[1, 0, 3, 4, 5, 6],
                "GetVariables { node: 1, start: 1027, length: 1541 }",
            ),
            (
                0xa010,
                &[1, 0, 5, 0],
                "GetNodeDescription { node: 1, version: 5 }",
            ),
            (0xa011, &[5, 0], "ListNodes { version: 5 }"),
        ],
    )
}

/// The most that texts and parameters can hold.
#[test]
fn longest(rt: HostRuntime) -> Result<(), Fail> {
    let full = [255; 512];
    for (kind, len) in [(0x9000, 270), (0x9001, 258), (0x9002, 512), (0x9009, 258)] {
        let _ = exactly(&rt, rt.alloc(), kind, &full[..len.min(512)])?;
    }
    let mut sixteen = [0; 52];
    sixteen[2] = 16;
    let _ = exactly(&rt, rt.alloc(), 0x9003, &sixteen)?;
    let mut native = [255; 1024];
    native[512] = 2;
    native[513] = 0;
    native[516] = 252;
    native[771] = 252;
    let _ = both_ways(&rt, rt.alloc(), 0x9003, &native)?;
    assert_eq!(rt;
        wrong(rt.alloc(), 0x9003, &native[..1023])?,
        PayloadError::Short { at: 1023 }
    );
    Ok(())
}

/// Lists of words behind so many bytes: none, two, and as many as a frame takes; half a word too much.
fn lists(rt: &impl Abort, alloc: Global, kind: u16, fixed: usize) -> Result<(), Fail>
    requires { fixed ≤ 4 }
{
    let bytes = [255; 1024];
    for len in [fixed, fixed + 4, 1024] {
        let _ = both_ways(rt, alloc, kind, &bytes[..len.min(1024)])?;
    }
    for len in [1, 3] {
        let found = wrong(alloc, kind, &bytes[..fixed + len])?;
        assert_eq!(rt; found, PayloadError::NotWords { len });
    }
    Ok(())
}

#[test]
fn lists_of_words(rt: HostRuntime) -> Result<(), Fail> {
    let alloc = rt.alloc();
    lists(&rt, alloc, 0, 0)?;
    lists(&rt, alloc, 0x7fff, 0)?;
    lists(&rt, alloc, 0x9005, 2)?;
    lists(&rt, alloc, 0xa001, 4)?;
    lists(&rt, alloc, 0xa00c, 4)
}

#[test]
fn faults(rt: HostRuntime) -> Result<(), Fail> {
    for (kind, bytes, fault) in [
        (5, [255].as_slice(), PayloadError::NotWords { len: 1 }),
        (0xa002, &[1], PayloadError::Short { at: 1 }),
        (0xa002, &[1, 0, 0], PayloadError::Long { at: 2 }),
        (0xa001, &[1, 0, 2], PayloadError::Short { at: 3 }),
        (0xa012, &[1, 0], PayloadError::UnknownType { kind: 0xa012 }),
        (0x8000, &[1, 0], PayloadError::UnknownType { kind: 0x8000 }),
    ] {
        assert_eq!(rt; wrong(rt.alloc(), kind, bytes)?, fault);
    }
    Ok(())
}

#[test]
fn frames_by_hand(rt: HostRuntime) -> Result<(), Fail> {
    let alloc = rt.alloc();
    let present = to_frame(alloc, 1, &Payload::Present { version: 5 })?;
    assert_eq!(rt; (present.source, present.kind), (1, 0x900c));
    assert_eq!(rt; present.payload.as_slice(), [5, 0].as_slice());
    let words = List::from_slice(alloc, &[3, 65535])?;
    let code = to_frame(
        alloc,
        0,
        &Payload::SetBytecode {
            node: 1,
            start: 2,
            words,
        },
    )?;
    assert_eq!(rt; code.kind, 0xa001);
    assert_eq!(rt;
        code.payload.as_slice(),
        [1, 0, 2, 0, 3, 0, 255, 255].as_slice()
    );
    Ok(())
}
