//! Recordings, read from their text, written in both formats, and played.
ghost use Rattle.std.specs.Prelude.{◌<◌, ◌^◌};

use aseba_describe::default_project;
use aseba_dump::Timed;
use aseba_message::Frame;
use aseba_record::{
    Next, Player, RecordError, is_event, is_new, read_recording, record_entry, record_head,
    record_line,
};
use aseba_tree::Project;
use aseba_words::List;
use std::alloc::Global;
use std::process::Abort;
use std::test::Fail;

const HEAD: &[u8] = b"aseba-recording 2\nevent ping 0\nevent pong 0\nevent pair 2\nframes\n";

/// The first bad line of a text; 0 where it is a recording.
fn bad_line(alloc: Global, text: &[u8]) -> Result<u64, Fail> {
    match read_recording(alloc, text) {
        Ok(_) => Ok(0),
        Err(RecordError::Line { n }) => Ok(n),
        Err(RecordError::Mem) => Err(Fail::from("out of memory")),
    }
}

/// The line of an event in one of the formats.
fn line(alloc: Global, project: &Project, new: bool, timed: &Timed) -> Result<List<u8>, Fail> {
    if !is_event(&timed.frame) || timed.time >= 1 << 63 {
        return Err(Fail::from("it can't be recorded"));
    }
    if new {
        Ok(record_entry(alloc, timed.time, &timed.frame, project)?)
    } else {
        Ok(record_line(alloc, timed.time, &timed.frame)?)
    }
}

/// A recording again, in one of the formats.
fn again(alloc: Global, new: bool, text: &[u8]) -> Result<Vec<u8>, Fail> {
    let project = default_project(alloc)?;
    let mut out = Vec::new(alloc);
    if new {
        out.extend_from_slice(record_head(alloc, &project)?.as_slice())?;
    }
    let recording = read_recording(alloc, text)?;
    for timed in recording.as_slice() {
        out.extend_from_slice(line(alloc, &project, new, timed)?.as_slice())?;
    }
    Ok(out)
}

/// The default project's recording of these lines behind its head.
fn with_head(alloc: Global, lines: &[u8]) -> Result<Vec<u8>, Fail> {
    let mut text = Vec::from_slice(alloc, HEAD)?;
    text.extend_from_slice(lines)?;
    Ok(text)
}

#[test]
fn both_formats(rt: HostRuntime) -> Result<(), Fail> {
    let alloc = rt.alloc();
    let pairs: [(&[u8], &[u8]); 3] = [
        (b"100 1 0000 -\n100 1 0001 -\n", b"100 1 ping\n100 1 pong\n"),
        (
            b"5 2 0002 0300ffff\n5 2 0009 -\n",
            b"5 2 pair 3 -1\n5 2 9\n",
        ),
        (
            b"0 0 0000 -\n9223372036854775807 65535 7fff 0080ff7f\n",
            b"0 0 ping\n9223372036854775807 65535 32767 -32768 32767\n",
        ),
    ];
    for (old, lines) in &pairs {
        let new = with_head(alloc, *lines)?;
        assert!(rt; !is_new(*old) && is_new(&new));
        assert_eq!(rt; again(alloc, true, *old)?.as_slice(), new.as_slice());
        assert_eq!(rt; again(alloc, false, &new)?.as_slice(), *old);
        assert_eq!(rt; again(alloc, false, *old)?.as_slice(), *old);
    }
    Ok(())
}

#[test]
fn lines_of_format_1(rt: HostRuntime) -> Result<(), Fail> {
    let alloc = rt.alloc();
    let rows: [(&[u8], u64); 16] = [
        (b"", 0),
        (b"5 1 0000 -", 0),
        (b"5 1 0000 -\r\n5 1 0000 -\r\n", 0),
        (b"5 1 0000 -\n4 1 0000 -\n", 2),
        (b"\n", 1),
        (b"# 5 1 0000 -\n", 1),
        (b"5 1 0000 -\n\n", 2),
        (b"05 1 0000 -\n", 1),
        (b"9223372036854775808 1 0000 -\n", 1),
        (b"5 65536 0000 -\n", 1),
        (b"5 1 8000 -\n", 1),
        (b"5 1 000A -\n", 1),
        (b"5 1 000 -\n", 1),
        (b"5 1 0000 \n", 1),
        (b"5 1 0000 01\n", 1),
        (b"5 1 0000 -\r", 1),
    ];
    for (text, bad) in &rows {
        assert_eq!(rt; bad_line(alloc, *text)?, *bad);
    }
    Ok(())
}

#[test]
fn lines_of_format_2(rt: HostRuntime) -> Result<(), Fail> {
    let alloc = rt.alloc();
    let rows: [(&[u8], u64); 15] = [
        (b"aseba-recording 2", 2),
        (b"aseba-recording 2\r\nframes", 0),
        (b"aseba-recording 2\r", 1),
        (b"aseba-recording 2\nevent ping 0\n", 3),
        (b"aseba-recording 2\nevent ping 0\nframes\n5 2 0", 4),
        (b"aseba-recording 2\nevent ping 0\nframes\n5 2 1", 0),
        (b"aseba-recording 2\nframes\n5 2 00", 3),
        (b"aseba-recording 2\nframes\n5 2 32768", 3),
        (b"aseba-recording 2\nevent a 256\nevent b 257\nframes\n", 3),
        (b"aseba-recording 2\nevent a 0\nevent a 1\nframes\n", 3),
        (b"aseba-recording 2\nevent when 0\nframes\n", 2),
        (b"aseba-recording 2\n\nframes\n", 2),
        (
            b"aseba-recording 2\nevent a 0\nframes\n5 2 a 32767 -32768\n5 2 a",
            0,
        ),
        (b"aseba-recording 2\nevent a 0\nframes\n5 2 a 32768\n", 4),
        (b"aseba-recording 2\nevent a 0\nframes\n5 2 a -0\n", 4),
    ];
    for (text, bad) in &rows {
        assert_eq!(rt; bad_line(alloc, *text)?, *bad);
    }
    Ok(())
}

fn timed(alloc: Global, time: u64, source: u16) -> Result<Timed, Fail> {
    Ok(Timed {
        time,
        frame: Frame {
            source,
            kind: 0,
            payload: List::new(alloc),
        },
    })
}

/// What a player answers, as a number: 100 and a frame's source, a time to wait for, or 99.
fn answer(player: &mut Player, now: u64) -> u64 {
    match player.next(now) {
        Next::Send(frame) => 100 + u64::from(frame.source),
        Next::Wait { until } => until,
        Next::End => 99,
    }
}

#[test]
fn plays_in_order(rt: HostRuntime) -> Result<(), Fail> {
    let alloc = rt.alloc();
    let mut list = List::new(alloc);
    list.add(timed(alloc, 5, 1)?)?;
    list.add(timed(alloc, 5, 2)?)?;
    list.add(timed(alloc, 7, 3)?)?;
    let mut player = Player::new(list);
    for (now, said) in &[
        (4, 5),
        (5, 101),
        (5, 102),
        (6, 7),
        (7, 103),
        (7, 99),
        (8, 99),
    ] {
        assert_eq!(rt; answer(&mut player, *now), *said);
    }
    Ok(())
}
