//! Files, sinks and the clock in memory.
use crate::outside::{Trouble, copy_line, load, put_three};
use aseba_edge::{
    Clock, FileAnswer, Files, MemoryClock, MemoryFile, MemoryFiles, MemorySink, Sink,
};
use aseba_words::{List, Mem, Name};
use std::alloc::Global;
use std::test::Fail;

fn files_of(alloc: Global, failing: List<u64>) -> Result<MemoryFiles, Mem> {
    let mut files = List::new(alloc);
    for (name, bytes) in [
        (b"a", b"12345678"),
        (b"b", b"87654321"),
        (b"a", b"        "),
    ] {
        let file = MemoryFile {
            name: Name::new(alloc, name)?,
            bytes: List::from_slice(alloc, bytes)?,
        };
        files.push(file).map_err(|_| Mem)?;
    }
    Ok(MemoryFiles::new(files, failing))
}

#[test]
fn files_in_memory_answer_by_name(rt: HostRuntime) -> Result<(), Fail> {
    let failing = List::from_slice(rt.alloc(), &[3])?;
    let mut files = files_of(rt.alloc(), failing)?;
    let bytes = load(rt.alloc(), &mut files, "a").ok().ok_or("a")?;
    assert_eq!(rt; bytes.as_slice(), b"12345678".as_slice());
    assert!(rt; matches!(load(rt.alloc(), &mut files, "c"), Err(Trouble::Missing)));
    assert!(rt; matches!(load(rt.alloc(), &mut files, "b"), Err(Trouble::Read)));
    assert_eq!(rt; files.faults(), 1);
    assert!(rt; matches!(files.read(rt.alloc(), "b", 7), FileAnswer::TooBig));
    assert!(rt; matches!(files.read(rt.alloc(), "b", 8), FileAnswer::Bytes(_)));
    assert_eq!(rt; files.faults(), 1);
    Ok(())
}

#[test]
fn a_full_sink_has_the_first_bytes(rt: HostRuntime) -> Result<(), Fail> {
    for room in 0..6 {
        let mut out = MemorySink::new(rt.alloc(), room, List::new(rt.alloc()))?;
        let answer = put_three(&mut out, b"ab", b"", b"cde");
        assert_eq!(rt;
            answer,
            if room < 5 {
                Err(Trouble::Write)
            } else {
                Ok(())
            }
        );
        assert_eq!(rt; out.bytes(), &b"abcde"[..room]);
        assert_eq!(rt; out.faults(), if room < 5 { 1 } else { 0 });
    }
    Ok(())
}

#[test]
fn a_put_that_is_to_fail_takes_nothing(rt: HostRuntime) -> Result<(), Fail> {
    let failing = List::from_slice(rt.alloc(), &[2, 3])?;
    let mut out = MemorySink::new(rt.alloc(), 100, failing)?;
    assert_eq!(rt;
        put_three(&mut out, b"ab", b"", b"cde"),
        Err(Trouble::Write)
    );
    assert_eq!(rt; out.bytes(), b"ab".as_slice());
    assert_eq!(rt; out.put(b"f"), Ok(()));
    assert_eq!(rt; out.bytes(), b"abf".as_slice());
    Ok(())
}

#[test]
fn a_line_is_copied(rt: HostRuntime) -> Result<(), Fail> {
    let mut files = files_of(rt.alloc(), List::new(rt.alloc()))?;
    let mut out = MemorySink::new(rt.alloc(), 100, List::new(rt.alloc()))?;
    assert!(rt; copy_line(rt.alloc(), &mut files, "b", &mut out).is_ok());
    assert_eq!(rt; out.bytes(), b"b: 87654321\n".as_slice());
    Ok(())
}

#[test]
fn a_clock_in_memory_repeats_its_last_answer(rt: HostRuntime) -> Result<(), Fail> {
    let mut clock = MemoryClock::new(5, List::from_slice(rt.alloc(), &[5, 9, 7])?);
    assert_eq!(rt; clock.now_ms(), 5);
    assert_eq!(rt; clock.now_ms(), 5);
    clock.wait_until(8);
    assert_eq!(rt; clock.now_ms(), 9);
    assert_eq!(rt; clock.now_ms(), 9);
    clock.wait_until(12);
    assert_eq!(rt; clock.now_ms(), 12);
    assert_eq!(rt; clock.now_ms(), 12);
    Ok(())
}
