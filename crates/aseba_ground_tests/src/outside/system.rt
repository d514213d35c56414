//! The forms over the system, and readers and writers that the system may be.
use aseba_edge::{
    Clock, FileAnswer, Files, PutFault, Sink, SystemClock, SystemFiles, WriterSink, read_to_limit,
};
use std::test::Fail;
use std::{fs, io};

#[test]
fn the_systems_files_are_read(rt: HostRuntime) {
    let mut files = SystemFiles::new(&rt);
    assert!(rt; matches!(files.read(rt.alloc(), "/dev/null", 0), FileAnswer::Bytes(_)));
    assert!(rt;
        matches!(
            files.read(rt.alloc(), "/dev/zero", 9000),
            FileAnswer::TooBig
        )
    );
    assert!(rt;
        matches!(
            files.read(rt.alloc(), "/no such file", 0),
            FileAnswer::Absent
        )
    );
    assert!(rt; matches!(files.read(rt.alloc(), "/", 100), FileAnswer::Failed));
}

#[test]
fn the_systems_files_are_read_whole(rt: HostRuntime) -> Result<(), Fail> {
    let path = "/proc/self/exe";
    let held = fs::read(&rt, path)?;
    let size = held.len() as u64;
    assert!(rt; 10_000 < size);
    let mut files = SystemFiles::new(&rt);
    assert!(rt; matches!(files.read(rt.alloc(), path, size - 1), FileAnswer::TooBig));
    let FileAnswer::Bytes(bytes) = files.read(rt.alloc(), path, size) else {
        return Err(Fail::new("bytes"));
    };
    assert!(rt; bytes.as_slice() == held.as_slice());
    Ok(())
}

/// A reader that gives up to three bytes at a time, is interrupted before each of its answers, and
/// fails behind its last byte if it is to.
#[derive(Drop)]
struct Halting {
    left: &'static [u8],
    interrupts: bool,
    fails: bool,
}

impl Halting {
    fn new(left: &'static [u8], fails: bool) -> Halting {
        Halting {
            left,
            interrupts: false,
            fails,
        }
    }
}

impl io::Read for Halting {
    fn read(&mut self, buf: &mut [u8]) -> io::Result<usize> {
        self.interrupts = !self.interrupts;
        if self.interrupts {
            return Err(io::Error::from(io::ErrorKind::Interrupted));
        }
        if self.fails && self.left.is_empty() {
            return Err(io::Error::from(io::ErrorKind::BrokenPipe));
        }
        let room = buf.len().min(3);
        io::Read::read(&mut self.left, &mut buf[..room])
    }
}

#[test]
fn an_interrupted_input_is_read_whole(rt: HostRuntime) -> Result<(), Fail> {
    let mut input = Halting::new(b"abcdefgh", false);
    let answer = read_to_limit(rt.alloc(), &mut input, 8)?;
    let FileAnswer::Bytes(bytes) = answer else {
        return Err(Fail::new("bytes"));
    };
    assert_eq!(rt; bytes.as_slice(), b"abcdefgh".as_slice());
    let mut input = Halting::new(b"abcdefgh", false);
    let answer = read_to_limit(rt.alloc(), &mut input, 7)?;
    assert!(rt; matches!(answer, FileAnswer::TooBig));
    let mut input = Halting::new(b"abcdefgh", true);
    let Err(error) = read_to_limit(rt.alloc(), &mut input, 8) else {
        return Err(Fail::new("fault"));
    };
    assert_eq!(rt; error.kind(), io::ErrorKind::BrokenPipe);
    Ok(())
}

#[test]
fn the_systems_clock_waits(rt: HostRuntime) {
    let mut other = SystemClock::new(&rt);
    let mut clock = SystemClock::new(&rt);
    clock.wait_until(20);
    let passed = other.now_ms();
    assert!(rt; 20 <= passed);
    assert!(rt; passed < 10_000);
}

/// A writer that takes a byte at a time, is interrupted before each, and at last takes nothing.
#[derive(Drop)]
struct Slow {
    left: usize,
    interrupts: bool,
}

impl io::Write for Slow {
    fn write(&mut self, buf: &[u8]) -> io::Result<usize> {
        self.interrupts = !self.interrupts;
        if self.interrupts {
            return Err(io::Error::from(io::ErrorKind::Interrupted));
        }
        if self.left == 0 || buf.is_empty() {
            return Ok(0);
        }
        self.left -= 1;
        Ok(1)
    }

    fn flush(&mut self) -> io::Result<()> {
        Ok(())
    }
}

#[test]
fn a_writer_that_takes_nothing_more_has_failed(rt: HostRuntime) {
    let mut out = WriterSink::new(Slow {
        left: 5,
        interrupts: false,
    });
    assert_eq!(rt; out.put(b"abc"), Ok(()));
    assert_eq!(rt; out.put(b""), Ok(()));
    assert_eq!(rt; out.put(b"def"), Err(PutFault { taken: 2 }));
}
