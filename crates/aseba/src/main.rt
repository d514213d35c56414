//! The program `aseba`: the real files, streams and clock, handed to the tools on a thread of their
//! own.
#![tactic(auto)]

use aseba_edge::{SystemClock, SystemDialer, SystemFiles, WriterSink};
use aseba_tools::{Status, run, tell};
use std::process::ExitCode;
use std::thread::Builder;
use std::{env, io};

/// How many bytes of stack the tools have. A source may be one expression of 524,283 operators, each
/// in the left side of the next, and what reads, copies or drops its tree calls itself as often. Of
/// such a source the program that LLVM builds was measured to take 688 million bytes of stack, and
/// that of Rattle's own compiler 495 million, so this is three times what is needed. Memory is only
/// taken for the part of a stack that is used.
const STACK: usize = 2_147_483_648;

fn main(rt: HostRuntime) -> ExitCode {
    let tools = Builder::new().stack_size(STACK);
    let number = match tools.spawn(&rt, move || run_words(&rt)) {
        Ok(thread) => thread.join(&rt),
        Err(_) => out_of_memory(&rt),
    };
    ExitCode::from(number)
}

/// Tells that memory didn't suffice, and answers the exit status.
fn out_of_memory(rt: &HostRuntime) -> u8 {
    let status = Status::Memory;
    tell(&status, &mut WriterSink::new(rt.stderr()));
    status.number()
}

/// Runs the tools on the program's words, and answers the exit status.
fn run_words(rt: &HostRuntime) -> u8 {
    let alloc = rt.alloc();
    let words = match words(rt) {
        Ok(words) => words,
        Err(error) => {
            if error.kind() == io::ErrorKind::OutOfMemory {
                return out_of_memory(rt);
            }
            // Words that can't be read are no command line, as no words are.
            Vec::new(alloc)
        }
    };
    let mut files = SystemFiles::new(rt);
    let mut dialer = SystemDialer::new(rt);
    let mut out = WriterSink::new(rt.stdout());
    let mut err = WriterSink::new(rt.stderr());
    let mut clock = SystemClock::new(rt);
    let ran = run(
        alloc,
        words.as_slice(),
        &mut files,
        &mut dialer,
        &mut out,
        &mut err,
        &mut clock,
    );
    ran.status.number()
}

/// The words behind the program's name.
fn words(rt: &HostRuntime) -> io::Result<Vec<String>> {
    let mut words = Vec::new(rt.alloc());
    for word in env::args(rt)?.skip(1) {
        words.push(word)?;
    }
    Ok(words)
}
