ghost use Rattle.std.specs.Prelude.{◌≡◌, false, true, None, IsSomeAnd, map, option_map, string_bytes};
ghost use Rattle.std.specs.Option.{option_map_or};
ghost use Rattle.aseba_edge.specs.Counts.{Counts};
ghost use Rattle.aseba_tools.specs.Command.{Did, command_of, may_dial_for, names_no_tool};
ghost use Rattle.aseba_tools.specs.Dialing.{output_end, polled_end};
ghost use Rattle.aseba_tools.specs.Ending.{EndsWell, IsRight, Stayed};
ghost use Rattle.aseba_tools.specs.Outcome.{CountsBoth, MessagePut, is_dial_fault, is_read_fault, is_write_fault};
ghost use Rattle.aseba_tools.specs.StatusText.{message_of};

use crate::command::{do_command, read_command};
use crate::ran::Ran;
use crate::status::Status;
use crate::telling::tell;
use aseba_edge::{Clock, Dialer, Files, Sink};
use std::alloc::Global;

/// Does what the words of a command line ask for, and tells on `err` how it ended. The words leave
/// out the program's name. There are four tools so far: `sim PROJECT SOURCE TICKS --script FILE`,
/// `compile PROJECT SOURCE` and `dump FILE --raw`, which ask neither the dialer nor the clock for
/// anything, and `node PROJECT tcp:HOST:PORT TURNS`, which asks the dialer once for a polled link to
/// `HOST:PORT` and gives it back as it is at the end. Words that are no command of these are `Usage`;
/// `Memory` may come wherever memory is taken, also to read words. Where the files, the source and what
/// a link gives are right, and nothing of the outside fails, no other status than `Done` comes beside it.
pub fn run<F: Files, D: Dialer, S: Sink, E: Sink, C: Clock>(
    alloc: Global,
    words: &[String],
    files: &mut F,
    dialer: &mut D,
    out: &mut S,
    err: &mut E,
    clock: &mut C,
) -> Ran<D::In, D::Poll, D::Out>
    requires clock_is_fresh { C.has_answered clock.old ≡ false }
    requires clock_is_low { C.floor clock.old ≡ 0 }
    ensures usage { result.status ≡ Status.Usage → command_of (map string_bytes words.now) ≡ None }
    ensures no_tool { names_no_tool (map string_bytes words.now) ≡ true → result.status ≡ Status.Usage }
    ensures did { Did (command_of (map string_bytes words.now)) (λ name. option_map (λ files. files name) (F.contents files.old)) (S.taken out.old) (S.taken out.new)
        record {
          before = D.contents dialer.old;
          behind = D.contents dialer.new;
          polled = option_map (λ input. polled_end (D.Poll.mark input) (D.Poll.contents input)) result.polled;
          output = option_map (λ output. output_end (D.Out.mark output) (D.Out.taken output)) result.output;
        } result.status }
    ensures nothing_for_usage { result.status ≡ Status.Usage → S.taken out.new ≡ S.taken out.old }
    ensures no_input { result.input ≡ None }
    ensures read_fault { CountsBoth (is_read_fault result.status) (F.faults files.old) (F.faults files.new) (option_map_or D.Poll.faults result.polled 0) }
    ensures write_fault { CountsBoth (is_write_fault result.status) (S.faults out.old) (S.faults out.new) (option_map_or D.Out.faults result.output 0) }
    ensures dial_fault { Counts (is_dial_fault result.status) (D.faults dialer.old) (D.faults dialer.new) }
    ensures files { F.contents files.new ≡ F.contents files.old }
    ensures dialer { may_dial_for (command_of (map string_bytes words.now)) ≡ false → dialer.new ≡ dialer.old }
    ensures told { MessagePut (E.taken err.old) (message_of result.status) (E.taken err.new) (E.faults err.old) (E.faults err.new) }
    ensures clock { clock.new ≡ clock.old }
    ensures ends_well { IsSomeAnd (command_of (map string_bytes words.now)) (λ command. IsRight command (λ name. option_map (λ files. files name) (F.contents files.old)) (option_map (λ input. polled_end (D.Poll.mark input) (D.Poll.contents input)) result.polled))
        → Stayed (F.faults files.old) (F.faults files.new) → Stayed (S.faults out.old) (S.faults out.new) → Stayed (D.faults dialer.old) (D.faults dialer.new)
        → Stayed 0 (option_map_or D.Poll.faults result.polled 0) → Stayed 0 (option_map_or D.Out.faults result.output 0) → EndsWell result.status }
{
    let ran = do_tool(alloc, words, files, dialer, out);
    tell(&ran.status, err);
    ran
}

/// Does what the words ask for.
fn do_tool<F: Files, D: Dialer, S: Sink>(
    alloc: Global,
    words: &[String],
    files: &mut F,
    dialer: &mut D,
    out: &mut S,
) -> Ran<D::In, D::Poll, D::Out>
    ensures usage { result.status ≡ Status.Usage → command_of (map string_bytes words.now) ≡ None }
    ensures no_tool { names_no_tool (map string_bytes words.now) ≡ true → result.status ≡ Status.Usage }
    ensures did { Did (command_of (map string_bytes words.now)) (λ name. option_map (λ files. files name) (F.contents files.old)) (S.taken out.old) (S.taken out.new)
        record {
          before = D.contents dialer.old;
          behind = D.contents dialer.new;
          polled = option_map (λ input. polled_end (D.Poll.mark input) (D.Poll.contents input)) result.polled;
          output = option_map (λ output. output_end (D.Out.mark output) (D.Out.taken output)) result.output;
        } result.status }
    ensures nothing_for_usage { result.status ≡ Status.Usage → S.taken out.new ≡ S.taken out.old }
    ensures no_input { result.input ≡ None }
    ensures read_fault { CountsBoth (is_read_fault result.status) (F.faults files.old) (F.faults files.new) (option_map_or D.Poll.faults result.polled 0) }
    ensures write_fault { CountsBoth (is_write_fault result.status) (S.faults out.old) (S.faults out.new) (option_map_or D.Out.faults result.output 0) }
    ensures dial_fault { Counts (is_dial_fault result.status) (D.faults dialer.old) (D.faults dialer.new) }
    ensures files { F.contents files.new ≡ F.contents files.old }
    ensures dialer { may_dial_for (command_of (map string_bytes words.now)) ≡ false → dialer.new ≡ dialer.old }
{
    match read_command(alloc, words) {
        Ok(command) => do_command(alloc, command, files, dialer, out),
        Err(unread) => Ran::without_link(unread),
    }
}
