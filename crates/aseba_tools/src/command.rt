//! The tools: their names, the words that each takes, and the commands that are read of them.

ghost use Rattle.std.specs.Prelude.{◌≡◌, None, IfErr, IfOk, Some, false, true, map, option_map, string_bytes};
ghost use Rattle.std.specs.Option.{option_map_or};
ghost use Rattle.clap.specs.Words.{found_of, is_simple_and_free, rows_of};
ghost use Rattle.aseba_edge.specs.Counts.{Counts};
ghost use Rattle.aseba_tools.specs.Command.{Does, command_in, command_view, named, names_no_tool};
ghost use Rattle.aseba_tools.specs.Command as spec;
ghost use Rattle.aseba_tools.specs.Dialing.{output_end, polled_end};
ghost use Rattle.aseba_tools.specs.Outcome.{CountsBoth, is_dial_fault, is_read_fault, is_write_fault};
ghost use Rattle.aseba_tools.specs.Words.{Unread, app, word_view};

use crate::address::{address_of, names_link};
use crate::compile::compile;
use crate::dump::dump;
use crate::node::node;
use crate::ran::Ran;
use crate::sim::sim;
use crate::status::Status;
use crate::words::{Word, find, flag, number, number_or_none, text, text_or_none};
use aseba_edge::{Dialer, Files, Sink};
use clap::ArgMatches;
use std::alloc::Global;

/// A tool, by the first word of a command line.
#[derive(Clone, Copy, Debug)]
enum Tool {
    Sim,
    Compile,
    Node,
    Dump,
    Rec,
    Play,
    Migrate,
    Massloader,
    Make,
}

/// The greatest number of ticks that may be asked for.
const MOST_TICKS: u32 = 100_000_000;

static SIM: [Word; 4] = [
    Word::Text("project"),
    Word::Text("source"),
    Word::Number("ticks", 0, MOST_TICKS),
    Word::Option("script"),
];

static COMPILE: [Word; 2] = [Word::Text("project"), Word::Text("source")];

static NODE: [Word; 3] = [
    Word::Text("project"),
    Word::Text("target"),
    Word::Number("turns", 0, 1_000_000_000),
];

static DUMP: [Word; 3] = [
    Word::Text("target"),
    Word::Option("project"),
    Word::Flag("raw"),
];

static REC: [Word; 2] = [Word::Text("target"), Word::Option("project")];

static PLAY: [Word; 2] = [Word::Text("recording"), Word::Text("target")];

static MIGRATE: [Word; 2] = [Word::Text("recording"), Word::Option("project")];

static MASSLOADER: [Word; 4] = [
    Word::Text("project"),
    Word::Text("source"),
    Word::Text("target"),
    Word::NumberOption("nodes", 1, 65_535),
];

static MAKE: [Word; 2] = [
    Word::Number("number", 0, 4_294_967_295),
    Word::Number("ticks", 0, MOST_TICKS),
];

/// The tool of a name.
fn tool_named(name: &str) -> Option<Tool>
    ensures { result ≡ spec.tool_named name.now }
{
    match name {
        "sim" => Some(Tool::Sim),
        "compile" => Some(Tool::Compile),
        "node" => Some(Tool::Node),
        "dump" => Some(Tool::Dump),
        "rec" => Some(Tool::Rec),
        "play" => Some(Tool::Play),
        "migrate" => Some(Tool::Migrate),
        "massloader" => Some(Tool::Massloader),
        "make" => Some(Tool::Make),
        _ => None,
    }
}

/// The words that a tool takes behind its name.
#[tactic(auto, unfolding(clap::proofs::OnLiterals::clap_on_literals))]
fn words_of(tool: Tool) -> &'static [Word]
    ensures words { map word_view result.now ≡ spec.words_of tool }
    ensures simple { is_simple_and_free (app (map word_view result.now)) ≡ true }
{
    match tool {
        Tool::Sim => &SIM,
        Tool::Compile => &COMPILE,
        Tool::Node => &NODE,
        Tool::Dump => &DUMP,
        Tool::Rec => &REC,
        Tool::Play => &PLAY,
        Tool::Migrate => &MIGRATE,
        Tool::Massloader => &MASSLOADER,
        Tool::Make => &MAKE,
    }
}

/// A command line: its tool, with what the tool is given.
#[derive(Clone, Copy, Debug)]
pub enum Command<'a> {
    /// Run a source on a project's node for so many ticks, with the entries of a script.
    Sim {
        project: &'a str,
        source: &'a str,
        ticks: u32,
        script: Option<&'a str>,
    },
    /// Write the words of a source.
    Compile {
        project: &'a str,
        source: &'a str,
    },
    /// Run a project's node behind a link for so many turns.
    Node {
        project: &'a str,
        target: &'a str,
        turns: u32,
    },
    /// Write the frames of a file or a link.
    Dump {
        target: &'a str,
        project: Option<&'a str>,
        raw: bool,
    },
    /// Record the events of a link.
    Rec {
        target: &'a str,
        project: Option<&'a str>,
    },
    /// Send the events of a recording into a link.
    Play {
        recording: &'a str,
        target: &'a str,
    },
    /// Write an old recording in the new format.
    Migrate {
        recording: &'a str,
        project: Option<&'a str>,
    },
    /// Load a source into so many nodes behind a link; one, where no number is given.
    Massloader {
        project: &'a str,
        source: &'a str,
        target: &'a str,
        nodes: Option<u32>,
    },
    /// Run the made source and script of this number for so many ticks.
    Make {
        number: u32,
        ticks: u32,
    },
}

impl Command<'_> {
    /// Whether the program can do it so far.
    fn is_built(&self) -> bool
        ensures { result ≡ spec.is_built (command_view self.now) }
    {
        match self {
            Command::Sim { .. } | Command::Compile { .. } | Command::Node { .. } => true,
            Command::Dump {
                target,
                project,
                raw,
            } => *raw && project.is_none() && !names_link(target),
            _ => false,
        }
    }

    /// Whether it names a link where it needs one.
    fn has_link(&self) -> bool
        ensures { result ≡ spec.has_link (command_view self.now) }
    {
        match self {
            Command::Node { target, .. } => address_of(target).is_some(),
            _ => true,
        }
    }
}

/// Reads the words of a command line, the program's name left out. Words that are none, and words
/// of what isn't there yet, are `Usage`; `Memory` comes where memory doesn't suffice.
pub fn read_command<'a>(alloc: Global, words: &'a [String]) -> Result<Command<'a>, Status>
    ensures read { IfOk result (λ command. spec.command_of (map string_bytes words.now) ≡ Some (command_view command)) }
    ensures built { IfOk result (λ command. spec.is_built (command_view command) ≡ true) }
    ensures linked { IfOk result (λ command. spec.has_link (command_view command) ≡ true) }
    ensures unread { IfErr result (Unread (spec.command_of (map string_bytes words.now))) }
    ensures no_tool { names_no_tool (map string_bytes words.now) ≡ true → result ≡ Err Status.Usage }
{
    let command = named_command(alloc, words)?;
    if command.is_built() && command.has_link() {
        Ok(command)
    } else {
        Err(Status::Usage)
    }
}

/// Reads the words of a tool by its name.
fn named_command<'a>(alloc: Global, words: &'a [String]) -> Result<Command<'a>, Status>
    ensures read { IfOk result (λ command. named (map string_bytes words.now) ≡ Some (command_view command)) }
    ensures unread { IfErr result (Unread (named (map string_bytes words.now))) }
    ensures no_tool { names_no_tool (map string_bytes words.now) ≡ true → result ≡ Err Status.Usage }
{
    let [name, rest @ ..] = words else {
        return Err(Status::Usage);
    };
    match tool_named(name.as_str()) {
        Some(tool) => tool_command(alloc, tool, rest),
        None => Err(Status::Usage),
    }
}

/// Reads the words behind a tool's name.
fn tool_command<'a>(alloc: Global, tool: Tool, words: &'a [String]) -> Result<Command<'a>, Status>
    ensures read { IfOk result (λ command. spec.tool_command tool (map string_bytes words.now) ≡ Some (command_view command)) }
    ensures unread { IfErr result (Unread (spec.tool_command tool (map string_bytes words.now))) }
{
    let matches = find(alloc, words_of(tool), words)?;
    Ok(matched(tool, &matches))
}

/// The command of a tool, by what was found in its words.
fn matched<'a>(tool: Tool, matches: &ArgMatches<'a>) -> Command<'a>
    ensures { command_view result ≡ command_in tool (rows_of (found_of matches.now)) }
{
    match tool {
        Tool::Sim => Command::Sim {
            project: text(matches, "project"),
            source: text(matches, "source"),
            ticks: number(matches, "ticks"),
            script: text_or_none(matches, "script"),
        },
        Tool::Compile => Command::Compile {
            project: text(matches, "project"),
            source: text(matches, "source"),
        },
        Tool::Node => Command::Node {
            project: text(matches, "project"),
            target: text(matches, "target"),
            turns: number(matches, "turns"),
        },
        Tool::Dump => Command::Dump {
            target: text(matches, "target"),
            project: text_or_none(matches, "project"),
            raw: flag(matches, "raw"),
        },
        Tool::Rec => Command::Rec {
            target: text(matches, "target"),
            project: text_or_none(matches, "project"),
        },
        Tool::Play => Command::Play {
            recording: text(matches, "recording"),
            target: text(matches, "target"),
        },
        Tool::Migrate => Command::Migrate {
            recording: text(matches, "recording"),
            project: text_or_none(matches, "project"),
        },
        Tool::Massloader => Command::Massloader {
            project: text(matches, "project"),
            source: text(matches, "source"),
            target: text(matches, "target"),
            nodes: number_or_none(matches, "nodes"),
        },
        Tool::Make => Command::Make {
            number: number(matches, "number"),
            ticks: number(matches, "ticks"),
        },
    }
}

/// Does a command.
pub fn do_command<F: Files, D: Dialer, S: Sink>(
    alloc: Global,
    command: Command<'_>,
    files: &mut F,
    dialer: &mut D,
    out: &mut S,
) -> Ran<D::In, D::Poll, D::Out>
    requires built { spec.is_built (command_view command) ≡ true }
    requires linked { spec.has_link (command_view command) ≡ true }
    ensures not_usage { result.status ≡ Status.Usage → ⊥ }
    ensures did { Does (command_view command.entry) (λ name. option_map (λ files. files name) (F.contents files.old)) (S.taken out.old) (S.taken out.new)
        record {
          before = D.contents dialer.old;
          behind = D.contents dialer.new;
          polled = option_map (λ input. polled_end (D.Poll.mark input) (D.Poll.contents input)) result.polled;
          output = option_map (λ output. output_end (D.Out.mark output) (D.Out.taken output)) result.output;
        } result.status }
    ensures no_input { result.input ≡ None }
    ensures read_fault { CountsBoth (is_read_fault result.status) (F.faults files.old) (F.faults files.new) (option_map_or D.Poll.faults result.polled 0) }
    ensures write_fault { CountsBoth (is_write_fault result.status) (S.faults out.old) (S.faults out.new) (option_map_or D.Out.faults result.output 0) }
    ensures dial_fault { Counts (is_dial_fault result.status) (D.faults dialer.old) (D.faults dialer.new) }
    ensures files { F.contents files.new ≡ F.contents files.old }
    ensures dialer { spec.may_dial (command_view command.entry) ≡ false → dialer.new ≡ dialer.old }
{
    match command {
        Command::Sim {
            project,
            source,
            ticks,
            script,
        } => Ran::without_link(sim(alloc, project, source, script, ticks, files, out)),
        Command::Compile { project, source } => {
            Ran::without_link(compile(alloc, project, source, files, out))
        }
        Command::Node {
            project,
            target,
            turns,
        } => match address_of(target) {
            Some(address) => node(alloc, project, address, turns, files, dialer),
            None => unreachable!(),
        },
        Command::Dump { target, .. } => Ran::without_link(dump(alloc, target, files, out)),
        _ => unreachable!(),
    }
}
