//! `node`: a project's node takes part in a network over a link.

ghost use Rattle.std.specs.Prelude.{◌≡◌, [], IfErr, IfOk, None, false, option_map};
ghost use Rattle.std.specs.Option.{option_map_or};
ghost use Rattle.aseba_edge.specs.Counts.{Counts};
ghost use Rattle.aseba_node.specs.NodeState.{new_node};
ghost use Rattle.aseba_tools.specs.Dialing.{output_end, polled_end};
ghost use Rattle.aseba_tools.specs.Joined.{Joined, NodeRan, OfProject, SessionEnded};
ghost use Rattle.aseba_tools.specs.Outcome.{CountsBoth, is_dial_fault, is_failed_read, is_read_fault, is_write_fault};
ghost use Rattle.aseba_tools.specs.ProjectWord.{NoProject};
ghost use Rattle.aseba_tools.specs.declared.project.Allowed.TheVariants.{KnownNatives};

use crate::project::{Allowed, named_project};
use crate::ran::Ran;
use crate::status::Status;
use aseba_edge::{DialFault, Dialer, Files, LinkOut, LinkPoll};
use aseba_node::{Node, SessionEnd, session};
use std::alloc::Global;

/// Lets the node of the project that a word names take part in a network, over a link to an address,
/// for so many turns or until the link has ended.
pub fn node<F: Files, D: Dialer>(
    alloc: Global,
    word: &str,
    address: &str,
    turns: u32,
    files: &mut F,
    dialer: &mut D,
) -> Ran<D::In, D::Poll, D::Out>
    ensures not_usage { result.status ≡ Status.Usage → ⊥ }
    ensures joined { Joined word.now address.now (option_map (λ files. files word.now) (F.contents files.old)) turns
        record {
          before = D.contents dialer.old;
          behind = D.contents dialer.new;
          polled = option_map (λ input. polled_end (D.Poll.mark input) (D.Poll.contents input)) result.polled;
          output = option_map (λ output. output_end (D.Out.mark output) (D.Out.taken output)) result.output;
        } result.status }
    ensures no_input { result.input ≡ None }
    ensures read_fault { CountsBoth (is_read_fault result.status) (F.faults files.old) (F.faults files.new) (option_map_or D.Poll.faults result.polled 0) }
    ensures write_fault { Counts (is_write_fault result.status) 0 (option_map_or D.Out.faults result.output 0) }
    ensures dial_fault { Counts (is_dial_fault result.status) (D.faults dialer.old) (D.faults dialer.new) }
    ensures files { F.contents files.new ≡ F.contents files.old }
{
    match project_node(alloc, word, files) {
        Ok(node) => linked_node(alloc, node, address, turns, dialer),
        Err(status) => Ran::without_link(status),
    }
}

/// A new node of the project that a word names.
fn project_node<F: Files>(alloc: Global, word: &str, files: &mut F) -> Result<Node, Status>
    ensures node { IfOk result (λ node. OfProject word.now (option_map (λ files. files word.now) (F.contents files.old)) (λ project. node ≡ new_node project)) }
    ensures why { IfErr result (NoProject KnownNatives word.now (option_map (λ files. files word.now) (F.contents files.old))) }
    ensures read_fault { Counts (is_failed_read result) (F.faults files.old) (F.faults files.new) }
    ensures files { F.contents files.new ≡ F.contents files.old }
{
    let project = named_project(alloc, word, Allowed::KnownNatives, files)?;
    Ok(Node::new(alloc, &project)?)
}

/// Lets a node that has said nothing yet take part in a network, over a link to an address.
fn linked_node<D: Dialer>(
    alloc: Global,
    node: Node,
    address: &str,
    turns: u32,
    dialer: &mut D,
) -> Ran<D::In, D::Poll, D::Out>
    requires none { node.waiting ≡ [] }
    ensures not_usage { result.status ≡ Status.Usage → ⊥ }
    ensures ran { NodeRan node address.now turns
        record {
          before = D.contents dialer.old;
          behind = D.contents dialer.new;
          polled = option_map (λ input. polled_end (D.Poll.mark input) (D.Poll.contents input)) result.polled;
          output = option_map (λ output. output_end (D.Out.mark output) (D.Out.taken output)) result.output;
        } result.status }
    ensures no_input { result.input ≡ None }
    ensures read_fault { Counts (is_read_fault result.status) 0 (option_map_or D.Poll.faults result.polled 0) }
    ensures write_fault { Counts (is_write_fault result.status) 0 (option_map_or D.Out.faults result.output 0) }
    ensures dial_fault { Counts (is_dial_fault result.status) (D.faults dialer.old) (D.faults dialer.new) }
{
    match dialer.dial_polled(alloc, address) {
        Ok((mut input, mut output)) => {
            let status = run_session(alloc, node, turns, &mut input, &mut output);
            Ran {
                status,
                input: None,
                polled: Some(input),
                output: Some(output),
            }
        }
        Err(DialFault::Refused) => Ran::without_link(Status::DialFault),
        Err(DialFault::Mem) => Ran::without_link(Status::Memory),
    }
}

/// Has a node's session on a link.
fn run_session<I: LinkPoll, O: LinkOut>(
    alloc: Global,
    mut node: Node,
    turns: u32,
    input: &mut I,
    output: &mut O,
) -> Status
    requires none { node.waiting ≡ [] }
    ensures ended { SessionEnded node turns
        record { input = I.contents input.old; taken = O.taken output.old }
        record { input = I.contents input.new; taken = O.taken output.new } result }
    ensures no_dial { is_dial_fault result ≡ false }
    ensures read_fault { Counts (is_read_fault result) (I.faults input.old) (I.faults input.new) }
    ensures write_fault { Counts (is_write_fault result) (O.faults output.old) (O.faults output.new) }
    ensures input_mark { I.mark input.new ≡ I.mark input.old }
    ensures output_mark { O.mark output.new ≡ O.mark output.old }
{
    match session(alloc, &mut node, input, output, u64::from(turns)) {
        Ok(()) => Status::Done,
        Err(SessionEnd::BadFrame { place }) => Status::BadFrame { place },
        Err(SessionEnd::ReadFault) => Status::ReadFault,
        Err(SessionEnd::WriteFault) => Status::WriteFault,
        Err(SessionEnd::Mem) => Status::Memory,
    }
}
