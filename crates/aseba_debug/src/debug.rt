ghost use Rattle.std.specs.Prelude.{◌≡◌, [], length};
ghost use Rattle.aseba_debug.specs.Breaks.{is_set, may_stand, without};
ghost use Rattle.aseba_debug.specs.Commanded.{TellsInside, checked, commanded, flags_of, set_break, standing, step_reply};

use crate::command::Command;
use crate::reply::Reply;
use arrayvec::ArrayVec;
use aseba_vm::Machine;
use std::marker::Model;

/// The most breakpoints that there may be.
const MOST_BREAKS: usize = 16;

/// The breakpoints of a machine: at most sixteen, at addresses of its code.
#[derive(Drop)]
pub struct Debug {
    breaks: ArrayVec<u16, MOST_BREAKS>,
}

impl Model for Debug {
    ghost use Rattle.std.specs.Prelude.{List, ℕ};
    ghost use Rattle.aseba_debug.specs.Breaks.{AreBreaks};

    ghost Value = { List ℕ };

    ghost view = { λ debug. debug.breaks.items };

    ghost invariant = { λ debug. AreBreaks debug.breaks.items };
}

impl Debug {
    /// A debugger without breakpoints.
    pub fn new() -> Debug
        ensures { result ≡ [] }
    {
        Debug {
            breaks: ArrayVec::new(),
        }
    }

    /// Does a command on the machine and its breakpoints.
    pub fn command(&mut self, machine: &mut Machine, command: Command) -> Reply
        ensures done { (result, machine.new, self.new) ≡ commanded command machine.old self.old }
        ensures sent { TellsInside (length machine.new.cells) result }
    {
        match command {
            Command::Reset => machine.reset(true),
            Command::Run => machine.set_paused(false),
            Command::Pause => machine.set_paused(true),
            Command::Step => return step(machine),
            Command::Stop => machine.stop(),
            Command::State => {}
            Command::Set(pc) => return self.set(pc, machine),
            Command::Clear(pc) => return self.clear(pc),
            Command::ClearAll => return self.clear_all(),
        }
        state_of(machine)
    }

    /// Pauses a machine that runs and has come to a breakpoint, and answers whether it did.
    pub fn check(&self, machine: &mut Machine) -> bool
        ensures { (result, machine.new) ≡ checked self.now machine.old }
    {
        let stops = machine.active() && !machine.paused() && self.has(machine.pc());
        if stops {
            machine.set_paused(true);
        }
        stops
    }
}

impl Debug {
    /// Whether there is a breakpoint at an address.
    fn has(&self, pc: u16) -> bool
        ensures { result ≡ is_set pc self.now }
    {
        self.breaks.contains(&pc)
    }

    /// Whether a breakpoint may stand at an address: it is inside the code, and there are fewer than
    /// sixteen others.
    #[tactic(auto, using(crate::proofs::BreakLaws::counts))]
    fn may_stand(&self, pc: u16, machine: &Machine) -> bool
        ensures { result ≡ may_stand pc machine.now.code self.now }
    {
        let others = self.breaks.iter().filter(|at| **at != pc).count();
        usize::from(pc) < machine.code().len() && others < MOST_BREAKS
    }

    /// Sets a breakpoint where it may stand.
    #[tactic(auto, using(crate::proofs::BreakLaws::room_behind, crate::proofs::BreakLaws::breaks_with))]
    fn set(&mut self, pc: u16, machine: &Machine) -> Reply
        ensures { (result, self.new) ≡ set_break pc machine.now.code self.old }
    {
        let taken = self.may_stand(pc, machine);
        if taken && !self.has(pc) {
            self.breaks.push(pc);
        }
        Reply::Break { pc, taken }
    }

    /// Takes the breakpoint at an address away, if there is one.
    fn clear(&mut self, pc: u16) -> Reply
        ensures reply { result ≡ Reply.Nothing }
        ensures breaks { self.new ≡ without pc self.old }
    {
        take_away(&mut self.breaks, pc);
        Reply::Nothing
    }

    /// Takes all breakpoints away.
    fn clear_all(&mut self) -> Reply
        ensures reply { result ≡ Reply.Nothing }
        ensures breaks { self.new ≡ [] }
    {
        self.breaks.clear();
        Reply::Nothing
    }
}

/// Takes the breakpoint at an address away from the others.
fn take_away(breaks: &mut ArrayVec<u16, MOST_BREAKS>, pc: u16)
    ensures { breaks.new.items ≡ without pc breaks.old.items }
{
    breaks.retain(|at| *at != pc);
}

/// Does one tick of a paused handler, with the flag lifted for that tick.
fn step(machine: &mut Machine) -> Reply
    ensures done { (result, machine.new) ≡ step_reply machine.old }
    ensures sent { TellsInside (length machine.new.cells) result }
{
    if !(machine.active() && machine.paused()) {
        return state_of(machine);
    }
    machine.set_paused(false);
    let tick = machine.tick();
    machine.set_paused(true);
    Reply::Stepped {
        tick,
        pc: machine.pc(),
        flags: flags_of(machine),
    }
}

/// Where a machine stands.
fn state_of(machine: &Machine) -> Reply
    ensures { result ≡ standing machine.now }
{
    Reply::State {
        pc: machine.pc(),
        flags: flags_of(machine),
    }
}

/// Bit 0 says that a handler is active, bit 1 that the machine is paused.
fn flags_of(machine: &Machine) -> u16
    ensures { result ≡ flags_of machine.now }
{
    u16::from(machine.active()) + 2 * u16::from(machine.paused())
}
