ghost use Rattle.std.specs.Prelude.{◌≡◌, IfOk};
ghost use Rattle.aseba_describe.specs.Kinds.{is_whole, may_follow};
ghost use Rattle.aseba_describe.specs.Reading as spec;

use crate::entry::Entry;
use crate::fault::LineFault;
use crate::kind::Kind;
use crate::known::Known;
use aseba_tree::{Const, Description, Local, Native, Project, Sized};
use aseba_words::{
    List, MOST_CONSTS, MOST_EVENTS, MOST_LOCALS, MOST_NATIVES, MOST_VARIABLES, Mem, Name,
};
use std::alloc::Global;

/// What the lines so far say.
#[derive(Drop)]
pub struct Draft {
    /// The kind of line that comes next: while needed lines are missing that one alone, from then on it
    /// or a later one.
    next: Kind,
    name: Name,
    code: u16,
    cells: u16,
    stack: u16,
    id: u16,
    variables: List<Sized>,
    locals: List<Local>,
    natives: List<Native>,
    events: List<Sized>,
    consts: List<Const>,
    /// How many cells no variable has yet.
    left: u16,
    cell_names: Known,
    event_names: Known,
    native_names: Known,
}

impl Draft {
    /// Nothing yet.
    pub fn new(alloc: Global) -> Result<Draft, Mem>
        ensures { IfOk result (λ draft. draft ≡ spec.empty_draft) }
    {
        let name = Name::new(alloc, b"")?;
        Ok(Draft {
            next: Kind::Node,
            name,
            code: 0,
            cells: 0,
            stack: 0,
            id: 0,
            variables: List::new(alloc),
            locals: List::new(alloc),
            natives: List::new(alloc),
            events: List::new(alloc),
            consts: List::new(alloc),
            left: 0,
            cell_names: Known::new(alloc),
            event_names: Known::new(alloc),
            native_names: Known::new(alloc),
        })
    }

    /// Whether no needed line is missing.
    pub fn is_whole(&self) -> bool
        ensures { result ≡ is_whole self.now.next }
    {
        self.next.rank() >= Kind::Variable.rank()
    }

    /// The project that the lines give.
    pub fn into_project(self) -> Project
        ensures { result ≡ spec.project_of self }
    {
        Project {
            node: Description {
                name: self.name,
                code: self.code,
                stack: self.stack,
                cells: self.cells,
                variables: self.variables,
                locals: self.locals,
                natives: self.natives,
            },
            id: self.id,
            events: self.events,
            consts: self.consts,
        }
    }

    /// Takes what a line says, where that may follow. Else what was read is of no more use.
    #[tactic(auto, unfolding(crate::specs::Reading::with_entry))]
    pub fn take(&mut self, alloc: Global, entry: Entry) -> Result<(), LineFault>
        ensures { spec.Gives (λ _. self.new) result (spec.with_entry self.old entry) }
    {
        match entry {
            Entry::Node(name) => {
                self.pass(Kind::Node, Kind::Code)?;
                self.name = name;
            }
            Entry::Code(number) => {
                self.pass(Kind::Code, Kind::Vars)?;
                self.code = number;
            }
            Entry::Vars(number) => {
                self.pass(Kind::Vars, Kind::Stack)?;
                self.cells = number;
                self.left = number;
            }
            Entry::Stack(number) => {
                self.pass(Kind::Stack, Kind::Id)?;
                self.stack = number;
            }
            Entry::Id(number) => {
                self.pass(Kind::Id, Kind::Variable)?;
                self.id = number;
            }
            Entry::Variable(variable) => self.add_variable(alloc, variable)?,
            Entry::Local(local) => self.add_local(alloc, local)?,
            Entry::Native(native) => self.add_native(alloc, native)?,
            Entry::Event(event) => self.add_event(alloc, event)?,
            Entry::Const(constant) => self.add_const(alloc, constant)?,
        }
        Ok(())
    }

    /// Passes a needed line, whose turn it has to be.
    fn pass(&mut self, this: Kind, next: Kind) -> Result<(), LineFault>
        ensures { spec.Gives (λ _. self.new) result (spec.passed this next self.old) }
    {
        if self.next.rank() != this.rank() {
            return Err(LineFault::Bad);
        }
        self.next = next;
        Ok(())
    }

    /// Whether a line of this kind, which may be missing or stand more than once, may follow.
    fn may_follow(&self, this: Kind) -> bool
        ensures { result ≡ may_follow self.now.next this }
    {
        self.is_whole() && self.next.rank() <= this.rank()
    }

    #[tactic(auto, unfolding(crate::specs::Reading::with_variable))]
    fn add_variable(&mut self, alloc: Global, variable: Sized) -> Result<(), LineFault>
        ensures { spec.Gives (λ _. self.new) result (spec.with_variable self.old variable) }
    {
        if !self.may_follow(Kind::Variable)
            || self.variables.as_slice().len() >= MOST_VARIABLES
            || variable.size > self.left
        {
            return Err(LineFault::Bad);
        }
        self.cell_names.add(variable.name.copy(alloc)?)?;
        self.next = Kind::Variable;
        self.left -= variable.size;
        self.variables.add(variable)?;
        Ok(())
    }

    #[tactic(auto, unfolding(crate::specs::Reading::with_local))]
    fn add_local(&mut self, alloc: Global, local: Local) -> Result<(), LineFault>
        ensures { spec.Gives (λ _. self.new) result (spec.with_local self.old local) }
    {
        if !self.may_follow(Kind::Local) || self.locals.as_slice().len() >= MOST_LOCALS {
            return Err(LineFault::Bad);
        }
        self.event_names.add(local.name.copy(alloc)?)?;
        self.next = Kind::Local;
        self.locals.add(local)?;
        Ok(())
    }

    #[tactic(auto, unfolding(crate::specs::Reading::with_native))]
    fn add_native(&mut self, alloc: Global, native: Native) -> Result<(), LineFault>
        ensures { spec.Gives (λ _. self.new) result (spec.with_native self.old native) }
    {
        if !self.may_follow(Kind::Native) || self.natives.as_slice().len() >= MOST_NATIVES {
            return Err(LineFault::Bad);
        }
        self.native_names.add(native.name.copy(alloc)?)?;
        self.next = Kind::Native;
        self.natives.add(native)?;
        Ok(())
    }

    #[tactic(auto, unfolding(crate::specs::Reading::with_event))]
    fn add_event(&mut self, alloc: Global, event: Sized) -> Result<(), LineFault>
        ensures { spec.Gives (λ _. self.new) result (spec.with_event self.old event) }
    {
        if !self.may_follow(Kind::Event) || self.events.as_slice().len() >= MOST_EVENTS {
            return Err(LineFault::Bad);
        }
        self.event_names.add(event.name.copy(alloc)?)?;
        self.next = Kind::Event;
        self.events.add(event)?;
        Ok(())
    }

    #[tactic(auto, unfolding(crate::specs::Reading::with_const))]
    fn add_const(&mut self, alloc: Global, constant: Const) -> Result<(), LineFault>
        ensures { spec.Gives (λ _. self.new) result (spec.with_const self.old constant) }
    {
        if !self.may_follow(Kind::Const) || self.consts.as_slice().len() >= MOST_CONSTS {
            return Err(LineFault::Bad);
        }
        self.cell_names.add(constant.name.copy(alloc)?)?;
        self.next = Kind::Const;
        self.consts.add(constant)?;
        Ok(())
    }
}
