ghost use Rattle.std.specs.Prelude.{◌≡◌, IfOk, length};
ghost use Rattle.aseba_vm.specs.Loaded.{made};
ghost use Rattle.aseba_vm.specs.State.{NamesInside};

mod arrivals;
mod calls;
mod cells;
mod flow;
mod operators;
mod parts;
mod pushes;
mod resets;
mod ticks;
mod writes;

use crate::lists::put_named;
use crate::shape::Shape;
use crate::stack::Stack;
use aseba_words::Mem;
use std::alloc::Global;
use std::marker::Model;

/// A robot's machine. Its code, cells and stack have the sizes of its shape and are made once.
#[derive(Drop)]
pub struct Machine {
    shape: Shape,
    id: u16,
    code: Vec<u16>,
    cells: Vec<i16>,
    stack: Stack,
    pc: u16,
    active: bool,
    paused: bool,
    /// For each cell the value that waits for the handler's end, if there is one.
    held: Vec<Option<i16>>,
    /// False only where none waits, so that a handler's end needn't look at each cell.
    any_held: bool,
}

impl Model for Machine {
    ghost use Rattle.aseba_vm.specs.State.{State};

    ghost Value = { State };

    ghost use Rattle.aseba_vm.specs.View.{view_of};
    ghost use Rattle.aseba_vm.specs.State.{Kept};

    ghost view = { view_of };

    ghost invariant = { λ m. Kept (view_of m) m.stack.room m.any_held };
}

impl Machine {
    /// A machine without code: all words and cells are 0 but the cell `_id`, which is the id.
    /// It is idle and not paused.
    #[tactic(auto, unfolding(crate::specs::Loaded::made))]
    pub fn new(alloc: Global, shape: &Shape, id: u16) -> Result<Machine, Mem>
        requires { NamesInside shape.now }
        ensures { IfOk result (λ machine. machine ≡ made shape.now id) }
    {
        let code = vec![in alloc; 0; usize::from(shape.code)]?;
        let mut cells = vec![in alloc; 0; usize::from(shape.cells)]?;
        put_named(cells.as_mut_slice(), shape.id, id);
        let stack = Stack::new(alloc, shape.stack)?;
        let held = vec![in alloc; None; usize::from(shape.cells)]?;
        Ok(Machine {
            shape: *shape,
            id,
            code,
            cells,
            stack,
            pc: 0,
            active: false,
            paused: false,
            held,
            any_held: false,
        })
    }

    /// The program counter. It stays where a handler ended.
    pub fn pc(&self) -> u16
        ensures { result ≡ self.now.pc }
    {
        self.pc
    }

    /// Whether a handler runs.
    pub fn active(&self) -> bool
        ensures { result ≡ self.now.active }
    {
        self.active
    }

    /// Whether ticks do nothing until the flag is cleared.
    pub fn paused(&self) -> bool
        ensures { result ≡ self.now.paused }
    {
        self.paused
    }

    /// All cells, by address. Held values aren't in them yet.
    pub fn cells(&self) -> &[i16]
        ensures value { result.now ≡ self.now.cells }
        ensures size { length result.now ≡ self.now.shape.cells }
    {
        self.cells.as_slice()
    }

    /// All words of the code.
    pub fn code(&self) -> &[u16]
        ensures value { result.now ≡ self.now.code }
        ensures size { length result.now ≡ self.now.shape.code }
    {
        self.code.as_slice()
    }
}
