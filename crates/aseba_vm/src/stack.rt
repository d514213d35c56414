ghost use Rattle.std.specs.Prelude.{◌≡◌, ◌∷◌, [], ◌<◌, ◌≤◌, length, drop, map, slice_get, nat_lt, IfOk, OnSome};
ghost use Rattle.std.specs.Int.{cast_unsigned, w16};
ghost use Rattle.aseba_vm.specs.Rows.{arguments};

use aseba_words::Mem;
use std::alloc::Global;
use std::marker::Model;

/// The values that a machine computes with. The room for them is made once.
#[derive(Drop)]
pub struct Stack {
    room: u16,
    values: Vec<i16>,
}

impl Model for Stack {
    ghost use Rattle.std.specs.Prelude.{◌≤◌, reverse, vec_len, vec_capacity};
    ghost use Rattle.aseba_vm.specs.StackView.{StackView};

    ghost Value = { StackView };

    ghost view = { λ stack. record { room = stack.room; values = reverse stack.values.items } };

    ghost invariant = { λ stack. (vec_len stack.values ≤ stack.room) × (stack.room ≤ vec_capacity stack.values) };
}

impl Stack {
    /// An empty stack with room for so many values.
    pub fn new(alloc: Global, room: u16) -> Result<Stack, Mem>
        ensures { IfOk result (λ stack. stack ≡ record { room = room; values = [] }) }
    {
        let values = Vec::with_capacity(alloc, usize::from(room))?;
        Ok(Stack { room, values })
    }

    /// Whether there is room for another value.
    pub fn has_room(&self) -> bool
        ensures { result ≡ nat_lt (length self.now.values) self.now.room }
    {
        self.values.len() < usize::from(self.room)
    }

    /// Puts a value on top.
    pub fn push(&mut self, value: i16)
        requires { length self.old.values < self.old.room }
        ensures { self.new ≡ record self.old { values = value ∷ self.old.values } }
    {
        match self.values.push(value) {
            Ok(()) => {}
            Err(_) => unreachable!(),
        }
    }

    /// Takes the value on top away, if there is one.
    pub fn pop(&mut self) -> Option<i16>
        ensures value { result ≡ slice_get self.old.values 0 }
        ensures rest { self.new ≡ record self.old { values = drop 1 self.old.values } }
        ensures room { OnSome result (length self.new.values < self.new.room) }
    {
        self.values.pop()
    }

    /// How many values there are.
    pub fn len(&self) -> usize
        ensures { result ≡ length self.now.values }
    {
        self.values.len()
    }

    /// Takes as many values from the top as there are places for them, the lowest into the first.
    #[tactic(auto, using(crate::proofs::Tops::tops))]
    pub fn pop_into(&mut self, places: &mut [u16])
        requires { length places.old ≤ length self.old.values }
        ensures values { places.new ≡ arguments (length places.old) self.old.values }
        ensures rest { self.new ≡ record self.old { values = drop (length places.old) self.old.values } }
    {
        let start = self.values.len() - places.len();
        read_words(&self.values[start..], places);
        self.values.truncate(start);
    }

    /// Takes all values away.
    pub fn clear(&mut self)
        ensures { self.new ≡ record self.old { values = [] } }
    {
        self.values.clear();
    }
}

/// Reads values as words.
fn read_words(values: &[i16], places: &mut [u16])
    requires { length values.now ≡ length places.old }
    ensures { places.new ≡ map (cast_unsigned w16) values.now }
{
    for (place, value) in values.iter().enumerate() {
        places[place] = value.cast_unsigned();
    }
}
