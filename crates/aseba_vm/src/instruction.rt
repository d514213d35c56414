//! The words of the instructions. What is above the low bits that a word has for a number is cut
//! off.

ghost use Rattle.std.specs.Prelude.{◌≡◌, ◌||◌, false, int_lt, negsuc, pos};
ghost use Rattle.aseba_vm.specs.Words as spec;
ghost use Rattle.aseba_vm.specs.declared.opcode.Opcode.TheVariants.{Jump};

use crate::opcode::Opcode;
use aseba_words::{Binary, Unary};

/// Ends the init code or a handler.
pub fn end() -> u16
    ensures { result ≡ spec.end_word }
{
    Opcode::End.word(0)
}

/// Ends a subroutine.
pub fn sub_return() -> u16
    ensures { result ≡ spec.sub_return_word }
{
    Opcode::SubReturn.word(0)
}

/// Pushes a number from -2048 to 2047.
pub fn small_number(value: i16) -> u16
    requires { (int_lt value (negsuc 2047) || int_lt (pos 2047) value) ≡ false }
    ensures { result ≡ spec.small_number_word value }
{
    let low = if value < 0 {
        (4096 + value) as u16
    } else {
        value as u16
    };
    Opcode::SmallNumber.word(low)
}

/// Pushes the number that is the next word.
pub fn large_number() -> u16
    ensures { result ≡ spec.large_number_word }
{
    Opcode::LargeNumber.word(0)
}

/// Pushes the cell at an address.
pub fn load(address: u16) -> u16
    ensures { result ≡ spec.load_word address }
{
    Opcode::Load.word(address)
}

/// Pops an index and pushes the cell there, in a range whose size is the next word.
pub fn load_indirect(base: u16) -> u16
    ensures { result ≡ spec.load_indirect_word base }
{
    Opcode::LoadIndirect.word(base)
}

/// Pops a value into the cell at an address.
pub fn store(address: u16) -> u16
    ensures { result ≡ spec.store_word address }
{
    Opcode::Store.word(address)
}

/// Pops an index, and a value into the cell there, in a range whose size is the next word.
pub fn store_indirect(base: u16) -> u16
    ensures { result ≡ spec.store_indirect_word base }
{
    Opcode::StoreIndirect.word(base)
}

/// Computes with the topmost value.
pub fn unary(operator: Unary) -> u16
    ensures { result ≡ spec.unary_word operator }
{
    Opcode::UnaryOperator.word(operator.code())
}

/// Computes with the two topmost values.
pub fn binary(operator: Binary) -> u16
    ensures { result ≡ spec.binary_word operator }
{
    Opcode::BinaryOperator.word(operator.code())
}

/// Jumps by a displacement in twelve bits.
pub fn jump(low: u16) -> u16
    ensures { result ≡ spec.word_of Jump low }
{
    Opcode::Jump.word(low)
}

/// Goes on behind itself where two values that are popped compare so, and else so many words from
/// here as the next word says. With `is_edge` it goes on only where they have come to compare so.
pub fn branch(operator: Binary, is_edge: bool) -> u16
    ensures { result ≡ spec.branch_word operator is_edge }
{
    let bit: u16 = if is_edge { 256 } else { 0 };
    Opcode::Branch.word(operator.code() + bit)
}

/// Sends an event with the cells that the next two words name by address and length.
pub fn emit(event: u16) -> u16
    ensures { result ≡ spec.emit_word event }
{
    Opcode::Emit.word(event)
}

/// Calls a native with its arguments from the stack.
pub fn native(id: u16) -> u16
    ensures { result ≡ spec.native_word id }
{
    Opcode::NativeCall.word(id)
}

/// Calls the subroutine at an address.
pub fn sub_call(address: u16) -> u16
    ensures { result ≡ spec.sub_call_word address }
{
    Opcode::SubCall.word(address)
}
