ghost use Rattle.std.specs.Prelude.{◌≡◌, ◌<◌};
ghost use Rattle.aseba_vm.specs.Instructions.{opcode_of, operand_of, signed_operand_of, unary_operator_of, binary_operator_of, branch_operator_of, is_when, was_true, remembering};
ghost use Rattle.aseba_vm.specs.Words.{opcode_number, word_of};

use aseba_words::{Binary, Unary};

/// What an instruction word asks for, by its high four bits, in their order.
#[derive(Clone, Copy, Debug, PartialEq, Eq)]
pub enum Opcode {
    End,
    SmallNumber,
    LargeNumber,
    Load,
    Store,
    LoadIndirect,
    StoreIndirect,
    UnaryOperator,
    BinaryOperator,
    Jump,
    Branch,
    Emit,
    NativeCall,
    SubCall,
    SubReturn,
    NoInstruction,
}

impl Opcode {
    /// The instruction that a word is.
    pub fn of_word(word: u16) -> Opcode
        ensures { result ≡ opcode_of word }
    {
        match word / 4096 {
            0 => Opcode::End,
            1 => Opcode::SmallNumber,
            2 => Opcode::LargeNumber,
            3 => Opcode::Load,
            4 => Opcode::Store,
            5 => Opcode::LoadIndirect,
            6 => Opcode::StoreIndirect,
            7 => Opcode::UnaryOperator,
            8 => Opcode::BinaryOperator,
            9 => Opcode::Jump,
            10 => Opcode::Branch,
            11 => Opcode::Emit,
            12 => Opcode::NativeCall,
            13 => Opcode::SubCall,
            14 => Opcode::SubReturn,
            _ => Opcode::NoInstruction,
        }
    }

    /// The number of the instruction, 0 to 15 in the order of the variants.
    fn number(self) -> u16
        ensures number { result ≡ opcode_number self }
        ensures few { result < 16 }
    {
        self as u16
    }

    /// The word of the instruction with these low twelve bits; what is above them is cut off.
    pub fn word(self, low: u16) -> u16
        ensures { result ≡ word_of self low }
    {
        self.number() * 4096 + low % 4096
    }
}

/// The low twelve bits of a word.
pub fn operand(word: u16) -> u16
    ensures { result ≡ operand_of word }
{
    word % 4096
}

/// The low twelve bits of a word as a signed number.
pub fn signed_operand(word: u16) -> i16
    ensures { result ≡ signed_operand_of word }
{
    let low = (word % 4096) as i16;
    if low < 2048 { low } else { low - 4096 }
}

/// The operator of a word that computes with one value, if its low twelve bits are one's number.
pub fn unary_operator(word: u16) -> Option<Unary>
    ensures { result ≡ unary_operator_of word }
{
    Unary::from_code(operand(word))
}

/// The operator of a word that computes with two values, if its low twelve bits are one's number.
pub fn binary_operator(word: u16) -> Option<Binary>
    ensures { result ≡ binary_operator_of word }
{
    Binary::from_code(operand(word))
}

/// The operator of a branch, if its low eight bits are one's number.
pub fn branch_operator(word: u16) -> Option<Binary>
    ensures { result ≡ branch_operator_of word }
{
    Binary::from_code(word % 256)
}

/// Whether a branch goes into its body only where its condition has become true: bit 8.
pub fn is_when(word: u16) -> bool
    ensures { result ≡ is_when word }
{
    word / 256 % 2 == 1
}

/// Whether a branch's condition was true when it was last tested: bit 9.
pub fn was_true(word: u16) -> bool
    ensures { result ≡ was_true word }
{
    word / 512 % 2 == 1
}

/// A branch with this truth in bit 9.
pub fn remembering(truth: bool, word: u16) -> u16
    ensures { result ≡ remembering truth word }
{
    let forgotten = word - word / 512 % 2 * 512;
    if truth { forgotten + 512 } else { forgotten }
}
