//! Texts that are put together from bytes and numbers.

ghost use Rattle.std.specs.Prelude.{◌≡◌, ◌<◌, [], ◌++◌, false, codes, decimal, flat_map, OnOk, OnErr};
ghost use Rattle.std.specs.Fmt.{signed_decimal, digit_glyph};
ghost use Rattle.hex.specs.Hex.{encode_lower};
ghost use Rattle.aseba_words.specs.Spelled.{blank_cells, word_text};

use aseba_words::{List, Mem};
use itoa::Buffer;
use std::alloc::Global;
use std::marker::Model;

/// A text under construction.
#[derive(Drop)]
pub struct Text {
    bytes: Vec<u8>,
}

impl Model for Text {
    ghost use Rattle.std.specs.Prelude.{List, ℕ};

    ghost Value = { List ℕ };

    ghost view = { λ text. text.bytes.items };
}

impl Text {
    /// An empty text. It takes no memory.
    pub fn new(alloc: Global) -> Text
        ensures { result ≡ [] }
    {
        Text {
            bytes: Vec::new(alloc),
        }
    }

    /// The bytes so far.
    pub fn as_bytes(&self) -> &[u8]
        ensures { result.now ≡ self.now }
    {
        self.bytes.as_slice()
    }

    /// The bytes as a list. It takes no memory.
    pub fn into_bytes(self) -> List<u8>
        ensures { result ≡ self }
    {
        List::from_vec(self.bytes)
    }

    /// Takes all bytes away.
    pub fn clear(&mut self)
        ensures { self.new ≡ [] }
    {
        self.bytes.clear();
    }

    /// Adds bytes.
    pub fn push(&mut self, bytes: &[u8]) -> Result<(), Mem>
        ensures ok { OnOk result (self.new ≡ self.old ++ bytes.now) }
        ensures unchanged { OnErr result (self.new ≡ self.old) }
    {
        self.bytes.extend_from_slice(bytes)?;
        Ok(())
    }

    /// Adds a number in decimal digits.
    pub fn push_number(&mut self, number: u64) -> Result<(), Mem>
        ensures ok { OnOk result (self.new ≡ self.old ++ decimal number) }
        ensures unchanged { OnErr result (self.new ≡ self.old) }
    {
        let mut buffer = Buffer::new();
        self.push(buffer.format(number).as_bytes())
    }

    /// Adds a cell in decimal digits, with its sign where it is below 0.
    pub fn push_cell(&mut self, cell: i16) -> Result<(), Mem>
        ensures ok { OnOk result (self.new ≡ self.old ++ signed_decimal cell) }
        ensures unchanged { OnErr result (self.new ≡ self.old) }
    {
        let mut buffer = Buffer::new();
        self.push(buffer.format(cell).as_bytes())
    }

    /// Adds cells, each behind a blank.
    pub fn push_cells(&mut self, cells: &[i16]) -> Result<(), Mem>
        ensures { OnOk result (self.new ≡ self.old ++ blank_cells cells.now) }
    {
        for cell in cells {
            self.push(b" ")?;
            self.push_cell(*cell)?;
        }
        Ok(())
    }

    /// Adds bytes, each as two hexadecimal digits.
    pub fn push_bytes(&mut self, alloc: Global, bytes: &[u8]) -> Result<(), Mem>
        ensures ok { OnOk result (self.new ≡ self.old ++ encode_lower bytes.now) }
        ensures unchanged { OnErr result (self.new ≡ self.old) }
    {
        let digits = hex::encode(alloc, bytes)?;
        self.push(digits.as_bytes())
    }

    /// Adds words, each behind a blank.
    pub fn push_words(&mut self, words: &[u16]) -> Result<(), Mem>
        ensures { OnOk result (self.new ≡ self.old ++ flat_map (λ word. codes " " ++ word_text word) words.now) }
    {
        for word in words {
            self.push(b" ")?;
            self.push_word(*word)?;
        }
        Ok(())
    }

    /// Adds a word as four hexadecimal digits.
    pub fn push_word(&mut self, word: u16) -> Result<(), Mem>
        ensures ok { OnOk result (self.new ≡ self.old ++ word_text word) }
        ensures unchanged { OnErr result (self.new ≡ self.old) }
    {
        let digits = [
            hex_digit(word / 4096),
            hex_digit(word / 256 % 16),
            hex_digit(word / 16 % 16),
            hex_digit(word % 16),
        ];
        self.push(&digits)
    }
}

/// The lower case hexadecimal digit of a number below 16.
fn hex_digit(number: u16) -> u8
    requires { number < 16 }
    ensures { result ≡ digit_glyph false number }
{
    if number < 10 {
        b'0' + number as u8
    } else {
        b'a' + (number as u8 - 10)
    }
}
