ghost use Rattle.std.specs.Prelude.{◌≡◌};
ghost use Rattle.aseba_words.specs.Cell.{is_of_one_cell};
ghost use Rattle.aseba_words.specs.Codes.{unary_code, binary_code, unary_coded, binary_coded};

/// An operator of one cell.
#[derive(Clone, Copy, Debug, PartialEq, Eq)]
pub enum Unary {
    Minus,
    Abs,
    BitNot,
    Not,
}

impl Unary {
    /// The operator's number in an instruction word, 0 to 3 in the order of the variants.
    pub fn code(self) -> u16
        ensures { result ≡ unary_code self }
    {
        self as u16
    }

    /// The operator of a number, if there is one.
    pub fn from_code(code: u16) -> Option<Unary>
        ensures { result ≡ unary_coded code }
    {
        match code {
            0 => Some(Unary::Minus),
            1 => Some(Unary::Abs),
            2 => Some(Unary::BitNot),
            3 => Some(Unary::Not),
            _ => None,
        }
    }
}

/// An operator of two cells.
#[derive(Clone, Copy, Debug, PartialEq, Eq)]
pub enum Binary {
    Shl,
    Shr,
    Add,
    Sub,
    Mul,
    Div,
    Rem,
    BitOr,
    BitXor,
    BitAnd,
    Equal,
    Differ,
    Above,
    AtLeast,
    Below,
    AtMost,
    Or,
    And,
}

impl Binary {
    /// Whether both operands have one cell, and so the value: comparisons, `and` and `or`. The other
    /// operators work cell by cell.
    pub fn is_of_one_cell(self) -> bool
        ensures { result ≡ is_of_one_cell self }
    {
        match self {
            Binary::Equal
            | Binary::Differ
            | Binary::Above
            | Binary::AtLeast
            | Binary::Below
            | Binary::AtMost
            | Binary::Or
            | Binary::And => true,
            _ => false,
        }
    }

    /// The operator's number in an instruction word, 0 to 17 in the order of the variants.
    pub fn code(self) -> u16
        ensures { result ≡ binary_code self }
    {
        self as u16
    }

    /// The operator of a number, if there is one.
    pub fn from_code(code: u16) -> Option<Binary>
        ensures { result ≡ binary_coded code }
    {
        match code {
            0 => Some(Binary::Shl),
            1 => Some(Binary::Shr),
            2 => Some(Binary::Add),
            3 => Some(Binary::Sub),
            4 => Some(Binary::Mul),
            5 => Some(Binary::Div),
            6 => Some(Binary::Rem),
            7 => Some(Binary::BitOr),
            8 => Some(Binary::BitXor),
            9 => Some(Binary::BitAnd),
            10 => Some(Binary::Equal),
            11 => Some(Binary::Differ),
            12 => Some(Binary::Above),
            13 => Some(Binary::AtLeast),
            14 => Some(Binary::Below),
            15 => Some(Binary::AtMost),
            16 => Some(Binary::Or),
            17 => Some(Binary::And),
            _ => None,
        }
    }
}
