ghost use Rattle.std.specs.Prelude.{◌≡◌};
ghost use Rattle.aseba_words.specs.Natives.{native_numbered, sizes};

/// The size of a parameter that has as many cells as the call's length says.
pub const TEMPLATE: i16 = -1;

/// A native function that every node has, in the order of their numbers.
#[derive(Clone, Copy, Debug, PartialEq, Eq)]
pub enum Native {
    Copy,
    Fill,
    AddScalar,
    Add,
    Sub,
    Mul,
    Div,
    Min,
    Max,
    Clamp,
    Dot,
    MulDiv,
    Stat,
    ArgBounds,
}

impl Native {
    /// The native of a number, if there is one.
    pub fn numbered(number: u16) -> Option<Native>
        ensures { result ≡ native_numbered number }
    {
        match number {
            0 => Some(Native::Copy),
            1 => Some(Native::Fill),
            2 => Some(Native::AddScalar),
            3 => Some(Native::Add),
            4 => Some(Native::Sub),
            5 => Some(Native::Mul),
            6 => Some(Native::Div),
            7 => Some(Native::Min),
            8 => Some(Native::Max),
            9 => Some(Native::Clamp),
            10 => Some(Native::Dot),
            11 => Some(Native::MulDiv),
            12 => Some(Native::Stat),
            13 => Some(Native::ArgBounds),
            _ => None,
        }
    }

    /// The sizes of its parameters in order, each 1 or `TEMPLATE`.
    pub fn sizes(self) -> &'static [i16]
        ensures { result.now ≡ sizes self }
    {
        match self {
            Native::Copy => &[TEMPLATE, TEMPLATE],
            Native::Fill => &[TEMPLATE, 1],
            Native::AddScalar => &[TEMPLATE, TEMPLATE, 1],
            Native::Add | Native::Sub | Native::Mul | Native::Div | Native::Min | Native::Max => {
                &[TEMPLATE, TEMPLATE, TEMPLATE]
            }
            Native::Clamp | Native::MulDiv => &[TEMPLATE, TEMPLATE, TEMPLATE, TEMPLATE],
            Native::Dot => &[1, TEMPLATE, TEMPLATE, 1],
            Native::Stat => &[TEMPLATE, 1, 1, 1],
            Native::ArgBounds => &[TEMPLATE, 1, 1],
        }
    }
}
