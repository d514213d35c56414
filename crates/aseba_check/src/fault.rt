ghost use Rattle.std.specs.Prelude.{◌≡◌};
ghost use Rattle.aseba_tree.specs.Faults as faults;
ghost use Rattle.aseba_check.specs.Told as told;

use aseba_tree::Pos;

/// A rule of the language that a source may break.
#[derive(Clone, Copy, Debug)]
pub enum Rule {
    Unknown,
    Duplicate,
    NotConstant,
    ConstantDivision,
    ZeroStep,
    BadSize { want: i64, got: i64 },
    IndexOut { size: i64, index: i64 },
    NotScalar,
    EventSize { want: i64, got: i64 },
    ArgCount { want: i64, got: i64 },
    Recursion,
}

/// A place with the rule that is broken there.
#[derive(Clone, Copy, Debug)]
pub struct Fault {
    pub at: Pos,
    pub rule: Rule,
}

impl Rule {
    /// Its number in the order in which faults at one place are told.
    fn number(self) -> u8
        ensures { result ≡ faults.rule_number (told.rule_view self) }
    {
        match self {
            Rule::Unknown => 0,
            Rule::Duplicate => 1,
            Rule::NotConstant => 2,
            Rule::ConstantDivision => 3,
            Rule::ZeroStep => 4,
            Rule::BadSize { .. } => 5,
            Rule::IndexOut { .. } => 6,
            Rule::NotScalar => 7,
            Rule::EventSize { .. } => 8,
            Rule::ArgCount { .. } => 9,
            Rule::Recursion => 10,
        }
    }
}

impl Fault {
    /// Whether it stands before another one, or comes before it at the same place.
    fn comes_before(self, other: Fault) -> bool
        ensures { result ≡ told.comes_before self other }
    {
        self.at.line < other.at.line
            || self.at.line == other.at.line
                && (self.at.col < other.at.col
                    || self.at.col == other.at.col && self.rule.number() < other.rule.number())
    }

    /// Whether it is told where this one is known.
    pub fn may_be_told(self, known: Option<Fault>) -> bool
        ensures { result ≡ told.may_be_told self known }
    {
        match known {
            None => true,
            Some(known) => self.comes_before(known),
        }
    }

    fn or_earlier(self, other: Option<Fault>) -> Fault
        ensures { result ≡ told.earlier self other }
    {
        match other {
            None => self,
            Some(other) => {
                if other.comes_before(self) {
                    other
                } else {
                    self
                }
            }
        }
    }
}

/// The one of two faults that is told.
pub fn least(first: Option<Fault>, second: Option<Fault>) -> Option<Fault>
    ensures { result ≡ told.least first second }
{
    match first {
        None => second,
        Some(fault) => Some(fault.or_earlier(second)),
    }
}

/// A fault where a rule is broken.
pub fn fault_if(is_broken: bool, at: Pos, rule: Rule) -> Option<Fault>
    ensures { result ≡ told.fault_if is_broken at rule }
{
    if is_broken {
        Some(Fault { at, rule })
    } else {
        None
    }
}
