//! What a check knows of an expression, from what it knows of the expressions inside it.
ghost use Rattle.std.specs.Prelude.{◌≡◌};
ghost use Rattle.aseba_check.specs.Told as told;

use crate::fault::{Fault, Rule, fault_if, least};
use crate::sizes::{
    added_size, binary_constant, binary_size, divides, is_more_than_one, is_zero, range_size,
    signed, unary_constant, unary_size,
};
use aseba_tree::Pos;
use aseba_words::{Binary, Unary};

/// What a name means.
#[derive(Clone, Copy, Debug)]
pub enum Meaning {
    /// A variable, with its size where its declaration gives one.
    Variable(Option<u64>),
    Constant(i16),
}

/// What is known of an expression.
#[derive(Clone, Copy, Debug)]
pub struct Facts {
    /// The place of its first token.
    pub first: Pos,
    /// How many cells it has, where that is known.
    pub size: Option<u64>,
    /// Whether it is built of numbers and constants alone.
    pub is_constant: bool,
    /// Its number, where it is constant and has one.
    pub value: Option<i16>,
    /// The first division by zero in it, as far as numbers and constants tell.
    pub division: Option<Fault>,
    /// The first fault in it.
    pub fault: Option<Fault>,
}

pub fn number_facts(first: Pos, value: i16) -> Facts
    ensures { result ≡ told.number_facts first value }
{
    Facts {
        first,
        size: Some(1),
        is_constant: true,
        value: Some(value),
        division: None,
        fault: None,
    }
}

pub fn name_facts(first: Pos, at: Pos, meaning: Option<Meaning>) -> Facts
    ensures { result ≡ told.name_facts first at meaning }
{
    match meaning {
        Some(Meaning::Constant(value)) => number_facts(first, value),
        Some(Meaning::Variable(size)) => computed(first, size, None),
        None => computed(
            first,
            None,
            Some(Fault {
                at,
                rule: Rule::Unknown,
            }),
        ),
    }
}

/// What is known of an expression that is computed when the program runs.
fn computed(first: Pos, size: Option<u64>, fault: Option<Fault>) -> Facts
    ensures { result ≡ told.computed first size fault }
{
    Facts {
        first,
        size,
        is_constant: false,
        value: None,
        division: None,
        fault,
    }
}

pub fn index_facts(first: Pos, at: Pos, meaning: Option<Meaning>, index: &Facts) -> Facts
    ensures { result ≡ told.index_facts first at meaning index.now }
{
    let unknown = unknown_variable(at, meaning);
    let fault = least(least(unknown, index.fault), bad_index(at, meaning, index));
    computed(first, Some(1), fault)
}

pub fn range_facts(first: Pos, at: Pos, meaning: Option<Meaning>, from: &Facts, to: &Facts) -> Facts
    ensures { result ≡ told.range_facts first at meaning from.now to.now }
{
    let unknown = unknown_variable(at, meaning);
    let ends = least(least(unknown, from.fault), to.fault);
    let fault = least(ends, bad_range(at, meaning, from, to));
    computed(first, range_size(from.value, to.value), fault)
}

/// What is known of a list's first expressions and the next one.
pub fn joined(before: Option<Facts>, next: &Facts) -> Facts
    ensures { result ≡ told.joined before next.now }
{
    match before {
        None => *next,
        Some(before) => Facts {
            first: before.first,
            size: added_size(before.size, next.size),
            is_constant: before.is_constant && next.is_constant,
            value: None,
            division: least(before.division, next.division),
            fault: least(before.fault, next.fault),
        },
    }
}

/// What is known of a list, from what is known of its expressions together.
pub fn items_facts(first: Pos, all: Option<Facts>) -> Facts
    ensures { result ≡ told.items_facts first all }
{
    match all {
        Some(all) => Facts { first, ..all },
        None => Facts {
            first,
            size: Some(0),
            is_constant: true,
            value: None,
            division: None,
            fault: None,
        },
    }
}

pub fn one_facts(first: Pos, op: Unary, operand: &Facts) -> Facts
    ensures { result ≡ told.one_facts first op operand.now }
{
    Facts {
        first,
        size: unary_size(op, operand.size),
        is_constant: operand.is_constant,
        value: unary_constant(op, operand.value),
        division: operand.division,
        fault: least(operand.fault, bad_operand(op, operand)),
    }
}

pub fn two_facts(first: Pos, at: Pos, op: Binary, left: &Facts, right: &Facts) -> Facts
    ensures { result ≡ told.two_facts first at op left.now right.now }
{
    let divided = divides(op) && is_zero(right.value);
    let division = fault_if(divided, at, Rule::ConstantDivision);
    let inside = least(left.fault, right.fault);
    Facts {
        first,
        size: binary_size(op, left.size, right.size),
        is_constant: left.is_constant && right.is_constant,
        value: binary_constant(op, left.value, right.value),
        division: least(least(left.division, right.division), division),
        fault: least(inside, bad_operands(at, op, left, right)),
    }
}

/// The fault of a name that has to be a variable's.
pub fn unknown_variable(at: Pos, meaning: Option<Meaning>) -> Option<Fault>
    ensures { result ≡ told.unknown_variable at meaning }
{
    match meaning {
        Some(Meaning::Variable(_)) => None,
        _ => Some(Fault {
            at,
            rule: Rule::Unknown,
        }),
    }
}

/// The size of the variable that a name means.
pub fn variable_size(meaning: Option<Meaning>) -> Option<u64>
    ensures { result ≡ told.variable_size meaning }
{
    match meaning {
        Some(Meaning::Variable(size)) => size,
        _ => None,
    }
}

/// The fault of an expression that needs one cell.
pub fn not_one_cell(facts: &Facts) -> Option<Fault>
    ensures { result ≡ told.not_one_cell facts.now }
{
    fault_if(is_more_than_one(facts.size), facts.first, Rule::NotScalar)
}

/// The fault of an expression where numbers and constants have to give one number.
pub fn constant_place(facts: &Facts) -> Option<Fault>
    ensures { result ≡ told.constant_place facts.now }
{
    let built = if facts.is_constant {
        facts.division
    } else {
        Some(Fault {
            at: facts.first,
            rule: Rule::NotConstant,
        })
    };
    least(built, not_one_cell(facts))
}

fn bad_index(at: Pos, meaning: Option<Meaning>, index: &Facts) -> Option<Fault>
    ensures { result ≡ told.bad_index at meaning index.now }
{
    let division = if index.is_constant {
        index.division
    } else {
        None
    };
    let outside = index_outside(at, variable_size(meaning), index.value);
    least(least(division, not_one_cell(index)), outside)
}

fn bad_range(at: Pos, meaning: Option<Meaning>, from: &Facts, to: &Facts) -> Option<Fault>
    ensures { result ≡ told.bad_range at meaning from.now to.now }
{
    let size = variable_size(meaning);
    let ends = least(constant_place(from), constant_place(to));
    let outside = least(ends, index_outside(at, size, from.value));
    let outside = least(outside, index_outside(at, size, to.value));
    least(outside, backwards(at, size, from.value, to.value))
}

fn index_outside(at: Pos, size: Option<u64>, index: Option<i16>) -> Option<Fault>
    ensures { result ≡ told.index_outside at size index }
{
    match (size, index) {
        (Some(size), Some(index)) => {
            let size = signed(size);
            let index = i64::from(index);
            fault_if(
                index < 0 || !(index < size),
                at,
                Rule::IndexOut { size, index },
            )
        }
        _ => None,
    }
}

fn backwards(at: Pos, size: Option<u64>, from: Option<i16>, to: Option<i16>) -> Option<Fault>
    ensures { result ≡ told.backwards at size from to }
{
    match (size, from, to) {
        (Some(size), Some(from), Some(to)) => {
            let size = signed(size);
            let index = i64::from(to);
            fault_if(to < from, at, Rule::IndexOut { size, index })
        }
        _ => None,
    }
}

fn bad_operand(op: Unary, operand: &Facts) -> Option<Fault>
    ensures { result ≡ told.bad_operand op operand.now }
{
    match op {
        Unary::Not => not_one_cell(operand),
        _ => None,
    }
}

fn bad_operands(at: Pos, op: Binary, left: &Facts, right: &Facts) -> Option<Fault>
    ensures { result ≡ told.bad_operands at op left.now right.now }
{
    if op.is_of_one_cell() {
        least(not_one_cell(left), not_one_cell(right))
    } else {
        bad_size(at, left.size, right.size)
    }
}

/// The fault of two sizes that differ.
pub fn bad_size(at: Pos, want: Option<u64>, got: Option<u64>) -> Option<Fault>
    ensures { result ≡ told.bad_size at want got }
{
    match (want, got) {
        (Some(want), Some(got)) => fault_if(
            want != got,
            at,
            Rule::BadSize {
                want: signed(want),
                got: signed(got),
            },
        ),
        _ => None,
    }
}

/// The fault of the cells of an `emit` that are not as many as its event's.
pub fn event_size(at: Pos, want: Option<u64>, got: Option<u64>) -> Option<Fault>
    ensures { result ≡ told.event_size at want got }
{
    match (want, got) {
        (Some(want), Some(got)) => fault_if(
            want != got,
            at,
            Rule::EventSize {
                want: signed(want),
                got: signed(got),
            },
        ),
        _ => None,
    }
}

/// What is known of a target that is a name alone.
pub fn target_facts(at: Pos, meaning: Option<Meaning>) -> Facts
    ensures { result ≡ told.target_facts at meaning }
{
    computed(at, variable_size(meaning), unknown_variable(at, meaning))
}
