//! Cells, lists and names.
use aseba_words::{Binary, List, Mem, Name, Unary, binary, unary, wrap};
use std::test::Fail;

#[test]
fn wrapping_keeps_the_low_bits(rt: HostRuntime) {
    for (value, cell) in [
        (32767, 32767),
        (32768, -32768),
        (65536 + 5, 5),
        (-32769, 32767),
        (i64::MIN, 0),
        (i64::MAX, -1),
    ] {
        assert_eq!(rt; wrap(value), cell, "{value}");
    }
}

#[test]
fn one_cell(rt: HostRuntime) {
    for (op, a, value) in [
        (Unary::Minus, 5, -5),
        (Unary::Minus, -32768, -32768),
        (Unary::Abs, -7, 7),
        (Unary::Abs, -32768, -32768),
        (Unary::BitNot, 0, -1),
        (Unary::BitNot, 32767, -32768),
        (Unary::Not, 0, 1),
        (Unary::Not, -3, 0),
    ] {
        assert_eq!(rt; unary(op, a), value, "{op:?} {a}");
    }
}

#[test]
fn two_cells_by_arithmetic(rt: HostRuntime) {
    for (op, a, b, value) in [
        (Binary::Shl, 1, 3, Some(8)),
        (Binary::Shl, 1, 15, Some(-32768)),
        (Binary::Shl, 3, 17, Some(6)),
        (Binary::Shl, 1, -1, Some(-32768)),
        (Binary::Shr, -5, 1, Some(-3)),
        (Binary::Shr, -1, 31, Some(-1)),
        (Binary::Add, 32767, 1, Some(-32768)),
        (Binary::Sub, -32768, 1, Some(32767)),
        (Binary::Mul, 256, 256, Some(0)),
        (Binary::Mul, -300, 300, Some(-24464)),
        (Binary::Div, -7, 2, Some(-3)),
        (Binary::Div, -32768, -1, Some(-32768)),
        (Binary::Div, 1, 0, None),
        (Binary::Rem, -7, 2, Some(-1)),
        (Binary::Rem, 7, -2, Some(1)),
        (Binary::Rem, -32768, -1, Some(0)),
        (Binary::Rem, 0, 0, None),
    ] {
        assert_eq!(rt; binary(op, a, b), value, "{op:?} {a} {b}");
    }
}

#[test]
fn two_cells_by_bits_and_tests(rt: HostRuntime) {
    for (op, a, b, value) in [
        (Binary::BitOr, 5, -8, -3),
        (Binary::BitXor, 5, -8, -3),
        (Binary::BitAnd, 13, -8, 8),
        (Binary::Equal, 4, 4, 1),
        (Binary::Differ, 4, 4, 0),
        (Binary::Above, -1, -2, 1),
        (Binary::AtLeast, -2, -2, 1),
        (Binary::Below, -2, -2, 0),
        (Binary::AtMost, 3, -3, 0),
        (Binary::Or, 0, -4, 1),
        (Binary::Or, 0, 0, 0),
        (Binary::And, 2, -4, 1),
        (Binary::And, 2, 0, 0),
    ] {
        assert_eq!(rt; binary(op, a, b), Some(value), "{op:?} {a} {b}");
    }
}

#[test]
fn operators_have_their_numbers(rt: HostRuntime) {
    assert_eq!(rt; Unary::Not.code(), 3);
    assert_eq!(rt; Unary::from_code(1), Some(Unary::Abs));
    assert_eq!(rt; Unary::from_code(4), None);
    assert_eq!(rt; Binary::And.code(), 17);
    assert_eq!(rt; Binary::from_code(15), Some(Binary::AtMost));
    assert_eq!(rt; Binary::from_code(18), None);
}

#[derive(Drop)]
struct Branch {
    leaves: u8,
    branches: List<Branch>,
}

/// What threads may be given.
fn goes_to_a_thread<T: Send + Sync>(_value: &T) {}

#[test]
fn a_list_keeps_what_was_pushed(rt: HostRuntime) -> Result<(), Fail> {
    let mut list = List::from_slice(rt.alloc(), &[1u16, 2])?;
    assert!(rt; list.push(3).is_ok());
    list.add(4)?;
    assert_eq!(rt; list.as_slice(), [1, 2, 3, 4].as_slice());
    goes_to_a_thread(&list);
    let vector = list.into_vec();
    assert_eq!(rt; List::from_vec(vector).as_slice().len(), 4);
    Ok(())
}

#[test]
fn a_list_may_hold_the_type_that_holds_it(rt: HostRuntime) {
    let leaf = Branch {
        leaves: 4,
        branches: List::new(rt.alloc()),
    };
    let mut branches = List::new(rt.alloc());
    assert!(rt; branches.push(leaf).is_ok());
    let tree = Branch {
        leaves: 1,
        branches,
    };
    let total: u8 = tree
        .branches
        .as_slice()
        .iter()
        .map(|branch| branch.leaves % 8)
        .fold(tree.leaves % 8, |a, b| a.wrapping_add(b));
    assert_eq!(rt; total, 5);
    goes_to_a_thread(&tree);
}

#[test]
fn a_name_is_its_bytes(rt: HostRuntime) -> Result<(), Mem> {
    let name = Name::new(rt.alloc(), b"event.args")?;
    assert_eq!(rt; name.as_bytes(), b"event.args".as_slice());
    let copy = name.copy(rt.alloc())?;
    assert!(rt; copy == name);
    assert!(rt; Name::new(rt.alloc(), b"event.arg")? != name);
    goes_to_a_thread(&name);
    Ok(())
}

#[test]
fn names_of_any_length(rt: HostRuntime) -> Result<(), Mem> {
    let text = b"a.name.that.is.longer.than.the.room";
    for len in [0, 1, 22, 23, 24, text.len()] {
        let name = Name::new(rt.alloc(), &text[..len])?;
        assert_eq!(rt; name.as_bytes(), &text[..len]);
        assert!(rt; name.copy(rt.alloc())? == name);
    }
    Ok(())
}
