//! Lines, fields, numbers and texts that are read.
use aseba_text::{
    cell, cut, first_field, first_line, is_printable, is_skipped, is_text, number, number_from,
};
use std::test::Fail;

#[test]
fn lines_end_with_a_line_feed_or_a_return_before_it(rt: HostRuntime) {
    for (text, line, behind) in [
        ("a b\nc", "a b", "c"),
        ("a\r\n\n", "a", "\n"),
        ("a\r\r\nb", "a\r", "b"),
        ("\n", "", ""),
        ("last", "last", ""),
        ("last\r", "last\r", ""),
    ] {
        let (first, rest) = first_line(text.as_bytes());
        assert_eq!(rt; first, line.as_bytes(), "{text:?}");
        assert_eq!(rt; rest, behind.as_bytes(), "{text:?}");
    }
}

#[test]
fn empty_lines_and_remarks_say_nothing(rt: HostRuntime) {
    for (line, skipped) in [
        ("", true),
        ("# a", true),
        ("#", true),
        (" #", false),
        ("a", false),
    ] {
        assert_eq!(rt; is_skipped(line.as_bytes()), skipped, "{line:?}");
    }
}

#[test]
fn fields_stand_between_single_blanks(rt: HostRuntime) {
    assert!(rt; cut(b"word") == None);
    assert!(rt; cut(b"set x 1") == Some((b"set".as_slice(), b"x 1".as_slice())));
    assert!(rt; cut(b" x") == Some((b"".as_slice(), b"x".as_slice())));
    assert!(rt; first_field(b"word") == (b"word".as_slice(), None));
    assert!(rt; first_field(b"a ") == (b"a".as_slice(), Some(b"".as_slice())));
    assert!(rt; first_field(b"a  b") == (b"a".as_slice(), Some(b" b".as_slice())));
}

#[test]
fn numbers_have_one_spelling(rt: HostRuntime) {
    for (text, value) in [
        ("0", Some(0)),
        ("7", Some(7)),
        ("100000000", Some(100_000_000)),
        ("9223372036854775807", Some(9_223_372_036_854_775_807)),
        ("18446744073709551615", Some(u64::MAX)),
        ("18446744073709551616", None),
        ("99999999999999999999999", None),
        ("00", None),
        ("007", None),
        ("+7", None),
        ("-7", None),
        ("-0", None),
        ("7 ", None),
        ("1_0", None),
        ("", None),
        ("٣", None),
    ] {
        assert_eq!(rt; number(text.as_bytes()), value, "{text:?}");
    }
    assert!(rt; number(b"\xff") == None);
}

#[test]
fn numbers_keep_to_their_bounds(rt: HostRuntime) {
    assert!(rt; number_from(4, 32767, b"3") == None);
    assert!(rt; number_from(4, 32767, b"4") == Some(4));
    assert!(rt; number_from(4, 32767, b"32767") == Some(32767));
    assert!(rt; number_from(4, 32767, b"32768") == None);
}

#[test]
fn cells_have_a_sign_below_0(rt: HostRuntime) {
    for (text, value) in [
        ("0", Some(0)),
        ("32767", Some(32767)),
        ("-32768", Some(-32768)),
        ("-1", Some(-1)),
        ("32768", None),
        ("-32769", None),
        ("-0", None),
        ("-01", None),
        ("+1", None),
        ("-", None),
        ("--1", None),
        ("", None),
    ] {
        assert_eq!(rt; cell(text.as_bytes()), value, "{text:?}");
    }
}

#[test]
fn texts_are_printable_and_short(rt: HostRuntime) {
    assert!(rt; is_text(b""));
    assert!(rt; is_text(b" ~ a text"));
    assert!(rt; !is_text(b"\t"));
    assert!(rt; !is_text(b"\x7f"));
    assert!(rt; is_text([b'x'; 255].as_slice()));
    assert!(rt; !is_text([b'x'; 256].as_slice()));
    assert!(rt; is_printable([b'x'; 256].as_slice()));
}
