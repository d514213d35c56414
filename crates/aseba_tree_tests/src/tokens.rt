//! Texts and their tokens, worked by hand.
use aseba_lexer::{LexError, end_of, lex};
use aseba_tree::{Pos, Token, TokenKind};
use aseba_words::List;
use std::alloc::{AllocError, Global};
use std::test::Fail;

/// A token as a line of a table: its place and what it is.
fn shown(alloc: Global, token: &Token) -> Result<String, AllocError> {
    let line = token.at.line;
    let col = token.at.col;
    match &token.kind {
        TokenKind::Name(name) => {
            let bytes = name.as_bytes();
            format!(in alloc; "{line}:{col} name {bytes:?} ")
        }
        TokenKind::Number(value) => format!(in alloc; "{line}:{col} {value} "),
        TokenKind::Key(key) => format!(in alloc; "{line}:{col} {key:?} "),
        TokenKind::Sign(sign) => format!(in alloc; "{line}:{col} {sign:?} "),
    }
}

fn listed(alloc: Global, tokens: &List<Token>) -> Result<String, AllocError> {
    let mut text = String::new(alloc);
    for token in tokens.as_slice() {
        text.push_str(shown(alloc, token)?.as_str())?;
    }
    Ok(text)
}

/// The tokens of a text on one line, or its error.
fn read(alloc: Global, text: &[u8]) -> Result<String, AllocError> {
    if text.len() >= 1000 {
        return String::from_str(alloc, "long");
    }
    match lex(alloc, text) {
        Ok(tokens) => listed(alloc, &tokens),
        Err(error) => format!(in alloc; "{error:?}"),
    }
}

#[test]
fn symbols_that_could_join(rt: HostRuntime) -> Result<(), Fail> {
    let rows = [
        ("<<=", "1:1 ShiftLeftAssign "),
        ("<< =", "1:1 ShiftLeft 1:4 Assign "),
        ("<=<", "1:1 LessEqual 1:3 Less "),
        ("<<<", "1:1 ShiftLeft 1:3 Less "),
        (
            ">>=>=>",
            "1:1 ShiftRightAssign 1:4 GreaterEqual 1:6 Greater ",
        ),
        ("+++=", "1:1 PlusPlus 1:3 PlusAssign "),
        ("---=", "1:1 MinusMinus 1:3 MinusAssign "),
        ("===", "1:1 EqualEqual 1:3 Assign "),
        ("!==", "1:1 NotEqual 1:3 Assign "),
        (
            "*=/=%=",
            "1:1 StarAssign 1:3 SlashAssign 1:5 PercentAssign ",
        ),
        (
            "&=|=^=~",
            "1:1 AmpersandAssign 1:3 BarAssign 1:5 CaretAssign 1:7 Tilde ",
        ),
        (
            "([,:])",
            "1:1 OpenParen 1:2 OpenBracket 1:3 Comma 1:4 Colon 1:5 CloseBracket 1:6 CloseParen ",
        ),
    ];
    for (text, want) in rows {
        let got = read(rt.alloc(), text.as_bytes())?;
        assert_eq!(rt; got.as_str(), want, "{text}");
    }
    Ok(())
}

#[test]
fn numbers_at_the_edges(rt: HostRuntime) -> Result<(), Fail> {
    let bad = "BadNumber { at: Pos { line: 1, col: 1 } }";
    let rows = [
        ("32767", "1:1 32767 "),
        ("32768", bad),
        ("65536", bad),
        ("007", "1:1 7 "),
        ("0", "1:1 0 "),
        ("0x", bad),
        ("0xFFFF", "1:1 -1 "),
        ("0x8000", "1:1 -32768 "),
        ("0x0000aBc", "1:1 2748 "),
        ("0x10000", bad),
        ("0X1", bad),
        ("0b", bad),
        ("0b101", "1:1 5 "),
        ("0b2", bad),
        ("0b1111111111111111", "1:1 -1 "),
        ("0b10000000000000000", bad),
        ("1_000", bad),
        ("12ab", bad),
        ("1.5", bad),
    ];
    for (text, want) in rows {
        let got = read(rt.alloc(), text.as_bytes())?;
        assert_eq!(rt; got.as_str(), want, "{text}");
    }
    Ok(())
}

#[test]
fn words(rt: HostRuntime) -> Result<(), Fail> {
    let rows = [
        ("ab", "1:1 name [97, 98] "),
        ("a.1_", "1:1 name [97, 46, 49, 95] "),
        ("_a", "1:1 name [95, 97] "),
        ("varx", "1:1 name [118, 97, 114, 120] "),
        ("If", "1:1 name [73, 102] "),
        ("var onevent sub", "1:1 Var 1:5 OnEvent 1:13 Sub "),
        (
            "if then elseif else end",
            "1:1 If 1:4 Then 1:9 ElseIf 1:16 Else 1:21 End ",
        ),
        (
            "when do while for in step",
            "1:1 When 1:6 Do 1:9 While 1:15 For 1:19 In 1:22 Step ",
        ),
        (
            "emit callsub call return",
            "1:1 Emit 1:6 CallSub 1:14 Call 1:19 Return ",
        ),
        ("and or not abs", "1:1 And 1:5 Or 1:8 Not 1:12 Abs "),
    ];
    for (text, want) in rows {
        let got = read(rt.alloc(), text.as_bytes())?;
        assert_eq!(rt; got.as_str(), want, "{text}");
    }
    Ok(())
}

#[test]
fn comments(rt: HostRuntime) -> Result<(), Fail> {
    let rows = [
        ("# all of it", ""),
        ("#", ""),
        ("1# a\n2", "1:1 1 2:1 2 "),
        ("#* a\n*#1", "2:3 1 "),
        ("#**#1", "1:5 1 "),
        ("#*#1", "OpenComment { at: Pos { line: 1, col: 1 } }"),
        ("1 #* a", "OpenComment { at: Pos { line: 1, col: 3 } }"),
        ("#*#*#1", "1:6 1 "),
    ];
    for (text, want) in rows {
        let got = read(rt.alloc(), text.as_bytes())?;
        assert_eq!(rt; got.as_str(), want, "{text}");
    }
    Ok(())
}

#[test]
fn bytes_that_begin_nothing(rt: HostRuntime) -> Result<(), Fail> {
    let alloc = rt.alloc();
    let first = "BadByte { at: Pos { line: 1, col: 1 } }";
    assert_eq!(rt; read(alloc, b"!".as_slice())?.as_str(), first);
    assert_eq!(rt; read(alloc, b".a".as_slice())?.as_str(), first);
    assert_eq!(rt; read(alloc, [0].as_slice())?.as_str(), first);
    assert_eq!(rt; read(alloc, [255].as_slice())?.as_str(), first);
    assert_eq!(rt; read(alloc, [35, 255].as_slice())?.as_str(), "");
    assert_eq!(rt;
        read(alloc, b"a\n\t@".as_slice())?.as_str(),
        "BadByte { at: Pos { line: 2, col: 2 } }"
    );
    Ok(())
}

#[test]
fn places(rt: HostRuntime) -> Result<(), Fail> {
    let rows = [
        ("\t1", "1:2 1 "),
        ("1\r\n2", "1:1 1 2:1 2 "),
        ("\r1", "1:2 1 "),
        ("\n\n 1", "3:2 1 "),
        ("", ""),
    ];
    for (text, want) in rows {
        let got = read(rt.alloc(), text.as_bytes())?;
        assert_eq!(rt; got.as_str(), want, "{text}");
    }
    assert_eq!(rt; end_of(b"".as_slice()), Pos { line: 1, col: 1 });
    assert_eq!(rt; end_of(b"ab".as_slice()), Pos { line: 1, col: 3 });
    assert_eq!(rt; end_of(b"ab\n".as_slice()), Pos { line: 2, col: 1 });
    assert_eq!(rt; end_of(b"\r\n\tc".as_slice()), Pos { line: 2, col: 3 });
    Ok(())
}

#[test]
fn errors_as_text(rt: HostRuntime) -> Result<(), Fail> {
    let alloc = rt.alloc();
    let at = Pos { line: 3, col: 7 };
    let error = LexError::BadNumber { at };
    let text = format!(in alloc; "{error}")?;
    assert_eq!(rt; text.as_str(), "3:7: this is no number");

    Ok(())
}
