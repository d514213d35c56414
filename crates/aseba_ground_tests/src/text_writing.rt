//! Texts that are put together.
use aseba_text::Text;
use std::test::Fail;

#[test]
fn a_line_of_each_kind_of_field(rt: HostRuntime) -> Result<(), Fail> {
    let mut text = Text::new(rt.alloc());
    text.push(b"0 ")?;
    text.push_number(u64::MAX)?;
    text.push(b" ")?;
    text.push_cell(-32768)?;
    text.push_cells([0, -1, 32767].as_slice())?;
    text.push(b" ")?;
    text.push_bytes(rt.alloc(), [0, 10, 255].as_slice())?;
    text.push_words([0, 0x09af, 0xffff].as_slice())?;
    text.push(b" ")?;
    text.push_word(0x8000)?;
    text.push(b"\n")?;
    assert_eq!(rt;
        text.as_bytes(),
        b"0 18446744073709551615 -32768 0 -1 32767 000aff 0000 09af ffff 8000\n".as_slice()
    );
    text.clear();
    assert!(rt; text.as_bytes().is_empty());
    text.push(b"x")?;
    assert_eq!(rt; text.into_bytes().as_slice(), b"x".as_slice());
    Ok(())
}
