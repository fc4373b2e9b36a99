// The parts of a line in a row, and the bytes that they are to leave.
use std::test::Fail;
use text_words::{append, append_decimal, append_hex, append_number, append_word};

#[test]
fn parts_of_a_line(rt: HostRuntime) -> Result<(), Fail> {
    let mut text = Vec::new(rt.alloc());
    append(&mut text, b"a%")?;
    append_word(&mut text, b"b c")?;
    append_word(&mut text, b"")?;
    append_decimal(&mut text, 0)?;
    append_number(&mut text, 0)?;
    append_number(&mut text, 10)?;
    append_number(&mut text, u64::MAX)?;
    append(&mut text, b"")?;
    append_decimal(&mut text, 907)?;
    append_word(&mut text, b"-")?;
    append_hex(rt.alloc(), &mut text, b"")?;
    append_hex(rt.alloc(), &mut text, b"\x00\x0a\xa0\xff/")?;
    assert_eq!(rt;
        text.as_slice(),
        b"a% b c 0 0 10 18446744073709551615907 -000aa0ff2f".as_slice()
    );
    Ok(())
}
