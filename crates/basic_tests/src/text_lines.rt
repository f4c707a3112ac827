use std::test::*;
use text_line::*;

#[test]
fn parts_of_a_line(rt: HostRuntime) -> Result<(), Fail> {
    let mut line = Line::new();
    put(&mut line, b"w");
    put_number(&mut line, u32::MAX);
    put(&mut line, b" ");
    put_long(&mut line, u64::MAX);
    put(&mut line, b" ");
    put_number(&mut line, 0);
    put(&mut line, b" ");
    put_hex(&mut line, b"Az~");
    let text = b"w4294967295 18446744073709551615 0 417a7e";
    assert!(rt; line.as_slice() == text.as_slice());
    Ok(())
}

/// Whether a text is read as this.
fn is_read(text: &[u8], number: Option<u64>) -> bool {
    long_of(text) == number
}

#[test]
fn the_edges_of_numbers(rt: HostRuntime) -> Result<(), Fail> {
    assert!(rt; is_read(b"0", Some(0)));
    assert!(rt; is_read(b"9", Some(9)));
    assert!(rt; is_read(b"10", Some(10)));
    assert!(rt; is_read(b"9999999999999999999", Some(10_000_000_000_000_000_000 - 1)));
    assert!(rt; is_read(b"18446744073709551615", Some(u64::MAX)));
    assert!(rt; is_read(b"18446744073709551616", None));
    assert!(rt; is_read(b"99999999999999999999", None));
    assert!(rt; is_read(b"100000000000000000000", None));
    Ok(())
}

#[test]
fn texts_that_spell_no_number(rt: HostRuntime) -> Result<(), Fail> {
    assert!(rt; is_read(b"", None));
    assert!(rt; is_read(b"00", None));
    assert!(rt; is_read(b"01", None));
    assert!(rt; is_read(b"+1", None));
    assert!(rt; is_read(b"a", None));
    assert!(rt; is_read(b"1a", None));
    assert!(rt; is_read(b"1/", None));
    assert!(rt; is_read(b":1", None));
    Ok(())
}
