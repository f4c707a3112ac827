use fixed_list::*;
use std::test::*;

/// Whether a list is the bytes of which it was made.
fn is_text(text: &FixedList<64>) -> bool {
    text.as_slice() == b"abc".as_slice()
        && text.len() == 3
        && !text.is_empty()
        && *text == FixedList::of(b"abc")
        && *text != FixedList::of(b"abd")
        && *text != FixedList::of(b"abc\0")
}

#[test]
fn lists_and_their_bytes(rt: HostRuntime) {
    assert!(rt; is_text(&FixedList::of(b"abc")));
    let nothing: FixedList<256> = FixedList::of(b"");
    let full: FixedList<16> = FixedList::of(&[7; 16]);
    assert!(rt; nothing.is_empty() && full.as_slice() == [7; 16].as_slice());
}
