use command_line::*;
use outside::Word;
use std::alloc::{AllocError, Global};
use std::test::Fail;

/// The words of a line, which is parted at each space.
fn words_of(alloc: Global, line: &str) -> Result<Vec<Word>, AllocError> {
    let mut words = Vec::new(alloc);
    for word in line.split(' ') {
        words.push(Word::of(alloc, word.as_bytes())?)?;
    }
    Ok(words)
}

/// Whether exactly the words of a line were read.
fn has_words(read: &CommandLine<'_>, line: &str) -> bool {
    let mut given = line.split(' ');
    if given.next() != Some(read.mode) {
        return false;
    }
    for word in &read.further {
        if given.next() != Some(*word) {
            return false;
        }
    }
    given.next().is_none()
}

/// Lines, and whether their words are read.
const LINES: &[(&str, bool)] = &[
    ("-x", false),
    ("serve -x", false),
    ("-", false),
    ("--", false),
    ("serve --", false),
    ("serve --help", false),
    ("otp md5 0 TeSt -w", false),
    ("serve", true),
    ("fly", true),
    ("help", true),
    ("serve help", true),
    ("é", true),
    ("check a.toml", true),
    ("check a-b.toml", true),
    ("otp md5 0 TeSt", true),
    ("otp md5 0 TeSt words", true),
    ("drill 1 2 3 4 5 6 7 8 9 10", true),
    ("", true),
    (" serve", true),
    ("serve ", true),
    ("serve  a=b", true),
];

/// Whether these words are read as those of a line, or as none.
fn are_read(alloc: Global, words: &[Word], line: &str, is_read: bool) -> Result<bool, Fail> {
    match read_command_line(alloc, words) {
        Ok(Some(read)) => Ok(is_read && has_words(&read, line)),
        Ok(None) => Ok(!is_read),
        Err(error) => Err(Fail::from(error)),
    }
}

/// Whether the words of a line are read, or not.
fn is_read_so(alloc: Global, line: &str, is_read: bool) -> Result<bool, Fail> {
    let words = words_of(alloc, line)?;
    are_read(alloc, words.as_slice(), line, is_read)
}

#[test]
fn reads_the_words_that_were_given(rt: HostRuntime) -> Result<(), Fail> {
    for (line, is_read) in LINES {
        assert!(rt; is_read_so(rt.alloc(), line, *is_read)?, "{line}");
    }
    Ok(())
}

#[test]
fn reads_nothing_without_words(rt: HostRuntime) -> Result<(), Fail> {
    let words: Vec<Word> = Vec::new(rt.alloc());
    assert!(rt; read_command_line(rt.alloc(), words.as_slice())?.is_none());
    Ok(())
}
