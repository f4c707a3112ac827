ghost use Rattle.std.specs.Prelude.{◌<◌, ◌≤◌, All, length};

use otp_hash::Algo;
use otp_mode::*;
use otp_words::{DictFault, DictRule, Dictionary};
use outside::{Bytes, Word};
use outside_memory::{CallKind, Fail, MemFiles, MemStream};
use std::alloc::{AllocError, Global};
use std::test::Fail as Fault;
use trouble::{FileKind, LineFault, LogFault, RenewFault, ServeFault, Trouble};

/// The input of the standard's examples.
const PHRASE: &[u8] = b"This is a test.\n";

/// The words of a command line.
fn words_of(alloc: Global, line: &str) -> Result<Vec<&str>, AllocError> {
    line.split(' ').collect(alloc)
}

/// The command of these words.
fn command_of<'a>(words: &[&'a str]) -> Option<OtpCommand<'a>> {
    let (mode, further) = words.split_first()?;
    read_otp_command(mode, further)
}

/// The first lines of the plain word list.
fn plain_list(alloc: Global, lines: u16) -> Result<Vec<u8>, AllocError> {
    let mut text = Vec::new(alloc);
    for i in 0..lines {
        let place = i % 2_048;
        text.push(b'Q')?;
        text.push(b'A' + (place / 256) as u8)?;
        text.push(b'A' + (place / 16 % 16) as u8)?;
        text.push(b'A' + (place % 16) as u8)?;
        text.push(b'\n')?;
    }
    Ok(text)
}

/// What the mode came to, if a line is one of its commands.
fn run(
    alloc: Global,
    line: &str,
    files: &mut MemFiles,
    ends: &mut MemStream,
) -> Result<Option<Result<(), Trouble>>, AllocError> {
    let words = words_of(alloc, line)?;
    match command_of(words.as_slice()) {
        None => Ok(None),
        Some(command) => Ok(Some(run_otp(alloc, &command, files, ends))),
    }
}

/// What a command line is read as: the algorithm, the number, and whether it has a list.
type Read = Option<(Algo, u16, bool)>;

const COMMANDS: &[(&str, Read)] = &[
    ("otp md5 0 TeSt", Some((Algo::Md5, 0, false))),
    ("otp sha1 9999 test", Some((Algo::Sha1, 9_999, false))),
    ("otp md5 0099 0aZ9 plain.txt", Some((Algo::Md5, 99, true))),
    ("otp md5 7 TeSt ", Some((Algo::Md5, 7, true))),
    ("otp md5 00000 TeSt", None),
    ("otp md5 10000 TeSt", None),
    ("otp md5 1a TeSt", None),
    ("otp md5 +1 TeSt", None),
    ("otp md5  TeSt", None),
    ("otp md4 1 TeSt", None),
    ("otp MD5 1 TeSt", None),
    ("otp md5 1 Te-St", None),
    ("otp md5 1 abcdefghijklmnopq", None),
    ("otp md5 1 TeSt plain.txt more", None),
    ("otp md5 1", None),
    ("serve", None),
    ("OTP md5 1 TeSt", None),
];

/// Whether a command line is read so.
fn reads(alloc: Global, line: &str, want: Read) -> Result<bool, AllocError> {
    let words = words_of(alloc, line)?;
    let command = command_of(words.as_slice());
    Ok(command.map(|c| (c.algo, c.number, c.list.is_some())) == want)
}

#[test]
fn words_that_are_commands(rt: HostRuntime) -> Result<(), Fault> {
    for (line, want) in COMMANDS {
        assert!(rt; reads(rt.alloc(), line, *want)?, "{line}");
    }
    Ok(())
}

/// A file of the first lines of the plain word list.
fn list_file(alloc: Global, name: &str, lines: u16) -> Result<(Word, Bytes), AllocError> {
    let list = plain_list(alloc, lines)?;
    let bytes = Bytes::of(alloc, list.as_slice())?;
    Ok((Word::of(alloc, name.as_bytes())?, bytes))
}

/// The names of files, and of how many lines of the plain word list: a whole list, one that is short of a
/// line, and one that has too many.
const LISTS: &[(&str, u16)] = &[("plain.txt", 2_048), ("short", 2_047), ("long", 60_000)];

/// All these files.
fn pairs_of(alloc: Global) -> Result<Vec<(Word, Bytes)>, AllocError> {
    let mut pairs = Vec::new(alloc);
    for (name, lines) in LISTS {
        pairs.push(list_file(alloc, name, *lines)?)?;
    }
    Ok(pairs)
}

/// Word lists in files, of whose calls these fail.
fn files_of(alloc: Global, fails: &[Fail]) -> Result<MemFiles, AllocError> {
    MemFiles::new(alloc, pairs_of(alloc)?.as_slice(), fails)
}

/// A command line, what it has to come to, and what has to be sent then.
#[derive(Clone, Copy)]
struct Told<'a> {
    line: &'a str,
    outcome: Result<(), Trouble>,
    sent: &'a [u8],
}

/// Whether a line comes to that over these files and ends.
fn is_told(
    alloc: Global,
    told: &Told<'_>,
    files: &mut MemFiles,
    ends: &mut MemStream,
) -> Result<bool, AllocError> {
    let outcome = run(alloc, told.line, files, ends)?;
    Ok(outcome == Some(told.outcome) && ends.sent() == told.sent)
}

/// The same over word lists in files, of whose calls these fail.
fn is_told_by_lists(
    alloc: Global,
    told: &Told<'_>,
    fails: &[Fail],
    ends: &mut MemStream,
) -> Result<bool, AllocError> {
    let mut files = files_of(alloc, fails)?;
    is_told(alloc, told, &mut files, ends)
}

/// Whether the phrase, in pieces of these lengths, gives these lines.
fn prints(alloc: Global, line: &str, cuts: &[usize], want: &[u8]) -> Result<bool, AllocError>
    requires some_cut { 0 < length cuts.now }
    requires each_cut { All (λ c. 1 ≤ c) cuts.now }
{
    let told = Told {
        line,
        outcome: Ok(()),
        sent: want,
    };
    let mut ends = MemStream::new(alloc, PHRASE, cuts, &[])?;
    Ok(is_told_by_lists(alloc, &told, &[], &mut ends)? && ends.tells())
}

/// Whether it does so however it is cut.
fn prints_by_any_cut(alloc: Global, line: &str, want: &[u8]) -> Result<bool, AllocError> {
    Ok(
        prints(alloc, line, &[1, 1], want)?
            && prints(alloc, line, &[4, 7], want)?
            && prints(alloc, line, &[4_096, 4_096], want)?,
    )
}

const PRINTED: &[(&str, &str)] = &[
    ("otp md5 0 TeSt", "9E87 6134 D904 99DD\n"),
    ("otp md5 1 TeSt", "7965 E054 36F5 029F\n"),
    ("otp md5 99 TeSt", "50FE 1962 C496 5880\n"),
    ("otp sha1 0 TeSt", "BB9E 6AE1 979D 8FF4\n"),
    ("otp sha1 1 TeSt", "63D9 3663 9734 385B\n"),
    (
        "otp md5 1 TeSt plain.txt",
        "7965 E054 36F5 029F\nQDML QBHI QAKI QDGP QCIB QCHN\n",
    ),
];

#[test]
fn passwords_of_the_standard(rt: HostRuntime) -> Result<(), Fault> {
    for (line, want) in PRINTED {
        assert!(rt;
            prints_by_any_cut(rt.alloc(), line, want.as_bytes())?,
            "{line}"
        );
    }
    Ok(())
}

/// Whether the mode comes to this without a file.
fn is_told_without(
    alloc: Global,
    told: &Told<'_>,
    ends: &mut MemStream,
) -> Result<bool, AllocError> {
    let mut files = MemFiles::new(alloc, &[], &[])?;
    is_told(alloc, told, &mut files, ends)
}

/// Whether the mode comes to this by an input.
fn comes_to(alloc: Global, told: &Told<'_>, input: &[u8]) -> Result<bool, AllocError> {
    let mut ends = MemStream::new(alloc, input, &[1_000], &[])?;
    is_told_without(alloc, told, &mut ends)
}

/// A phrase that is taken.
const TAKEN: Told<'static> = Told {
    line: "otp md5 0 TeSt",
    outcome: Ok(()),
    sent: b"9E87 6134 D904 99DD\n",
};

/// One that is refused.
const REFUSED: Told<'static> = Told {
    line: "otp md5 0 TeSt",
    outcome: Err(Trouble::PhraseRefused),
    sent: b"",
};

const PHRASES: &[&[u8]] = &[
    b"This is a test.\n",
    b"This is a test.\r\n",
    b"This is a test.",
    b"This is a test.\nThis is another.\n",
];

#[test]
fn inputs_that_are_phrases(rt: HostRuntime) -> Result<(), Fault> {
    for input in PHRASES {
        assert!(rt; comes_to(rt.alloc(), &TAKEN, input)?);
    }
    Ok(())
}

const NO_PHRASES: &[&[u8]] = &[
    b"This is a test.\r",
    b"This is a test.\r\r\n",
    b"This is\ta test.\n",
    b"This is a test\x7f\n",
    b"This is a test\xe4\n",
    b"\nThis is a test.\n",
    b"",
    b"short\n",
    b"123456789\n",
    &[b'a'; 64],
    &[b'a'; 4_096],
    &[b'a'; 5_000],
];

#[test]
fn inputs_that_are_none(rt: HostRuntime) -> Result<(), Fault> {
    for input in NO_PHRASES {
        assert!(rt; comes_to(rt.alloc(), &REFUSED, input)?);
    }
    Ok(())
}

/// A phrase of ten letters, and one of 63.
const SHORTEST: Told<'static> = Told {
    line: "otp md5 0 TeSt",
    outcome: Ok(()),
    sent: b"2948 ED7E 5A3E EA74\n",
};

const LONGEST: Told<'static> = Told {
    line: "otp sha1 0 TeSt",
    outcome: Ok(()),
    sent: b"1BD9 3DEE 4073 3AC8\n",
};

#[test]
fn the_shortest_and_the_longest_phrase(rt: HostRuntime) -> Result<(), Fault> {
    assert!(rt; comes_to(rt.alloc(), &SHORTEST, &[b'a'; 10])?);
    assert!(rt; comes_to(rt.alloc(), &LONGEST, &[b'a'; 63])?);
    Ok(())
}

fn fail(call: CallKind, number: u32, sent: usize) -> Fail {
    Fail { call, number, sent }
}

/// Whether nothing is received after the first line: a second receiving would fail.
fn stops_after_line(alloc: Global) -> Result<bool, AllocError> {
    let second = fail(CallKind::Recv, 2, 0);
    let mut ends = MemStream::new(alloc, b"This is a test.\nx", &[16, 1], &[second])?;
    is_told_without(alloc, &TAKEN, &mut ends)
}

/// What follows the first line is left to others: a terminal may have nothing more to give.
#[test]
fn nothing_is_received_behind_the_first_line(rt: HostRuntime) -> Result<(), Fault> {
    assert!(rt; stops_after_line(rt.alloc())?);
    Ok(())
}

/// A word list's name, an input, the one call that fails, and what comes of them: the fault, and what
/// was sent.
#[derive(Clone, Copy)]
struct Row {
    list: &'static str,
    input: &'static [u8],
    fail: (CallKind, u32, usize),
    want: Trouble,
    sent: &'static [u8],
}

/// Whether a row's line has its outcome.
fn fails_by(alloc: Global, row: &Row, line: &str) -> Result<bool, AllocError> {
    let told = Told {
        line,
        outcome: Err(row.want),
        sent: row.sent,
    };
    let (call, number, sent) = row.fail;
    let fails = [fail(call, number, sent)];
    let mut ends = MemStream::new(alloc, row.input, &[1_000], &fails)?;
    is_told_by_lists(alloc, &told, &fails, &mut ends)
}

/// Whether a row holds.
fn holds(alloc: Global, row: &Row) -> Result<bool, AllocError> {
    let list = row.list;
    let line = format!(in alloc; "otp md5 1 TeSt {list}")?;
    fails_by(alloc, row, line.as_str())
}

/// A whole list and the phrase, of which nothing is sent.
const SILENT: Row = Row {
    list: "plain.txt",
    input: PHRASE,
    fail: (CallKind::Recv, 1, 0),
    want: Trouble::EndsFailed,
    sent: b"",
};

const LIST_FAULTS: &[Row] = &[
    Row {
        list: "none",
        fail: (CallKind::Replace, 1, 0),
        want: Trouble::Missing(FileKind::Words),
        ..SILENT
    },
    Row {
        list: "none",
        input: b"short\n",
        want: Trouble::Missing(FileKind::Words),
        ..SILENT
    },
    Row {
        list: "short",
        fail: (CallKind::Send, 1, 0),
        want: Trouble::WordsRefused(DictFault {
            line: 2_047,
            rule: DictRule::Count,
        }),
        ..SILENT
    },
    Row {
        list: "long",
        input: b"",
        want: Trouble::WordsRefused(DictFault {
            line: 2_049,
            rule: DictRule::Twice,
        }),
        ..SILENT
    },
    Row {
        fail: (CallKind::Read, 1, 0),
        want: Trouble::ReadFailed,
        ..SILENT
    },
    Row {
        input: b"short\n",
        fail: (CallKind::Read, 3, 0),
        want: Trouble::ReadFailed,
        ..SILENT
    },
];

#[test]
fn faults_of_the_list_come_first(rt: HostRuntime) -> Result<(), Fault> {
    for row in LIST_FAULTS {
        assert!(rt; holds(rt.alloc(), row)?);
    }
    Ok(())
}

const END_FAULTS: &[Row] = &[
    Row {
        input: b"short\n",
        ..SILENT
    },
    Row {
        input: b"This",
        fail: (CallKind::Recv, 2, 0),
        ..SILENT
    },
    Row {
        input: b"short\n",
        fail: (CallKind::Send, 1, 0),
        want: Trouble::PhraseRefused,
        ..SILENT
    },
    Row {
        fail: (CallKind::Send, 1, 29),
        sent: b"7965 E054 36F5 029F\nQDML QBHI",
        ..SILENT
    },
];

#[test]
fn faults_of_the_ends_come_then(rt: HostRuntime) -> Result<(), Fault> {
    for row in END_FAULTS {
        assert!(rt; holds(rt.alloc(), row)?);
    }
    Ok(())
}

const STATUSES: &[(Trouble, u8)] = &[
    (Trouble::ReadFailed, 3),
    (Trouble::Missing(FileKind::Setup), 4),
    (Trouble::Missing(FileKind::Words), 4),
    (Trouble::Missing(FileKind::Log), 4),
    (
        Trouble::WordsRefused(DictFault {
            line: 1,
            rule: DictRule::Length,
        }),
        5,
    ),
    (Trouble::ReplaceFailed, 8),
    (Trouble::OutOfMemory, 9),
    (Trouble::EndsFailed, 11),
    (Trouble::PhraseRefused, 12),
    (Trouble::ResponseRefused(LineFault::TooLong), 12),
    (Trouble::LogRefused(LogFault::NotFresh), 13),
    (Trouble::LogRefused(LogFault::Record { number: 7 }), 13),
    (Trouble::NoRenewal(RenewFault::Loop), 15),
    (Trouble::Serving(ServeFault::ListenFailed), 6),
    (Trouble::Serving(ServeFault::LogLost), 7),
    (Trouble::Serving(ServeFault::AcceptFailed), 10),
];

#[test]
fn statuses(rt: HostRuntime) -> Result<(), Fault> {
    for (trouble, status) in STATUSES {
        assert!(rt; trouble.status() == *status);
    }
    Ok(())
}
