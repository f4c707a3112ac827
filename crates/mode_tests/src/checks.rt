ghost use Rattle.std.specs.Prelude.{◌≡◌, []};
ghost use Rattle.info_hooks.specs.Texts.{info_bytes};

use crate::files::files_of;
use check_mode::*;
use info_hooks::{Card, Form, Hook, Hooks, InfoText};
use outside_memory::{CallKind, Fail, MemFiles, MemStream};
use std::alloc::{AllocError, Global};
use std::test::Fail as Fault;
use trouble::status_of;

/// A setup, line by line.
const LINES: [&str; 17] = [
    "socket = \"s\"",
    "launcher = \"l\"",
    "vault = \"v\"",
    "words = \"list\"",
    "banner = \"OTP login\"",
    "workers = 1",
    "connections = 4",
    "requests = 64",
    "tries = 3",
    "hold = 30000",
    "[[account]]",
    "name = \"bob\"",
    "uid = 1001",
    "algorithm = \"sha1\"",
    "seed = \"test\"",
    "sequence = 1",
    "password = \"63d936639734385b\"\ngrants = [{ name = \"notes\", mode = 3 }]",
];

/// A second account of the name `bob`.
const SECOND: &str = "password = \"63d936639734385b\"
[[account]]
name = \"bob\"
uid = 1002
algorithm = \"md5\"
seed = \"test\"
sequence = 1
password = \"7965e05436f5029f\"";

/// The most bytes of a setup's file.
const LONGEST: usize = 8_388_608;

/// The setup with another text at the line of a place, if there is one, and with newlines after it
/// up to a length.
fn setup_with(alloc: Global, place: usize, text: &str, len: usize) -> Result<Vec<u8>, AllocError> {
    let mut bytes = Vec::new(alloc);
    for (i, line) in LINES.iter().enumerate() {
        let line = if i == place { text } else { *line };
        bytes.extend_from_slice(line.as_bytes())?;
        bytes.push(b'\n')?;
    }
    for _ in bytes.len()..len {
        bytes.push(b'\n')?;
    }
    Ok(bytes)
}

/// A first line, and so many lines of the plain word list after it.
fn list_with(alloc: Global, first: &str, lines: u16) -> Result<Vec<u8>, AllocError> {
    let mut text = Vec::from_slice(alloc, first.as_bytes())?;
    for i in 0..lines {
        let place = i % 2_048;
        text.push(b'Q')?;
        text.push(b'A' + (place / 256) as u8)?;
        text.push(b'A' + (place / 16 % 16) as u8)?;
        text.push(b'A' + (place % 16) as u8)?;
        text.push(b'\n')?;
    }
    Ok(text)
}

/// Says nothing.
fn say_nothing(_: &Card) -> InfoText
    ensures { info_bytes result ≡ [] }
{
    InfoText::of(&[])
}

/// Information of the number 1, which says nothing.
#[tactic(auto, unfolding(info_hooks::specs::Said::said))]
fn one_hook(alloc: Global) -> Result<Hooks, Fault> {
    let mut list = Vec::new(alloc);
    list.push(Hook::new(1, Form::of(&[]), say_nothing))?;
    Ok(Hooks::new(list).ok().ok_or("hooks")?)
}

/// The status that has to be found of a setup, and what has to be sent then.
#[derive(Clone, Copy)]
struct Told<'a> {
    status: u8,
    sent: &'a str,
}

/// Whether that is found of the file `setup`.
fn is_found(
    alloc: Global,
    hooks: &Hooks,
    files: &mut MemFiles,
    ends: &mut MemStream,
    told: &Told<'_>,
) -> bool {
    let found = run_check(alloc, "setup", hooks, files, ends);
    ends.sent() == told.sent.as_bytes() && status_of(&found) == told.status
}

/// The same with the one hook.
fn is_found_by_one(
    alloc: Global,
    files: &mut MemFiles,
    ends: &mut MemStream,
    told: &Told<'_>,
) -> Result<bool, Fault> {
    Ok(is_found(alloc, &one_hook(alloc)?, files, ends, told))
}

/// The same at ends of whose calls these fail.
fn finds(
    alloc: Global,
    files: &mut MemFiles,
    fails: &[Fail],
    told: &Told<'_>,
) -> Result<bool, Fault> {
    let mut ends = MemStream::new(alloc, b"", &[1], fails)?;
    is_found_by_one(alloc, files, &mut ends, told)
}

/// The same over a setup and a word list.
fn finds_of<'x>(
    alloc: Global,
    setup: &'x [u8],
    list: &'x [u8],
    fails: &[Fail],
    told: &Told<'_>,
) -> Result<bool, Fault> {
    let mut files = files_of(alloc, &[("setup", setup), ("list", list)], fails)?;
    finds(alloc, &mut files, fails, told)
}

/// A place of the setup's lines, and another text there; the first line of the word list, and how
/// many lines of the plain list follow; the status, and the line that is sent.
type Row = (usize, &'static str, &'static str, u16, u8, &'static str);

const ROWS: &[Row] = &[
    (20, "", "", 2_048, 0, "ok accounts 1 workers 1\n"),
    (
        5,
        "workers = 64",
        "",
        2_048,
        0,
        "ok accounts 1 workers 64\n",
    ),
    (16, "", "", 2_048, 5, "refused setup password missing 1\n"),
    (
        5,
        "workers = 0",
        "",
        2_048,
        5,
        "refused setup workers range 0\n",
    ),
    (
        9,
        "hold = 30000\ninfo = [1]",
        "",
        2_048,
        0,
        "ok accounts 1 workers 1\n",
    ),
    (16, SECOND, "", 2_048, 5, "refused setup name twice 2\n"),
    (0, "socket", "", 2_048, 5, "refused setup file not-toml 0\n"),
    (
        9,
        "hold = 1\ninfo = [1, 7]",
        "",
        0,
        5,
        "refused setup info no-hook 0\n",
    ),
    (20, "", "", 2_047, 5, "refused words 2047 count\n"),
    (20, "", "QAAAA\n", 2_048, 5, "refused words 1 length\n"),
    (20, "", "Q1\n", 2_048, 5, "refused words 1 letter\n"),
    (20, "", "qaaa\n", 2_048, 5, "refused words 2 twice\n"),
    (3, "words = \"none\"", "", 2_048, 4, "missing words\n"),
    (
        5,
        "workers = 65",
        "",
        0,
        5,
        "refused setup workers range 0\n",
    ),
];

/// Whether a row holds.
fn holds(alloc: Global, row: &Row) -> Result<bool, Fault> {
    let (place, text, first, lines, status, sent) = *row;
    let setup = setup_with(alloc, place, text, 0)?;
    let list = list_with(alloc, first, lines)?;
    finds_of(alloc, &setup, &list, &[], &Told { status, sent })
}

/// Whether a setup is missing where there is no file.
fn finds_none(alloc: Global) -> Result<bool, Fault> {
    let missing = Told {
        status: 4,
        sent: "missing setup\n",
    };
    let mut files = MemFiles::new(alloc, &[], &[])?;
    finds(alloc, &mut files, &[], &missing)
}

#[test]
fn lines_and_statuses(rt: HostRuntime) -> Result<(), Fault> {
    for row in ROWS {
        assert!(rt; holds(rt.alloc(), row)?, "{}", row.5);
    }
    assert!(rt; finds_none(rt.alloc())?);
    Ok(())
}

/// Whether this is found of a right setup of this length beside the plain list.
fn finds_long(alloc: Global, len: usize, status: u8, sent: &str) -> Result<bool, Fault> {
    let setup = setup_with(alloc, 20, "", len)?;
    let list = list_with(alloc, "", 2_048)?;
    finds_of(alloc, &setup, &list, &[], &Told { status, sent })
}

#[test]
fn files_of_the_greatest_length(rt: HostRuntime) -> Result<(), Fault> {
    let longest = "ok accounts 1 workers 1\n";
    assert!(rt; finds_long(rt.alloc(), LONGEST, 0, longest)?);
    let longer = "refused setup file too-long 0\n";
    assert!(rt; finds_long(rt.alloc(), LONGEST + 1, 5, longer)?);
    Ok(())
}

/// Whether this is found of a right setup and the plain list where a call fails.
fn fails_with(alloc: Global, fail: Fail, told: &Told<'_>) -> Result<bool, Fault> {
    let setup = setup_with(alloc, 20, "", 0)?;
    let list = list_with(alloc, "", 2_048)?;
    finds_of(alloc, &setup, &list, &[fail], told)
}

/// A call that fails, the status, and what was sent by then.
const FAILING: &[(CallKind, u32, u8, &str)] = &[
    (CallKind::Read, 1, 3, ""),
    (CallKind::Read, 2, 3, ""),
    (CallKind::Read, 3, 3, ""),
    (CallKind::Send, 1, 11, "ok ac"),
];

/// Whether a call that fails comes to that.
fn fails_so(alloc: Global, call: CallKind, number: u32, told: &Told<'_>) -> Result<bool, Fault> {
    let fail = Fail {
        call,
        number,
        sent: 5,
    };
    fails_with(alloc, fail, told)
}

#[test]
fn calls_that_fail(rt: HostRuntime) -> Result<(), Fault> {
    for (call, number, status, sent) in FAILING {
        let told = Told {
            status: *status,
            sent,
        };
        assert!(rt;
            fails_so(rt.alloc(), *call, *number, &told)?,
            "{sent} at {number}"
        );
    }
    Ok(())
}

/// A mode, the words after it, and the file that they name.
const WORDS: &[(&str, &[&str], Option<&str>)] = &[
    ("check", &["a.toml"], Some("a.toml")),
    ("check", &[""], Some("")),
    ("check", &[], None),
    ("check", &["a", "b"], None),
    ("Check", &["a"], None),
    ("serve", &["a"], None),
];

#[test]
fn words_of_the_mode(rt: HostRuntime) {
    for (mode, words, want) in WORDS {
        assert!(rt; read_check_command(mode, words) == *want);
    }
}
