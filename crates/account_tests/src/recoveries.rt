use crate::files::{NONE, bytes_in, fail, holds};
use account_file::{SetupError, read_setup};
use outside_memory::{CallKind, Fail, MemFiles, MemStream};
use policy_model::{Account, Setup};
use recover_mode::*;
use std::alloc::{AllocError, Global};
use std::test::Fail as Fault;
use trouble::{Trouble, status_of};

/// A setup with bob by SHA-1 and alice by MD5. Their stored passwords are those of `This is a test.` with
/// the seed `test` and the number 1 (RFC 2289, appendix C); those that the logs accept have the number 0.
const SETUP: &str = "# users
socket = \"s\"
launcher = \"l\"
vault = \"v\"
words = \"list\"
workers = 2
connections = 4
requests = 64
tries = 3
hold = 30000
info = [7]
[[account]]
name = \"bob\"
uid = 1001
algorithm = \"sha1\"
seed = \"test\"
sequence = 1
password = \"63d936639734385b\"
grants = [{ name = \"notes\", mode = 3 }]
[[account]]
name = \"alice\"
uid = 1000
algorithm = \"md5\"
seed = \"test\"
sequence = 1
password = \"7965e05436f5029f\"
";

/// The first lines of a whole login: bob's reply is accepted.
const LOGIN: &str = "1 w0 s1 open permit
2 w0 s1 banner permit
3 w0 s1 write 0 0 10 permit
4 w0 s1 read 0 0 512 permit
5 w0 s1 challenge bob 1000 permit 0
6 w0 s1 write 0 0 16 permit
7 w0 s1 reply permit bb9e6ae1979d8ff4";

/// Two users log in beside one another.
const TWO: &str = "1 w0 s1 open permit
2 w1 s2 open permit
3 w0 s1 challenge bob 1000 permit 0
4 w1 s2 challenge alice 1000 permit 0
5 w1 s2 reply permit 9e876134d90499dd
6 w0 s1 reply permit bb9e6ae1979d8ff4
7 w0 s1 end child-ended permit";

/// A second line with the number 3.
const MISCOUNTED: &str = "1 w0 s1 open permit
3 w0 s1 banner permit";

/// A password that doesn't hash to the current one, in front of a line that doesn't read.
const WRONG: &str = "1 w0 s1 open permit
2 w0 s1 challenge bob 1000 permit 0
3 w0 s1 reply permit 0000000000000001
4 w0";

/// The accounts of SETUP, and what the logs make of them.
const BEFORE: &str = "bob 1 63d936639734385b\nalice 1 7965e05436f5029f\n";

const BOB: &str = "bob 0 bb9e6ae1979d8ff4\nalice 1 7965e05436f5029f\n";

const BOTH: &str = "bob 0 bb9e6ae1979d8ff4\nalice 0 9e876134d90499dd\n";

/// The image of no records.
const FRESH: &[u8] = b"OTJ1\0";

/// A log, the status with the line or the error, and the accounts afterwards.
#[derive(Clone, Copy)]
struct Row {
    log: &'static str,
    told: &'static str,
    accounts: &'static str,
}

const ROWS: [Row; 5] = [
    Row {
        log: LOGIN,
        told: "0 recovered lines 7 accepted 1",
        accounts: BOB,
    },
    Row {
        log: TWO,
        told: "0 recovered lines 7 accepted 2",
        accounts: BOTH,
    },
    Row {
        log: "",
        told: "0 recovered lines 0 accepted 0",
        accounts: BEFORE,
    },
    Row {
        log: MISCOUNTED,
        told: "13 LogRefused(Record { number: 2 })",
        accounts: BEFORE,
    },
    Row {
        log: WRONG,
        told: "13 LogRefused(Record { number: 3 })",
        accounts: BEFORE,
    },
];

/// The image of a log of these lines.
fn image_of(alloc: Global, text: &str) -> Result<Vec<u8>, AllocError> {
    let mut image = Vec::from_slice(alloc, b"OTJ1")?;
    for line in text.lines() {
        let len = u16::try_from(line.len()).unwrap_or(0).saturating_add(1);
        image.push(1)?;
        image.extend_from_slice(&len.to_le_bytes())?;
        image.extend_from_slice(line.as_bytes())?;
        image.push(b'\n')?;
    }
    image.push(0)?;
    Ok(image)
}

/// The files `setup`, `log` and `other`.
fn files_of<'x>(
    alloc: Global,
    setup: &'x [u8],
    log: &'x [u8],
    fails: &[Fail],
) -> Result<MemFiles, AllocError> {
    let other: &'x [u8] = b"kept";
    crate::files::files_of(
        alloc,
        &[("setup", setup), ("log", log), ("other", other)],
        fails,
    )
}

/// An account with its sequence and password, in a line.
fn line_of(alloc: Global, account: &Account) -> Result<String, AllocError> {
    let name = std::str::from_utf8(account.name.as_slice()).unwrap_or("");
    let (sequence, password) = (account.sequence, account.password);
    format!(in alloc; "{name} {sequence} {password:016x}\n")
}

/// Accounts, a line each.
fn lines_of(alloc: Global, accounts: &[Account]) -> Result<String, AllocError> {
    let mut text = String::new(alloc);
    for account in accounts {
        let line = line_of(alloc, account)?;
        text.push_str(line.as_str())?;
    }
    Ok(text)
}

/// Whether a setup that was read has these accounts with their sequences and passwords, a line each.
fn has_read(
    alloc: Global,
    read: &Result<Setup, SetupError>,
    want: &str,
) -> Result<bool, AllocError> {
    match read {
        Ok(setup) => Ok(lines_of(alloc, setup.parts().accounts.as_slice())?.as_str() == want),
        Err(_) => Ok(false),
    }
}

/// The same of the file `setup`.
fn has_accounts(alloc: Global, files: &MemFiles, want: &str) -> Result<bool, AllocError> {
    let bytes = bytes_in(alloc, files, "setup")?;
    has_read(alloc, &read_setup(alloc, bytes), want)
}

/// The status, and the line that was sent or the error with what was sent.
fn told_of(
    alloc: Global,
    outcome: Result<Recovery, Trouble>,
    sent: &[u8],
) -> Result<String, AllocError> {
    let status = status_of(&outcome);
    let sent = std::str::from_utf8(sent).unwrap_or("?");
    match outcome {
        Ok(_) => format!(in alloc; "{status} {}", sent.trim()),
        Err(trouble) => format!(in alloc; "{status} {trouble:?}{sent}"),
    }
}

/// What comes of the mode over these files.
fn told(alloc: Global, files: &mut MemFiles, log: &str, fails: &[Fail]) -> Result<String, Fault> {
    let command = read_recover_command("recover", &["setup", log]).ok_or("a command")?;
    let mut ends = MemStream::new(alloc, b"unasked", &[7], fails)?;
    let outcome = run_recover(alloc, &command, files, &mut ends);
    Ok(told_of(alloc, outcome, ends.sent())?)
}

/// Whether the mode over these files has this outcome.
fn is_told(alloc: Global, files: &mut MemFiles, log: &str, want: &str) -> Result<bool, Fault> {
    Ok(told(alloc, files, log, &[])?.as_str() == want)
}

/// Whether the log holds no records after a recovery, and both files are as they were after a refusal.
fn stands(alloc: Global, files: &MemFiles, row: &Row, image: &[u8]) -> Result<bool, AllocError> {
    if row.told.starts_with("0 ") {
        return holds(alloc, files, "log", FRESH);
    }
    Ok(holds(alloc, files, "log", image)? && holds(alloc, files, "setup", SETUP.as_bytes())?)
}

/// Whether the files are what a row's log leaves: its accounts, and any other file as it was.
fn leaves(alloc: Global, files: &MemFiles, row: &Row, image: &[u8]) -> Result<bool, AllocError> {
    Ok(
        stands(alloc, files, row, image)?
            && has_accounts(alloc, files, row.accounts)?
            && holds(alloc, files, "other", b"kept")?,
    )
}

/// Whether a row's log with this image has its outcome, and leaves what it should.
fn recovers_from(alloc: Global, row: &Row, image: &[u8]) -> Result<bool, Fault> {
    let mut files = files_of(alloc, SETUP.as_bytes(), image, &[])?;
    Ok(is_told(alloc, &mut files, "log", row.told)? && leaves(alloc, &files, row, image)?)
}

/// Whether a row's log has its outcome, and leaves what it should.
fn recovers(alloc: Global, row: &Row) -> Result<bool, Fault> {
    let image = image_of(alloc, row.log)?;
    recovers_from(alloc, row, image.as_slice())
}

#[test]
fn logs_and_what_comes_of_them(rt: HostRuntime) -> Result<(), Fault> {
    for row in &ROWS {
        assert!(rt; recovers(rt.alloc(), row)?, "{}", row.told);
    }
    Ok(())
}

/// Whether a recovery has this outcome, and leaves bob's account so.
fn leaves_bob(alloc: Global, files: &mut MemFiles, want: &str) -> Result<bool, Fault> {
    Ok(is_told(alloc, files, "log", want)? && has_accounts(alloc, files, BOB)?)
}

/// Whether a log is recovered, which a stop between the two files left as it was, and then is fresh.
fn is_recovered_again(alloc: Global, files: &mut MemFiles, image: &[u8]) -> Result<bool, Fault> {
    Ok(
        leaves_bob(alloc, files, "8 ReplaceFailed")?
            && holds(alloc, files, "log", image)?
            && leaves_bob(alloc, files, "0 recovered lines 7 accepted 1")?
            && leaves_bob(alloc, files, "0 recovered lines 0 accepted 0")?
            && holds(alloc, files, "log", FRESH)?,
    )
}

/// A stop between the two files leaves the new setup beside the old log: the mode is called again and
/// tells the same. Called once more it finds the log of no records.
#[test]
fn a_log_is_recovered_again(rt: HostRuntime) -> Result<(), Fault> {
    let image = image_of(rt.alloc(), LOGIN)?;
    let stop = [fail(CallKind::Replace, 2)];
    let mut files = files_of(rt.alloc(), SETUP.as_bytes(), image.as_slice(), &stop)?;
    assert!(rt; is_recovered_again(rt.alloc(), &mut files, image.as_slice())?);
    Ok(())
}

/// Whether a missing log has no records, and holds none then.
fn is_recovered_from_none(alloc: Global, files: &mut MemFiles) -> Result<bool, Fault> {
    Ok(
        is_told(alloc, files, "log", "0 recovered lines 0 accepted 0")?
            && holds(alloc, files, "log", FRESH)?,
    )
}

#[test]
fn a_missing_log_has_no_records(rt: HostRuntime) -> Result<(), Fault> {
    let mut files = files_of(rt.alloc(), SETUP.as_bytes(), NONE.as_bytes(), &[])?;
    assert!(rt; is_recovered_from_none(rt.alloc(), &mut files)?);
    Ok(())
}

/// Whether the mode over these files has this outcome, and leaves them as they are.
fn ends_so(alloc: Global, setup: &[u8], log: &[u8], want: &str) -> Result<bool, Fault> {
    let mut files = files_of(alloc, setup, log, &[])?;
    Ok(
        is_told(alloc, &mut files, "log", want)?
            && holds(alloc, &files, "setup", setup)?
            && holds(alloc, &files, "log", log)?,
    )
}

/// A setup, a log, and the error.
const MISSING: &[(&str, &str, &str)] = &[
    (NONE, NONE, "4 Missing(Setup)"),
    (
        "launcher = \"l\"\n",
        NONE,
        "5 SetupRefused(SetupFault { key: Socket, rule: Missing, account: 0 })",
    ),
    (SETUP, "OTJ2\0", "13 LogRefused(Record { number: 0 })"),
    (
        SETUP,
        "OTJ1\x01\x02\0\n",
        "13 LogRefused(Record { number: 0 })",
    ),
    (SETUP, "", "13 LogRefused(Record { number: 0 })"),
];

#[test]
fn files_that_are_missing_or_refused(rt: HostRuntime) -> Result<(), Fault> {
    for (setup, log, want) in MISSING {
        assert!(rt;
            ends_so(rt.alloc(), setup.as_bytes(), log.as_bytes(), want)?,
            "{want} of {log}"
        );
    }
    Ok(())
}

/// Whether a setup that is named as its own log is refused, and left as it is.
fn is_no_log(alloc: Global, files: &mut MemFiles) -> Result<bool, Fault> {
    Ok(
        is_told(alloc, files, "setup", "13 LogRefused(Record { number: 0 })")?
            && holds(alloc, files, "setup", SETUP.as_bytes())?,
    )
}

/// A setup is no log: the mode refuses a setup that is named as its own log.
#[test]
fn one_file_under_both_names(rt: HostRuntime) -> Result<(), Fault> {
    let mut files = files_of(rt.alloc(), SETUP.as_bytes(), FRESH, &[])?;
    assert!(rt; is_no_log(rt.alloc(), &mut files)?);
    Ok(())
}

/// A call that fails over the login's log, the outcome, the accounts that are left, and whether the log is
/// fresh then.
type Failing = (CallKind, u32, &'static str, &'static str, bool);

const FAILING: &[Failing] = &[
    (CallKind::Read, 1, "3 ReadFailed", BEFORE, false),
    (CallKind::Read, 2, "3 ReadFailed", BEFORE, false),
    (CallKind::Read, 3, "3 ReadFailed", BEFORE, false),
    (CallKind::Read, 4, "3 ReadFailed", BEFORE, false),
    (CallKind::Replace, 1, "8 ReplaceFailed", BEFORE, false),
    (CallKind::Replace, 2, "8 ReplaceFailed", BOB, false),
    (CallKind::Send, 1, "11 EndsFailedrecov", BOB, true),
];

/// Whether a row's call has its outcome over the login's log with this image, and leaves what it says.
fn fails_over(alloc: Global, row: &Failing, image: &[u8]) -> Result<bool, Fault> {
    let (call, number, want, accounts, is_fresh) = *row;
    let fails = [fail(call, number)];
    let mut files = files_of(alloc, SETUP.as_bytes(), image, &fails)?;
    let log = if is_fresh { FRESH } else { image };
    Ok(
        told(alloc, &mut files, "log", &fails)?.as_str() == want
            && has_accounts(alloc, &files, accounts)?
            && holds(alloc, &files, "log", log)?,
    )
}

/// The same over the image of the login's log.
fn fails_so(alloc: Global, row: &Failing) -> Result<bool, Fault> {
    let image = image_of(alloc, LOGIN)?;
    fails_over(alloc, row, image.as_slice())
}

#[test]
fn calls_that_fail(rt: HostRuntime) -> Result<(), Fault> {
    for row in FAILING {
        assert!(rt; fails_so(rt.alloc(), row)?, "{} at {}", row.2, row.1);
    }
    assert!(rt; Trouble::OutOfMemory.status() == 9);
    Ok(())
}

/// A mode's word, what follows it, and whether that is a command of the mode.
const WORDS: &[(&str, &[&str], bool)] = &[
    ("recover", &["", ""], true),
    ("recover", &["a"], false),
    ("recover", &["a", "b", "c"], false),
    ("Recover", &["a", "b"], false),
];

#[test]
fn words_of_the_mode(rt: HostRuntime) {
    let whole = read_recover_command("recover", &["a.toml", "a.log"]);
    assert!(rt; whole.is_some_and(|c| c.setup == "a.toml" && c.log == "a.log"));
    for (mode, further, is_command) in WORDS {
        assert!(rt;
            read_recover_command(mode, further).is_some() == *is_command,
            "{mode}"
        );
    }
}
