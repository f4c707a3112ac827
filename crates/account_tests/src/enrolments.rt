use account_file::{SetupError, read_setup};
use enrol_mode::*;
use outside_memory::{CallKind, Fail, MemStream};
use policy_model::{Account, Setup};
use std::alloc::{AllocError, Global};
use std::test::Fail as Fault;
use trouble::{Trouble, status_of};

/// The input of the standard's examples.
const PHRASE: &str = "This is a test.\n";

/// The words that enrol carol, and her account: her password is that of the phrase at 99 with the seed
/// `TeSt` by SHA-1 (RFC 2289, appendix C).
const CAROL: &str = "enrol carol 1002 sha1 99 TeSt";

const CAROL_S: &str = "
[[account]]
algorithm = \"sha1\"
enabled = true
grants = []
name = \"carol\"
password = \"87fec7768b73ccf9\"
seed = \"test\"
sequence = 99
uid = 1002
";

/// The same of dave, by MD5 at 1.
const DAVE: &str = "enrol dave 4294967294 md5 0001 TEST";

const DAVE_S: &str = "
[[account]]
algorithm = \"md5\"
enabled = true
grants = []
name = \"dave\"
password = \"7965e05436f5029f\"
seed = \"test\"
sequence = 1
uid = 4294967294
";

/// A setup as an operator writes it.
const SETUP: &str = "# users
socket = \"s\"
launcher = \"l\"
vault = \"v\"
words = \"list\"
workers = 1
connections = 4
requests = 64
tries = 3
hold = 30000
";

/// An account after it, which ends in a comment without a newline.
const ALICE: &str = "[[account]]
name = \"alice\"
uid = 1000
algorithm = \"md5\"
seed = \"test\"
sequence = 1
password = \"7965e05436f5029f\"
[[account.grants]]
name = \"notes\"
mode = 3
# no more";

/// The command of these words.
fn command_of(alloc: Global, line: &str) -> Result<Option<EnrolCommand>, AllocError> {
    let words: Vec<&str> = line.split(' ').collect(alloc)?;
    Ok(match words.as_slice() {
        [mode, further @ ..] => read_enrol_command(mode, further),
        [] => None,
    })
}

/// The status of a command over these ends, and what is sent.
fn status_and_sent(
    alloc: Global,
    command: &EnrolCommand,
    ends: &mut MemStream,
) -> Result<String, AllocError> {
    let status = status_of(&run_enrol(alloc, command, ends));
    let sent = std::str::from_utf8(ends.sent()).unwrap_or("?");
    format!(in alloc; "{status}{sent}")
}

/// The status of the words with an input, and what is sent.
fn told(alloc: Global, line: &str, input: &str, fails: &[Fail]) -> Result<String, Fault> {
    let command = command_of(alloc, line)?.ok_or("a command")?;
    let mut ends = MemStream::new(alloc, input.as_bytes(), &[7], fails)?;
    Ok(status_and_sent(alloc, &command, &mut ends)?)
}

/// Whether the words with an input have this status, and send this.
fn tells(
    alloc: Global,
    line: &str,
    input: &str,
    fails: &[Fail],
    want: &str,
) -> Result<bool, Fault> {
    Ok(told(alloc, line, input, fails)?.as_str() == want)
}

/// Whether the words print this with the phrase.
fn prints(alloc: Global, line: &str, account: &str) -> Result<bool, Fault> {
    let want = format!(in alloc; "0{account}")?;
    tells(alloc, line, PHRASE, &[], want.as_str())
}

#[test]
fn accounts_of_the_standard(rt: HostRuntime) -> Result<(), Fault> {
    assert!(rt; prints(rt.alloc(), CAROL, CAROL_S)?);
    assert!(rt; prints(rt.alloc(), DAVE, DAVE_S)?);
    Ok(())
}

/// Command lines of the mode, and after a bar whether they are a command.
const WORDS: &str = "\
enrol carol 1002 sha1 99 TeSt|yes
enrol _c-1 1 md5 1 0aZ9|yes
enrol carol 4294967294 sha1 9999 abcdefghijklmnop|yes
enrol carol 4294967295 sha1 99 TeSt|no
enrol carol 0 sha1 99 TeSt|no
enrol carol 01002 sha1 99 TeSt|no
enrol Carol 1002 sha1 99 TeSt|no
enrol carol 1002 sha1 0 TeSt|no
enrol carol 1002 sha1 10000 TeSt|no
enrol carol 1002 sha2 99 TeSt|no
enrol carol 1002 sha1 99 Te-St|no
enrol carol 1002 sha1 99 abcdefghijklmnopq|no
enrol carol 1002 sha1 99|no
enrol carol 1002 sha1 99 TeSt more|no
enroll carol 1002 sha1 99 TeSt|no";

/// Whether a line of the table says what its words are.
fn is_read_so(alloc: Global, line: &str) -> Result<bool, AllocError> {
    let Some((words, want)) = line.split_once('|') else {
        return Ok(false);
    };
    Ok(command_of(alloc, words)?.is_some() == (want == "yes"))
}

#[test]
fn words_that_are_commands(rt: HostRuntime) -> Result<(), Fault> {
    for line in WORDS.lines() {
        assert!(rt; is_read_so(rt.alloc(), line)?, "{line}");
    }
    Ok(())
}

/// An account in a line: its name, number, sequence and password.
fn account_line(alloc: Global, account: &Account) -> Result<String, AllocError> {
    let name = std::str::from_utf8(account.name.as_slice()).unwrap_or("");
    let (uid, sequence, password) = (account.uid, account.sequence, account.password);
    let (enabled, grants) = (account.enabled, account.grants.as_slice().len());
    format!(in alloc; "{name} {uid} {sequence} {password:016x} {enabled} {grants}\n")
}

/// The lines of these accounts.
fn lines_of(alloc: Global, accounts: &[Account]) -> Result<String, AllocError> {
    let mut text = String::new(alloc);
    for account in accounts {
        let line = account_line(alloc, account)?;
        text.push_str(line.as_str())?;
    }
    Ok(text)
}

/// Whether a setup that was read has these accounts, a line each, or none where it was refused.
fn has_read(
    alloc: Global,
    read: &Result<Setup, SetupError>,
    want: &str,
) -> Result<bool, AllocError> {
    match read {
        Ok(setup) => Ok(lines_of(alloc, setup.parts().accounts.as_slice())?.as_str() == want),
        Err(_) => Ok(want.is_empty()),
    }
}

/// Whether a file has these accounts.
fn has_accounts(alloc: Global, file: &[u8], want: &str) -> Result<bool, AllocError> {
    has_read(alloc, &read_setup(alloc, file), want)
}

/// Texts, one after the other, and the accounts of a setup of them. After a setup that an operator wrote,
/// with accounts or none, the texts are read as its last accounts.
const BEHIND: &[(&[&str], &str)] = &[
    (&[SETUP, ALICE], "alice 1000 1 7965e05436f5029f true 1\n"),
    (&[SETUP, CAROL_S], "carol 1002 99 87fec7768b73ccf9 true 0\n"),
    (
        &[SETUP, ALICE, CAROL_S, DAVE_S],
        "alice 1000 1 7965e05436f5029f true 1
carol 1002 99 87fec7768b73ccf9 true 0
dave 4294967294 1 7965e05436f5029f true 0
",
    ),
    (&[SETUP, CAROL_S, CAROL_S], ""),
];

/// Texts, one after the other.
fn joined(alloc: Global, texts: &[&str]) -> Result<String, AllocError> {
    let mut file = String::new(alloc);
    for text in texts {
        file.push_str(text)?;
    }
    Ok(file)
}

/// Whether a setup of these texts has these accounts.
fn have_accounts(alloc: Global, texts: &[&str], want: &str) -> Result<bool, AllocError> {
    let file = joined(alloc, texts)?;
    has_accounts(alloc, file.as_bytes(), want)
}

#[test]
fn an_account_behind_a_setup(rt: HostRuntime) -> Result<(), Fault> {
    for (texts, want) in BEHIND {
        assert!(rt; have_accounts(rt.alloc(), texts, want)?, "{want}");
    }
    Ok(())
}

/// The second receiving fails.
const UNRECEIVED: Fail = Fail {
    call: CallKind::Recv,
    number: 2,
    sent: 5,
};

/// The sending fails after five bytes.
const UNSENT: Fail = Fail {
    call: CallKind::Send,
    number: 1,
    sent: 5,
};

/// An input of carol's words, calls that fail, and the status with what is sent.
const INPUTS: &[(&str, &[Fail], &str)] = &[
    ("too short\nThis is a test.\n", &[], "12"),
    ("", &[], "12"),
    (PHRASE, &[UNRECEIVED], "11"),
    (PHRASE, &[UNSENT], "11\n[[ac"),
];

#[test]
fn phrases_and_calls_that_fail(rt: HostRuntime) -> Result<(), Fault> {
    for (input, fails, want) in INPUTS {
        assert!(rt;
            tells(rt.alloc(), CAROL, input, fails, want)?,
            "{want} of {input}"
        );
    }
    assert!(rt; Trouble::OutOfMemory.status() == 9);
    Ok(())
}
