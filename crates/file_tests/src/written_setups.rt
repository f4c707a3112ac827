ghost use Rattle.std.specs.Prelude.{◌≡◌, ◌<◌, length};

use account_file::read_setup;
use account_writer::*;
use otp_ledger::Ledger;
use policy_model::{Account, Decision, Setup};
use std::alloc::{AllocError, Global};
use std::test::*;

/// A setup file with a comment and keys in another order, and with keys that are left out: frames,
/// information, whether alice is enabled, her grants, and the salt.
const FILE: &str = "# users
hold = 30000
socket = \"s\"
launcher = \"l\"
vault = \"v\"
words = \"w\"
workers = 2
connections = 4
requests = 64
tries = 3
[[account]]
name = \"alice\"
uid = 1000
algorithm = \"md5\"
seed = \"TeSt\"
sequence = 1
password = \"7965E05436F5029F\"
[[account]]
name = \"bob\"
uid = 1001
algorithm = \"sha1\"
seed = \"test\"
sequence = 9
password = \"63d936639734385b\"
enabled = false
grants = [{ name = \"notes\", mode = 3 }, { name = \"log\", mode = 1 }]
";

/// The password 0 of `This is a test.` with the seed `test` by MD5 (RFC 2289, appendix C).
const LAST: u64 = 0x9E87_6134_D904_99DD;

/// The setup of a text.
fn setup_of(alloc: Global, bytes: &[u8]) -> Result<Setup, Fail> {
    Ok(read_setup(alloc, bytes).ok().ok_or("a setup")?)
}

/// Whether alice is taken over by session 2, which spends the last password of her chain.
fn takes_over(ledger: &mut Ledger) -> bool
    requires { 0 < length ledger.old.accounts }
    ensures { ledger.new.setup ≡ ledger.old.setup }
{
    ledger.hold(0, 1, 1_000);
    ledger.hold(0, 2, 31_000);
    let spent = spends(ledger, 2);
    ledger.release(0, 2);
    spent
}

/// Whether a session may spend the last password, and it is spent.
fn spends(ledger: &mut Ledger, session: u32) -> bool
    requires { 0 < length ledger.old.accounts }
    ensures setup { ledger.new.setup ≡ ledger.old.setup }
    ensures accounts { length ledger.new.accounts ≡ length ledger.old.accounts }
{
    match ledger.judge_reply(0, session, None, Some(LAST)) {
        Decision::Permit { value } if ledger.current(0).sequence > 0 && !ledger.is_full() => {
            ledger.spend(0, value);
            true
        }
        _ => false,
    }
}

/// The file of a setup after the takeover.
fn written_after(alloc: Global, setup: &Setup) -> Result<Vec<u8>, Fail> {
    let mut ledger = Ledger::new(alloc, setup, 8)?;
    if ledger.len() == 0 || !takes_over(&mut ledger) {
        return Err(Fail::from("a takeover"));
    }
    Ok(write_accounts(alloc, setup, &ledger)?)
}

/// The file of a text after the takeover.
fn written(alloc: Global, text: &str) -> Result<Vec<u8>, Fail> {
    written_after(alloc, &setup_of(alloc, text.as_bytes())?)
}

/// A line for each account: its user number, sequence, password, whether it is enabled, and how many
/// grants it has.
fn lines_of(alloc: Global, accounts: &[Account]) -> Result<String, AllocError> {
    let mut text = String::new(alloc);
    for account in accounts {
        let line = line_of(alloc, account)?;
        text.push_str(line.as_str())?;
    }
    Ok(text)
}

fn line_of(alloc: Global, account: &Account) -> Result<String, AllocError> {
    let (uid, sequence, password) = (account.uid, account.sequence, account.password);
    let (enabled, grants) = (account.enabled, account.grants.as_slice().len());
    format!(in alloc; "{uid} {sequence} {password:016x} {enabled} {grants}\n")
}

/// The accounts of a setup.
fn lines_in(alloc: Global, setup: &Setup) -> Result<String, Fail> {
    Ok(lines_of(alloc, setup.parts().accounts.as_slice())?)
}

/// The accounts of a file.
fn accounts_in(alloc: Global, bytes: &[u8]) -> Result<String, Fail> {
    lines_in(alloc, &setup_of(alloc, bytes)?)
}

/// Whether two texts are the same.
fn same(text: &String, other: &str) -> bool {
    text.as_str() == other
}

/// Alice has spent her last password, and Bob none.
const ACCOUNTS: &str = "1000 0 9e876134d90499dd true 0
1001 9 63d936639734385b false 2
";

#[test]
fn the_last_password_is_read_back(rt: HostRuntime) -> Result<(), Fail> {
    let bytes = written(rt.alloc(), FILE)?;
    let accounts = accounts_in(rt.alloc(), bytes.as_slice())?;
    assert!(rt; same(&accounts, ACCOUNTS));
    Ok(())
}

/// A file between a comment and an empty line.
fn padded(alloc: Global, bytes: &[u8]) -> Result<Vec<u8>, AllocError> {
    let mut all = Vec::from_slice(alloc, b"#\n")?;
    all.extend_from_slice(bytes)?;
    all.push(b'\n')?;
    Ok(all)
}

/// What stands around a file is passed over, so what is read of bytes doesn't say that they are the
/// file that was written.
#[test]
fn a_comment_and_an_empty_line_are_passed_over(rt: HostRuntime) -> Result<(), Fail> {
    let bytes = written(rt.alloc(), FILE)?;
    let all = padded(rt.alloc(), bytes.as_slice())?;
    let accounts = accounts_in(rt.alloc(), all.as_slice())?;
    assert!(rt; same(&accounts, ACCOUNTS));
    Ok(())
}

/// Lines that the file has after the takeover: the keys that were left out, the seed in lower case,
/// the new password.
const LINES: &str = "banner = \"\"
frames = \"narrow\"
info = []
salt = \"decoy\"
seed = \"test\"
sequence = 0
password = \"9e876134d90499dd\"
enabled = true
grants = []";

/// Whether a text has a line.
fn has_line(text: &str, line: &str) -> bool {
    for other in text.lines() {
        if other == line {
            return true;
        }
    }
    false
}

/// Whether a text has all these lines.
fn has_lines(bytes: &[u8], lines: &str) -> bool {
    let Ok(text) = std::str::from_utf8(bytes) else {
        return false;
    };
    for line in lines.lines() {
        if !has_line(text, line) {
            return false;
        }
    }
    true
}

#[test]
fn all_keys_are_written(rt: HostRuntime) -> Result<(), Fail> {
    let bytes = written(rt.alloc(), FILE)?;
    assert!(rt; has_lines(bytes.as_slice(), LINES));
    Ok(())
}

/// 64 grants with names of 64 bytes.
fn greatest_grants(alloc: Global) -> Result<String, AllocError> {
    let mut text = String::new(alloc);
    for number in 0..64u32 {
        let grant = format!(in alloc; "{{ name = \"f{number:063}\", mode = 3 }}, ")?;
        text.push_str(grant.as_str())?;
    }
    Ok(text)
}

/// A setup file of 1,024 accounts with names of 32 bytes and those grants.
fn greatest_file(alloc: Global) -> Result<String, AllocError> {
    let grants = greatest_grants(alloc)?;
    let (top, _) = FILE.split_once("[[account]]").unwrap_or((FILE, ""));
    let mut text = String::from_str(alloc, top)?;
    for number in 0..1_024u32 {
        let uid = 4_294_966_000 + number;
        let account = format!(in alloc;
            "[[account]]\nname = \"a{number:031}\"\nuid = {uid}\n{ACCOUNT}"
        )?;
        text.push_str(account.as_str())?;
        text.push_str(grants.as_str())?;
        text.push_str("]\n")?;
    }
    Ok(text)
}

/// What stands in each of these accounts besides its name, user number and grants.
const ACCOUNT: &str = "algorithm = \"sha1\"
seed = \"abcdefghijklmnop\"
sequence = 9999
password = \"63d936639734385b\"
enabled = false
grants = [";

/// The file of a setup in which nothing has happened.
fn rewritten_from(alloc: Global, setup: &Setup) -> Result<Vec<u8>, Fail> {
    let ledger = Ledger::new(alloc, setup, 0)?;
    Ok(write_accounts(alloc, setup, &ledger)?)
}

/// The file of a text, in which nothing has happened.
fn rewritten(alloc: Global, text: &str) -> Result<Vec<u8>, Fail> {
    rewritten_from(alloc, &setup_of(alloc, text.as_bytes())?)
}

/// Whether there are 1,024 accounts, of which the last has 64 grants.
fn are_greatest(accounts: &[Account]) -> bool {
    match accounts.last() {
        None => false,
        Some(last) => accounts.len() == 1_024 && last.grants.as_slice().len() == 64,
    }
}

/// Whether a file is the greatest one.
fn is_greatest(alloc: Global, bytes: &[u8]) -> Result<bool, Fail> {
    Ok(are_greatest(setup_of(alloc, bytes)?.parts().accounts.as_slice()))
}

/// The greatest file as it is written.
fn greatest_rewritten(alloc: Global) -> Result<Vec<u8>, Fail> {
    let text = greatest_file(alloc)?;
    rewritten(alloc, text.as_str())
}

/// The greatest setup is within what a reader of setup files takes.
#[test]
fn the_greatest_file(rt: HostRuntime) -> Result<(), Fail> {
    let bytes = greatest_rewritten(rt.alloc())?;
    assert!(rt; bytes.as_slice().len() <= 8_388_608);
    assert!(rt; is_greatest(rt.alloc(), bytes.as_slice())?);
    Ok(())
}
