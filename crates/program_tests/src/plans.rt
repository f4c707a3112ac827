ghost use Rattle.std.specs.Prelude.{◌<◌, ◌≤◌};

use drill_plan::*;
use otp_hash::Algo;
use outside_memory::Script;
use policy_model::{Account, Grant, SetupParts};
use request_catalogue::Label;
use std::alloc::{AllocError, Global};
use std::test::*;

/// What the child before the login says that logs `d1` in, in session 2 of the drill of 1: BANNER,
/// CHALLENGE, REPLY, EXPORT.
const LOGIN: &str =
    "010000001000000000000000000000000200000012000000000000000000000064310300000020000000\
    000000000000000030643133386231636230333639376661050000002500000000000000000000004f5453310100000200\
    000308000000000000000000";

/// What the user's child says then: IMPORT, OPEN, WRITE, READ, CLOSE, FINISH.
const FILE: &str =
    "0600000010000000000000000000000009000000160000000000000000000000036e6f74657308000000\
    2100000000000000000000000100000000000000000000006472696c6c070000001e000000000000000000000001000000\
    000000000000000010000a000000140000000000000000000000010000000d000000100000000000000000000000";

/// What a child says that repeats the password of `d2`, in session 511 of the drill of 64.
const REPEAT: &str =
    "02000000120000000000000000000000643203000000200000000000000000000000643561353435\
    326664646639306462640d000000100000000000000000000000";

/// What a child says that exports too early.
const EXPORT: &str = "050000002500000000000000000000004f5453310100000200000308000000000000000000";

/// What a child of `d0` says that breaks off.
const BROKEN: &str =
    "0200000012000000000000000000000064300400000010000000000000000000000002000000160000\
    0000000000000000006e6f626f64790d000000100000";

/// Whether bytes are this in hexadecimal digits.
fn is_hex(alloc: Global, bytes: &[u8], want: &str) -> Result<bool, AllocError> {
    Ok(hex::encode(alloc, bytes)?.as_str() == want)
}

/// Whether a script says this in hexadecimal digits, before the login and as the user's child, and nothing
/// else.
fn is_said(alloc: Global, script: &Script, said: [&str; 2]) -> Result<bool, AllocError> {
    Ok(
        script.client.as_slice().is_empty()
            && is_hex(alloc, script.pre.as_slice(), said[0])?
            && is_hex(alloc, script.user.as_slice(), said[1])?,
    )
}

/// Whether that of a session does.
fn is_said_in(
    alloc: Global,
    scripts: &[Script],
    session: usize,
    said: [&str; 2],
) -> Result<bool, Fail> {
    match scripts.get(session) {
        Some(script) => Ok(is_said(alloc, script, said)?),
        None => Err(Fail::from("a session")),
    }
}

/// Whether that of a session of a worker does in the drill of a number.
fn says(alloc: Global, n: u32, worker: u32, session: usize, said: [&str; 2]) -> Result<bool, Fail>
    requires number { n ≤ 64 }
    requires workers { worker < 4 }
{
    is_said_in(
        alloc,
        drill_scripts(alloc, n, worker)?.as_slice(),
        session,
        said,
    )
}

#[test]
fn sessions_of_each_class(rt: HostRuntime) -> Result<(), Fail> {
    let alloc = rt.alloc();
    assert!(rt; says(alloc, 1, 1, 2, [LOGIN, FILE])?);
    assert!(rt; says(alloc, 64, 2, 511, [REPEAT, ""])?);
    assert!(rt; says(alloc, 64, 3, 511, [EXPORT, ""])?);
    assert!(rt; says(alloc, 7, 0, 0, [BROKEN, ""])?);
    Ok(())
}

/// Whether an account has this name, seed and number, and its password at the sequence 56.
fn is_account(account: &Account, name: &[u8], seed: &[u8], uid: u32, password: u64) -> bool {
    account.name.as_slice() == name
        && account.seed.as_slice() == seed
        && account.uid == uid
        && account.password == password
        && account.sequence == 56
        && account.enabled
}

/// Whether the counts of a setup are those of the drill of 7.
fn counts_seven(parts: &SetupParts) -> bool {
    (parts.workers, parts.connections, parts.requests) == (4, 56, 16)
        && (parts.tries, parts.hold) == (3, 30_000)
}

/// Whether these are its accounts.
fn are_its_accounts(accounts: &[Account]) -> bool {
    match accounts {
        [first, second, third, last] => {
            is_account(first, b"d0", b"drill0", 2_000, 0xF05C_5EAF_2978_BFEA)
                && is_account(last, b"d3", b"drill3", 2_003, 0xAB91_6E35_805D_959B)
                && (third.algo, last.algo) == (Algo::Md5, Algo::Sha1)
                && are_its_grants(second.grants.as_slice())
        }
        _ => false,
    }
}

/// Whether these are the grants of one.
fn are_its_grants(grants: &[Grant]) -> bool {
    match grants {
        [grant] => (Some(grant.name), grant.mode) == (Label::of(b"notes"), 3),
        _ => false,
    }
}

/// Whether a setup is that of the drill of 7.
fn is_of_seven(parts: &SetupParts) -> bool {
    counts_seven(parts) && are_its_accounts(parts.accounts.as_slice())
}

/// Whether the drill of 7 has that setup.
fn is_seven_set_up(alloc: Global) -> Result<bool, Fail> {
    Ok(is_of_seven(drill_setup(alloc, 7)?.parts()))
}

#[test]
fn the_setup_of_seven(rt: HostRuntime) -> Result<(), Fail> {
    assert!(rt; is_seven_set_up(rt.alloc())?);
    Ok(())
}
