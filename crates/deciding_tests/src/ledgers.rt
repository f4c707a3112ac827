ghost use Rattle.std.specs.Prelude.{◌<◌, length};

use super::asked::holds;
use super::said::{Said, decision_of};
use otp_extended::parts_with;
use otp_hash::{Algo, Seed, step};
use otp_ledger::*;
use policy_model::{Account, Accounts, Decision, Grants, Setup, SetupParts};
use request_catalogue::Name;
use std::alloc::{AllocError, Global};
use std::test::Fail;

/// The password 0 of `This is a test.` with the seed `test` by MD5, and the one before it (RFC
/// 2289, appendix C).
const LAST: u64 = 0x9E87_6134_D904_99DD;

const STORED: u64 = 0x7965_E054_36F5_029F;

/// A user with a chain by MD5 of the seed `test`.
#[derive(Clone, Copy)]
struct User {
    name: &'static str,
    uid: u32,
    sequence: u16,
    password: u64,
    enabled: bool,
}

/// The account of a user.
fn account_of(alloc: Global, user: &User) -> Option<Account> {
    let name = Name::of(user.name.as_bytes())?;
    let seed = Seed::of(b"test")?;
    Some(Account {
        name,
        uid: user.uid,
        algo: Algo::Md5,
        seed,
        sequence: user.sequence,
        password: user.password,
        enabled: user.enabled,
        grants: Grants::of(Vec::new(alloc)),
    })
}

/// The accounts of users.
fn accounts_of(alloc: Global, users: &[User]) -> Result<Accounts, AllocError> {
    let mut accounts = Vec::new(alloc);
    for user in users {
        if let Some(account) = account_of(alloc, user) {
            accounts.push(account)?;
        }
    }
    Ok(Accounts::of(accounts))
}

/// The parts of a setup with these users, by those of another.
fn parts_of(alloc: Global, parts: &SetupParts, users: &[User]) -> Result<SetupParts, AllocError> {
    let accounts = accounts_of(alloc, users)?;
    let mut parts = parts_with(alloc, parts, accounts)?;
    parts.workers = 2;
    Ok(parts)
}

/// What is done with an account, or is so of it.
#[derive(Clone, Copy)]
enum Step {
    /// What is decided on a challenge of a session at a time.
    Challenge(u32, u64, Said),
    /// A session takes the user at a time.
    Hold(u32, u64),
    /// A session gives the user up.
    Release(u32),
    /// A session may spend this password, and does.
    Spend(u32, u64),
    /// What is decided on a session's reply with these readings of its text.
    Reply(u32, Option<u64>, Option<u64>, Said),
    /// The account's sequence and password.
    Current(u16, u64),
}

/// A user and a step.
type Line = (&'static str, Step);

/// Whether the session may spend the password, and it is spent.
fn spend(ledger: &mut Ledger, account: u32, session: u32, password: u64) -> bool
    requires { account < length ledger.old.accounts }
{
    match ledger.judge_reply(account, session, None, Some(password)) {
        Decision::Permit { value } if ledger.current(account).sequence > 0 && !ledger.is_full() => {
            ledger.spend(account, value);
            true
        }
        _ => false,
    }
}

/// True, once a session has taken an account.
fn is_held(ledger: &mut Ledger, account: u32, session: u32, now: u64) -> bool
    requires { account < length ledger.old.accounts }
{
    ledger.hold(account, session, now);
    true
}

/// True, once a session has given an account up.
fn is_released(ledger: &mut Ledger, account: u32, session: u32) -> bool
    requires { account < length ledger.old.accounts }
{
    ledger.release(account, session);
    true
}

/// Whether an account has this sequence and password.
fn is_current(ledger: &Ledger, account: u32, sequence: u16, password: u64) -> bool
    requires { account < length ledger.now.accounts }
{
    let current = ledger.current(account);
    current.sequence == sequence && current.password == password
}

/// Whether an account's step holds: what it says is done, or is so.
fn account_holds(ledger: &mut Ledger, account: u32, step: Step) -> bool
    requires { account < length ledger.old.accounts }
{
    match step {
        Step::Challenge(..) => false,
        Step::Hold(session, now) => is_held(ledger, account, session, now),
        Step::Release(session) => is_released(ledger, account, session),
        Step::Spend(session, password) => spend(ledger, account, session, password),
        Step::Reply(session, words, hex, want) => {
            ledger.judge_reply(account, session, words, hex) == decision_of(want)
        }
        Step::Current(sequence, password) => is_current(ledger, account, sequence, password),
    }
}

/// Whether a user's step holds.
fn step_holds(ledger: &mut Ledger, user: &Name, step: Step) -> bool {
    if let Step::Challenge(session, now, want) = step {
        return ledger.judge_challenge(user, session, now) == decision_of(want);
    }
    match ledger.find(user) {
        None => false,
        Some(account) => account_holds(ledger, account, step),
    }
}

/// Whether a line holds.
fn line_holds(ledger: &mut Ledger, line: &Line) -> bool {
    let (user, step) = line;
    match Name::of(user.as_bytes()) {
        Some(user) => step_holds(ledger, &user, *step),
        None => false,
    }
}

/// Whether each line holds, one after the other.
fn lines_hold(ledger: &mut Ledger, lines: &[Line]) -> bool {
    for line in lines {
        if !line_holds(ledger, line) {
            return false;
        }
    }
    true
}

/// Whether each line holds, and these are the accepted passwords then.
fn leaves(ledger: &mut Ledger, lines: &[Line], kept: &[Kept]) -> bool {
    lines_hold(ledger, lines) && ledger.kept() == kept
}

/// What is asked of a ledger.
#[derive(Clone, Copy)]
enum Asked<'a> {
    /// Whether each line holds, and these are the accepted passwords then.
    Leaves(&'a [Line], &'a [Kept]),
    /// Whether it accepts these passwords after the two stored ones, and lends just these, as they rise.
    Keeps(&'a [Kept], &'a [Kept]),
}

/// Whether that is so of a ledger.
fn is_so(ledger: &mut Ledger, asked: Asked<'_>) -> bool {
    match asked {
        Asked::Leaves(lines, kept) => leaves(ledger, lines, kept),
        Asked::Keeps(all, rising) => keeps_all(ledger, all, rising),
    }
}

/// Whether it is so of a setup's ledger, with room for all passwords that a test accepts.
fn is_so_over(alloc: Global, setup: &Setup, asked: Asked<'_>) -> bool {
    match Ledger::new(alloc, setup, 2_200) {
        Ok(mut ledger) => is_so(&mut ledger, asked),
        Err(_) => false,
    }
}

/// Whether it is so of that of a setup that is in range.
fn is_so_in(alloc: Global, made: &Option<Setup>, asked: Asked<'_>) -> bool {
    match made {
        Some(setup) => is_so_over(alloc, setup, asked),
        None => false,
    }
}

/// Whether it is so of these users, in a setup by the parts of another.
fn is_so_by(
    alloc: Global,
    parts: &SetupParts,
    users: &[User],
    asked: Asked<'_>,
) -> Result<bool, AllocError> {
    let made = Setup::of(parts_of(alloc, parts, users)?).ok();
    Ok(is_so_in(alloc, &made, asked))
}

/// Whether it is so of these users, in a setup that holds a user for half a minute.
fn is_so_of(alloc: Global, users: &[User], asked: Asked<'_>) -> Result<bool, AllocError> {
    is_so_by(alloc, Setup::plain(alloc)?.parts(), users, asked)
}

/// The user with the last password of a chain.
const ALICE: User = User {
    name: "alice",
    uid: 1000,
    sequence: 1,
    password: STORED,
    enabled: true,
};

/// A takeover, the last password of a chain, and what is left of it.
const LAST_PASSWORD: &[Line] = &[
    ("alice", Step::Challenge(1, 1000, Said::Permit(0))),
    ("alice", Step::Hold(1, 1000)),
    ("alice", Step::Challenge(2, 30999, Said::Deny(12, 1))),
    ("alice", Step::Challenge(2, 31000, Said::Permit(0))),
    ("alice", Step::Hold(2, 31000)),
    ("alice", Step::Reply(1, None, Some(LAST), Said::Deny(13, 2))),
    ("alice", Step::Reply(2, None, None, Said::Deny(14, 0))),
    (
        "alice",
        Step::Reply(2, Some(STORED), None, Said::Deny(15, 0)),
    ),
    ("alice", Step::Reply(2, Some(0), None, Said::Deny(16, 0))),
    (
        "alice",
        Step::Reply(2, Some(STORED), Some(LAST), Said::Permit(LAST)),
    ),
    (
        "alice",
        Step::Reply(2, None, Some(LAST), Said::Permit(LAST)),
    ),
    ("alice", Step::Spend(2, LAST)),
    ("alice", Step::Release(2)),
    ("alice", Step::Current(0, LAST)),
    ("alice", Step::Challenge(3, 31001, Said::Permit(10532))),
];

/// The stored password of the first account, and its last.
const FIRST_STORED: Kept = Kept {
    account: 0,
    password: STORED,
};

const FIRST_LAST: Kept = Kept {
    account: 0,
    password: LAST,
};

#[test]
fn the_last_password(rt: HostRuntime) -> Result<(), Fail> {
    let kept = [FIRST_STORED, FIRST_LAST];
    holds(is_so_of(rt.alloc(), &[ALICE], Asked::Leaves(LAST_PASSWORD, &kept))?)
}

/// Zoe and bob stand out of order and have one chain; carol is disabled, nobody has the name dora.
const FOUR_USERS: &[Line] = &[
    ("zoe", Step::Challenge(1, 5, Said::Permit(1))),
    ("zoe", Step::Hold(1, 5)),
    ("bob", Step::Challenge(1, 5, Said::Permit(0))),
    ("bob", Step::Hold(2, u64::MAX)),
    ("bob", Step::Challenge(3, u64::MAX, Said::Deny(12, 2))),
    ("bob", Step::Challenge(2, 0, Said::Permit(0))),
    ("carol", Step::Challenge(3, 5, Said::Permit(10148))),
    ("dora", Step::Challenge(3, 5, Said::Permit(10754))),
    ("bob", Step::Release(1)),
    ("bob", Step::Reply(2, None, Some(LAST), Said::Permit(LAST))),
    ("bob", Step::Spend(2, LAST)),
    ("bob", Step::Release(2)),
    ("bob", Step::Reply(2, None, Some(LAST), Said::Deny(13, 2))),
    ("bob", Step::Current(0, LAST)),
    ("zoe", Step::Current(2, STORED)),
    ("zoe", Step::Reply(1, Some(LAST), None, Said::Permit(LAST))),
    ("zoe", Step::Spend(1, LAST)),
    ("zoe", Step::Hold(4, 6)),
    (
        "zoe",
        Step::Reply(4, Some(LAST), Some(STORED), Said::Deny(15, 0)),
    ),
    ("zoe", Step::Challenge(5, 6, Said::Deny(12, 4))),
    ("zoe", Step::Release(4)),
    ("zoe", Step::Challenge(5, 6, Said::Permit(0))),
];

/// The four users.
const USERS: &[User] = &[
    User {
        name: "zoe",
        sequence: 2,
        ..ALICE
    },
    User {
        uid: 1001,
        sequence: 0,
        ..ALICE
    },
    User {
        name: "carol",
        uid: 1002,
        enabled: false,
        ..ALICE
    },
    User {
        name: "bob",
        uid: 1003,
        ..ALICE
    },
];

/// Their accepted passwords after all lines.
const KEPT: &[Kept] = &[
    FIRST_STORED,
    FIRST_LAST,
    Kept {
        account: 1,
        ..FIRST_STORED
    },
    Kept {
        account: 2,
        ..FIRST_STORED
    },
    Kept {
        account: 3,
        ..FIRST_STORED
    },
    Kept {
        account: 3,
        ..FIRST_LAST
    },
];

#[test]
fn several_users(rt: HostRuntime) -> Result<(), Fail> {
    holds(is_so_of(rt.alloc(), USERS, Asked::Leaves(FOUR_USERS, KEPT))?)
}

/// How many passwords each of two accounts accepts: together more than twice as many as the small array holds.
const MANY: u16 = 1_100;

/// So many passwords in the order of acceptance, each the hash of the next, and the stored one before them.
fn chain_of(alloc: Global, last: u64) -> Result<Vec<u64>, AllocError> {
    let mut passwords = Vec::new(alloc);
    let mut password = last;
    for _ in 0..=MANY {
        passwords.push(password)?;
        password = step(Algo::Md5, password);
    }
    passwords.reverse();
    Ok(passwords)
}

/// A user for each of two chains, who stores the chain's first password.
fn two_chained(first: u64, second: u64) -> [User; 2] {
    let alice = User {
        sequence: MANY,
        password: first,
        ..ALICE
    };
    let bob = User {
        name: "bob",
        uid: 1001,
        password: second,
        ..alice
    };
    [alice, bob]
}

/// A password that an account accepts.
fn kept(account: u32, password: u64) -> Kept {
    Kept { account, password }
}

/// The passwords of two chains in turn.
fn in_turn(alloc: Global, first: &[u64], second: &[u64]) -> Result<Vec<Kept>, AllocError> {
    let mut all = Vec::new(alloc);
    for (one, other) in first.iter().zip(second) {
        all.extend_from_slice(&[kept(0, *one), kept(1, *other)])?;
    }
    Ok(all)
}

/// Whether the ledger says of a password that it was accepted.
fn has_accepted(ledger: &Ledger, entry: &Kept) -> bool {
    (entry.account as usize) < ledger.len() && ledger.was_accepted(entry.account, entry.password)
}

/// Whether a password is accepted that wasn't before.
fn accepts(ledger: &mut Ledger, entry: Kept) -> bool {
    if (entry.account as usize) >= ledger.len() || has_accepted(ledger, &entry) {
        return false;
    }
    ledger.hold(entry.account, 1, 0);
    (entry.account as usize) < ledger.len() && spend(ledger, entry.account, 1, entry.password)
}

/// Whether all passwords after the two stored ones are accepted, one after the other.
fn accepts_all(ledger: &mut Ledger, all: &[Kept]) -> bool {
    for entry in all.iter().skip(2) {
        if !accepts(ledger, *entry) {
            return false;
        }
    }
    true
}

/// Whether the ledger says of all that they were accepted.
fn has_all(ledger: &Ledger, all: &[Kept]) -> bool {
    for entry in all {
        if !has_accepted(ledger, entry) {
            return false;
        }
    }
    true
}

/// Whether the ledger accepts these passwords, and lends just these, as they rise.
fn keeps_all(ledger: &mut Ledger, all: &[Kept], rising: &[Kept]) -> bool {
    accepts_all(ledger, all)
        && has_all(ledger, all)
        && ledger.kept() == rising
        && has_all(ledger, all)
}

/// These passwords, rising.
fn rising_of(alloc: Global, all: &[Kept]) -> Result<Vec<Kept>, AllocError> {
    let mut rising = Vec::from_slice(alloc, all)?;
    rising.sort()?;
    Ok(rising)
}

/// Whether a ledger of these users keeps all these passwords.
fn all_are_kept(alloc: Global, users: &[User], all: &[Kept]) -> Result<bool, AllocError> {
    let rising = rising_of(alloc, all)?;
    is_so_of(alloc, users, Asked::Keeps(all, rising.as_slice()))
}

/// Whether a ledger of two users keeps all passwords of their chains.
fn chains_are_kept(alloc: Global, first: &[u64], second: &[u64]) -> Result<bool, AllocError> {
    match (first.first(), second.first()) {
        (Some(one), Some(other)) => {
            let all = in_turn(alloc, first, second)?;
            all_are_kept(alloc, &two_chained(*one, *other), all.as_slice())
        }
        _ => Ok(false),
    }
}

/// Whether that is so of two chains.
fn two_are_kept(alloc: Global) -> Result<bool, AllocError> {
    chains_are_kept(alloc, &chain_of(alloc, LAST)?, &chain_of(alloc, 1)?)
}

#[test]
fn more_passwords_than_the_small_array_holds(rt: HostRuntime) -> Result<(), Fail> {
    holds(two_are_kept(rt.alloc())?)
}
