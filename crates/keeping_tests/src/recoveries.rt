use ledger_journal::*;
use otp_extended::parts_with;
use otp_hash::{Algo, Seed};
use otp_ledger::Ledger;
use policy_model::{Account, Accounts, Grants, Setup, SetupParts};
use request_catalogue::Name;
use std::alloc::{AllocError, Global};
use std::test::*;

/// The first lines of a whole login: bob's reply is accepted.
const LOGIN: &str = "1 w0 s1 open permit
2 w0 s1 banner permit
3 w0 s1 write 0 0 10 permit
4 w0 s1 read 0 0 512 permit
5 w0 s1 challenge bob 1000 permit 0
6 w0 s1 write 0 0 16 permit
7 w0 s1 reply permit bb9e6ae1979d8ff4";

/// Two users log in beside one another, and a third session is challenged by a decoy.
const TWO: &str = "1 w0 s1 open permit
2 w1 s2 open permit
3 w0 s1 challenge bob 1000 permit 0
4 w1 s2 challenge alice 1000 permit 0
5 w1 s2 reply permit 9e876134d90499dd
6 w0 s1 reply permit bb9e6ae1979d8ff4
7 w0 s1 end child-ended permit
8 w0 s3 open permit
9 w0 s3 challenge bob 1001 permit 10412
10 w0 s3 reply deny 16 0";

/// The third line doesn't read, the fourth has another number.
const UNREAD: &str = "1 w0 s1 open permit
2 w0 s1 banner permit
3 w0 s1 write 0 0 permit
5 w0 s1 read 0 0 512 permit";

const MISCOUNTED: &str = "1 w0 s1 open permit
3 w0 s1 banner permit";

/// A password that doesn't hash to the current one.
const WRONG: &str = "1 w0 s1 open permit
2 w0 s1 challenge bob 1000 permit 0
3 w0 s1 reply permit 0000000000000001
4 w0";

/// The password of bob's chain, after a decoy.
const DECOYED: &str = "1 w0 s1 open permit
2 w0 s1 challenge bob 1000 permit 10000
3 w0 s1 reply permit bb9e6ae1979d8ff4";

/// It is challenged for by another session, by a denied CHALLENGE, or for nobody's account.
const ELSEWHERE: &str = "1 w0 s1 open permit
2 w0 s2 challenge bob 1000 permit 0
3 w0 s1 challenge bob 1000 deny 12 2
4 w0 s1 reply permit bb9e6ae1979d8ff4";

const NOBODY: &str = "1 w0 s1 open permit
2 w0 s1 challenge bob 1000 permit 0
3 w0 s1 challenge carol 1000 permit 0
4 w0 s1 reply permit bb9e6ae1979d8ff4";

/// It is accepted twice.
const TWICE: &str = "1 w0 s1 challenge bob 1000 permit 0
2 w0 s1 reply permit bb9e6ae1979d8ff4
3 w0 s2 challenge bob 1000 permit 0
4 w0 s2 reply permit bb9e6ae1979d8ff4";

/// It is accepted, and the line after it doesn't read.
const ENDLESS: &str = "1 w0 s1 challenge bob 1000 permit 0
2 w0 s1 reply permit bb9e6ae1979d8ff4
3 w0 s1 end";

/// A name and a number, the algorithm, and the place and the password of the chain.
type User = (&'static str, u32, Algo, (u16, u64));

/// The password 1 of `This is a test.` with the seed `test` by SHA-1, and the one before it (RFC 2289,
/// appendix C); by MD5 they are alice's.
const STORED: u64 = 0x63D9_3663_9734_385B;

const LAST: u64 = 0xBB9E_6AE1_979D_8FF4;

/// Alice, at the number 1 of her chain.
const ALICE: User = ("alice", 1_000, Algo::Md5, (1, 0x7965_E054_36F5_029F));

/// A user's account without grants.
fn account_of(alloc: Global, user: &User) -> Result<Account, Fail> {
    let (name, uid, algo, (sequence, password)) = *user;
    Ok(Account {
        name: Name::of(name.as_bytes()).ok_or("a name")?,
        uid,
        algo,
        seed: Seed::of(b"test").ok_or("a seed")?,
        sequence,
        password,
        enabled: true,
        grants: Grants::of(Vec::new(alloc)),
    })
}

/// The accounts of these users.
fn accounts_of(alloc: Global, users: &[User]) -> Result<Accounts, Fail> {
    let mut items = Vec::new(alloc);
    for user in users {
        items.push(account_of(alloc, user)?)?;
    }
    Ok(Accounts::of(items))
}

/// The parts of a setup of alice and bob, whose chain is at this place and password, else those of another.
fn parts_of(alloc: Global, parts: &SetupParts, chain: (u16, u64)) -> Result<SetupParts, Fail> {
    let bob = ("bob", 1_001, Algo::Sha1, chain);
    let accounts = accounts_of(alloc, &[bob, ALICE])?;
    Ok(parts_with(alloc, parts, accounts)?)
}

/// A setup of both for two workers, by the parts of another.
fn setup_by(alloc: Global, parts: &SetupParts, chain: (u16, u64)) -> Result<Setup, Fail> {
    let mut parts = parts_of(alloc, parts, chain)?;
    parts.workers = 2;
    parts.connections = 4;
    Ok(Setup::of(parts).ok().ok_or("in range")?)
}

/// A setup of both for two workers.
fn with_bob(alloc: Global, chain: (u16, u64)) -> Result<Setup, Fail> {
    setup_by(alloc, Setup::plain(alloc)?.parts(), chain)
}

/// Appends an opened record.
fn push_record(image: &mut Vec<u8>, bytes: &[u8]) -> Result<(), AllocError> {
    let len = u16::try_from(bytes.len()).unwrap_or(u16::MAX);
    image.push(1)?;
    image.extend_from_slice(&len.to_le_bytes())?;
    image.extend_from_slice(bytes)?;
    Ok(())
}

/// The image of a log of these lines.
fn image_of(alloc: Global, text: &str) -> Result<Vec<u8>, AllocError> {
    let mut image = Vec::from_slice(alloc, b"OTJ1")?;
    for line in text.lines() {
        let mut with_end = String::from_str(alloc, line)?;
        with_end.push_str("\n")?;
        push_record(&mut image, with_end.as_str().as_bytes())?;
    }
    image.push(0)?;
    Ok(image)
}

/// What a log brings back, with bob's sequence and password.
#[derive(Clone, Copy)]
struct Back {
    lines: u32,
    accepted: u32,
    already: bool,
    sequence: u16,
    password: u64,
}

/// Whether the first account stands so.
fn stands(ledger: &Ledger, back: Back) -> bool {
    if ledger.len() == 0 {
        return false;
    }
    let current = ledger.current(0);
    current.sequence == back.sequence && current.password == back.password
}

/// Whether a recovery brought this back.
fn is_back(recovered: &Result<Recovered, RecoverError>, back: Back) -> bool {
    match recovered {
        Ok(r) => {
            r.lines == back.lines
                && r.accepted == back.accepted
                && r.already == back.already
                && stands(&r.ledger, back)
        }
        Err(_) => false,
    }
}

/// Whether a recovery ended by this error.
fn is_error(recovered: &Result<Recovered, RecoverError>, error: RecoverError) -> bool {
    match recovered {
        Ok(_) => false,
        Err(given) => *given == error,
    }
}

/// Whether a recovery brought nothing back.
fn is_nothing(recovered: &Result<Recovered, RecoverError>) -> bool {
    match recovered {
        Ok(r) => r.lines == 0 && r.accepted == 0 && !r.already,
        Err(_) => false,
    }
}

/// What a recovery has to come to.
#[derive(Clone, Copy)]
enum Want {
    Back(Back),
    Nothing,
    Error(RecoverError),
}

/// Whether it came to that.
fn is_wanted(recovered: &Result<Recovered, RecoverError>, want: Want) -> bool {
    match want {
        Want::Back(back) => is_back(recovered, back),
        Want::Nothing => is_nothing(recovered),
        Want::Error(error) => is_error(recovered, error),
    }
}

/// Whether the recovery from an image comes to that.
fn comes_to(alloc: Global, setup: &Setup, image: &[u8], want: Want) -> bool {
    is_wanted(&recover(alloc, setup, image), want)
}

/// Whether the recovery from a log comes to that.
fn log_comes_to(alloc: Global, setup: &Setup, text: &str, want: Want) -> bool {
    match image_of(alloc, text) {
        Ok(image) => comes_to(alloc, setup, image.as_slice(), want),
        Err(_) => false,
    }
}

/// Whether a log brings this back.
fn brings(alloc: Global, setup: &Setup, text: &str, back: Back) -> bool {
    log_comes_to(alloc, setup, text, Want::Back(back))
}

/// Whether the first fault of a log is in this place.
fn is_first(alloc: Global, setup: &Setup, text: &str, number: u32) -> bool {
    let error = RecoverError::Line { number };
    log_comes_to(alloc, setup, text, Want::Error(error))
}

/// Whether an image is that of no log.
fn is_no_log(alloc: Global, setup: &Setup, image: &[u8]) -> bool {
    comes_to(alloc, setup, image, Want::Error(RecoverError::NoLog))
}

/// Whether an image has no lines.
fn is_empty(alloc: Global, setup: &Setup, image: &[u8]) -> bool {
    comes_to(alloc, setup, image, Want::Nothing)
}

/// What so many lines bring back of bob's login.
fn with_login(lines: u32, accepted: u32, already: bool) -> Back {
    Back {
        lines,
        accepted,
        already,
        sequence: 0,
        password: LAST,
    }
}

/// Whether both logs bring their logins back.
fn are_brought_back(alloc: Global, setup: &Setup) -> bool {
    brings(alloc, setup, LOGIN, with_login(7, 1, false))
        && brings(alloc, setup, TWO, with_login(10, 2, false))
}

/// Whether what the setup has already counts as accepted.
fn stay(alloc: Global, setup: &Setup) -> bool {
    brings(alloc, setup, LOGIN, with_login(7, 1, true))
        && brings(alloc, setup, TWO, with_login(10, 2, false))
        && brings(alloc, setup, TWICE, with_login(4, 2, true))
        && is_first(alloc, setup, ENDLESS, 3)
}

/// Images that are no logs.
const NO_LOGS: &[&[u8]] = &[
    b"OTJ2\x00",
    b"OTJ1",
    b"OTJ1\x01\x00",
    b"OTJ1\x01\x02\x00\x0a",
    b"OTJ1\x01\x02\x00\x0a\x0a",
];

/// Whether all of them are none.
fn are_no_logs(alloc: Global, setup: &Setup) -> bool {
    for image in NO_LOGS {
        if !is_no_log(alloc, setup, image) {
            return false;
        }
    }
    true
}

/// Whether these images are no logs, or have no lines.
fn have_no_records(alloc: Global, setup: &Setup) -> bool {
    are_no_logs(alloc, setup)
        && is_empty(alloc, setup, b"OTJ1\x00")
        && is_empty(alloc, setup, b"OTJ1\xff\x01\x01")
}

/// Logs, and where each has its first fault.
const FAULTY: &[(&str, u32)] = &[
    (UNREAD, 3),
    (MISCOUNTED, 2),
    (WRONG, 3),
    (DECOYED, 3),
    (ELSEWHERE, 4),
    (NOBODY, 4),
    (TWICE, 4),
];

/// Whether each log has its first fault where it says.
fn are_faulty(alloc: Global, setup: &Setup) -> bool {
    for (text, number) in FAULTY {
        if !is_first(alloc, setup, text, *number) {
            return false;
        }
    }
    true
}

/// What is asked over a setup.
#[derive(Clone, Copy)]
enum Asked {
    Logins,
    Already,
    Images,
    Faults,
}

/// Whether what is asked is so over a setup.
fn is_so_over(alloc: Global, setup: &Setup, asked: Asked) -> bool {
    match asked {
        Asked::Logins => are_brought_back(alloc, setup),
        Asked::Already => stay(alloc, setup),
        Asked::Images => have_no_records(alloc, setup),
        Asked::Faults => are_faulty(alloc, setup),
    }
}

/// Whether it is so with bob's chain at this place and password.
fn is_so(alloc: Global, chain: (u16, u64), asked: Asked) -> Result<bool, Fail> {
    Ok(is_so_over(alloc, &with_bob(alloc, chain)?, asked))
}

#[test]
fn logins_are_brought_back(rt: HostRuntime) -> Result<(), Fail> {
    assert!(rt; is_so(rt.alloc(), (1, STORED), Asked::Logins)?);
    Ok(())
}

#[test]
fn a_setup_that_has_the_login_stays(rt: HostRuntime) -> Result<(), Fail> {
    assert!(rt; is_so(rt.alloc(), (0, LAST), Asked::Already)?);
    Ok(())
}

#[test]
fn images_without_records(rt: HostRuntime) -> Result<(), Fail> {
    assert!(rt; is_so(rt.alloc(), (1, STORED), Asked::Images)?);
    Ok(())
}

#[test]
fn first_faults(rt: HostRuntime) -> Result<(), Fail> {
    assert!(rt; is_so(rt.alloc(), (1, STORED), Asked::Faults)?);
    Ok(())
}
