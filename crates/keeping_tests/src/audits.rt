use audit_check::*;
use otp_extended::parts_with;
use otp_hash::{Algo, Seed};
use policy_model::{Account, Accounts, Grant, Grants, Setup, SetupParts};
use request_catalogue::{Label, Name};
use std::alloc::{AllocError, Global};
use std::test::*;

/// The log of a whole login.
const LOGIN: &str = "1 w0 s1 open permit
2 w0 s1 banner permit
3 w0 s1 write 0 0 10 permit
4 w0 s1 read 0 0 512 permit
5 w0 s1 challenge bob 1000 permit 0
6 w0 s1 write 0 0 16 permit
7 w0 s1 reply permit bb9e6ae1979d8ff4
8 w0 s1 export 50 permit 0
9 w0 s1 import permit
10 w0 s1 write 0 0 12 permit
11 w0 s1 grant 1 6e6f746573 permit 1
12 w0 s1 read 1 0 4000 permit
13 w0 s1 close 1 permit
14 w0 s1 write 0 0 11 permit
15 w0 s1 grant 2 6e6f746573 permit 1
16 w0 s1 write 1 0 3 permit
17 w0 s1 close 1 permit
18 w0 s1 write 0 0 5 permit
19 w0 s1 write 0 0 4 permit
20 w0 s1 finish permit
21 w0 s1 end finished permit
";

/// Two sessions challenge one user, and the second takes the user over.
const TAKEOVER: &str = "1 w0 s1 open permit
2 w1 s2 open permit
3 w0 s1 challenge alice 1000 permit 0
4 w1 s2 challenge alice 30999 deny 12 1
5 w1 s2 challenge alice 31000 permit 0
6 w0 s1 reply deny 13 2
7 w1 s2 reply permit 9e876134d90499dd
";

/// The same, and the first session's reply comes last.
const TAKEOVER_LATE: &str = "1 w0 s1 open permit
2 w1 s2 open permit
3 w0 s1 challenge alice 1000 permit 0
4 w1 s2 challenge alice 30999 deny 12 1
5 w1 s2 challenge alice 31000 permit 0
6 w1 s2 reply permit 9e876134d90499dd
7 w0 s1 reply deny 13 2
";

/// Two sessions of one worker, and each has its banner.
const BANNERS: &str = "1 w0 s1 open permit
2 w0 s1 banner permit
3 w0 s1 end child-ended permit
4 w0 s2 open permit
5 w0 s2 banner permit
6 w0 s2 banner deny 7 1
7 w0 s2 end violation 7 permit
";

/// As many replies are denied as the setup allows, each by a rule of its own.
const DENIALS: &str = "1 w0 s1 open permit
2 w0 s1 challenge alice 1000 permit 0
3 w0 s1 reply deny 14 0
4 w0 s1 challenge alice 1001 permit 0
5 w0 s1 reply deny 15 0
6 w0 s1 challenge alice 1002 permit 0
7 w0 s1 reply deny 16 0
8 w0 s1 challenge alice 1003 deny 8 3
9 w0 s1 reply deny 6 3
";

/// A name that nobody has is challenged by a decoy, whose number is that of the salt `hel` and the name:
/// the folded MD5 hash of `hello` is e430ddbbac5cefe4.
const DECOY: &str = "1 w0 s1 open permit
2 w0 s1 challenge lo 1000 permit 10412
3 w0 s1 reply deny 16 0
4 w0 s1 challenge lo 1001 permit 10412
5 w0 s1 reply deny 14 0
";

/// What stops within its third line.
const CUT: &str = "1 w0 s1 open permit
2 w0 s1 write 0 0 2 permit
3 w0 ";

/// Lines that no run writes in their place of the login, of the takeover, of the denials and of the decoy.
const OTHER_LOGIN: &str = "7 w0 s1 reply permit 0000000000000000
7 w0 s1 reply permit 63d936639734385b
1 w2 s1 open permit
1 w0 s2 open permit
5 w0 s1 challenge bob 1000 permit 1
8 w0 s1 export 50 permit 1
15 w0 s1 grant 2 6e6f746573 permit 2
16 w0 s1 write 2 0 3 permit
21 w0 s0 end finished permit";

const OTHER_TAKEOVER: &str = "6 w0 s1 reply deny 16 0
7 w1 s2 reply deny 13 2";

const OTHER_DENIALS: &str = "5 w0 s1 reply deny 15 1
5 w0 s1 reply deny 17 0
9 w0 s1 reply deny 16 0";

const OTHER_DECOY: &str = "3 w0 s1 reply deny 15 0
3 w0 s1 reply permit 7965e05436f5029f
2 w0 s1 challenge lo 1000 permit 10413";

/// The grant `notes` of mode 3.
fn notes(alloc: Global) -> Result<Grants, Fail> {
    let name = Label::of(b"notes").ok_or("a label")?;
    Ok(Grants::of(vec![in alloc; Grant { name, mode: 3 }]?))
}

/// A name and a number, the algorithm and the password.
type User = (&'static str, u32, Algo, u64);

/// `bob` by SHA-1 and `alice` by MD5. Their stored passwords are those of `This is a test.` with the seed
/// `test` and the number 1 (RFC 2289, appendix C).
const USERS: &[User] = &[
    ("bob", 1_001, Algo::Sha1, 0x63D9_3663_9734_385B),
    ("alice", 1_000, Algo::Md5, 0x7965_E054_36F5_029F),
];

/// The account of a user with the sequence 1 and the grant `notes` of mode 3.
fn account_of(alloc: Global, user: &User) -> Result<Account, Fail> {
    let (name, uid, algo, password) = *user;
    Ok(Account {
        name: Name::of(name.as_bytes()).ok_or("a name")?,
        uid,
        algo,
        seed: Seed::of(b"test").ok_or("a seed")?,
        sequence: 1,
        password,
        enabled: true,
        grants: notes(alloc)?,
    })
}

/// The accounts of both.
fn accounts_of(alloc: Global) -> Result<Accounts, Fail> {
    let mut items = Vec::new(alloc);
    for user in USERS {
        items.push(account_of(alloc, user)?)?;
    }
    Ok(Accounts::of(items))
}

/// The parts of a setup of both, else those of another.
fn parts_of(alloc: Global, parts: &SetupParts) -> Result<SetupParts, Fail> {
    let accounts = accounts_of(alloc)?;
    Ok(parts_with(alloc, parts, accounts)?)
}

/// A setup of both for two workers with the salt `hel`, by the parts of another.
fn setup_by(alloc: Global, parts: &SetupParts) -> Result<Setup, Fail> {
    let salt = Seed::of(b"hel").ok_or("a seed")?;
    let mut parts = parts_of(alloc, parts)?;
    parts.salt = salt;
    parts.workers = 2;
    parts.connections = 4;
    Ok(Setup::of(parts).ok().ok_or("in range")?)
}

/// A setup of both for two workers.
fn two_workers(alloc: Global) -> Result<Setup, Fail> {
    setup_by(alloc, Setup::plain(alloc)?.parts())
}

/// The text with another line in the place of one, or without it where the other is empty.
fn with_line(alloc: Global, text: &str, place: usize, line: &str) -> Result<String, AllocError> {
    let mut other = String::new(alloc);
    for (i, old) in text.lines().enumerate() {
        let new = if i + 1 == place { line } else { old };
        if !new.is_empty() {
            other.push_str(new)?;
            other.push_str("\n")?;
        }
    }
    Ok(other)
}

/// Whether a text is answered so.
fn says(alloc: Global, setup: &Setup, text: &str, answer: Audit) -> bool {
    match audit(alloc, setup, text.as_bytes()) {
        Ok(given) => given == answer,
        Err(_) => false,
    }
}

/// Whether a text with another line in the place of one is refused there.
fn refuses(alloc: Global, setup: &Setup, text: &str, other_line: OtherLine<'_>) -> bool {
    match with_line(alloc, text, other_line.place as usize, other_line.line) {
        Ok(other) => says(
            alloc,
            setup,
            other.as_str(),
            no(other_line.place, other_line.why),
        ),
        Err(_) => false,
    }
}

/// Whether each of these lines is refused as an event in the place that its number says.
fn refuses_each(alloc: Global, setup: &Setup, text: &str, lines: &str) -> bool {
    for line in lines.lines() {
        if !refuses(alloc, setup, text, event_at(line)) {
            return false;
        }
    }
    true
}

/// A line in the place of another, and what is wrong with it.
#[derive(Clone, Copy)]
struct OtherLine<'a> {
    place: u32,
    line: &'a str,
    why: AuditWhy,
}

/// A line in the place that its number says, whose event is refused.
fn event_at(line: &str) -> OtherLine<'_> {
    let place = match line.split_whitespace().next() {
        Some(number) => number.parse::<u32>().unwrap_or(0),
        None => 0,
    };
    OtherLine {
        place,
        line,
        why: AuditWhy::Event,
    }
}

/// A line in a place of which the number is wrong.
fn count_at(place: u32, line: &str) -> OtherLine<'_> {
    OtherLine {
        place,
        line,
        why: AuditWhy::Count,
    }
}

fn yes(events: u32) -> Audit {
    Audit::Yes { events }
}

fn no(line: u32, why: AuditWhy) -> Audit {
    Audit::No { line, why }
}

/// Whole logs, and how many events they have.
const WHOLE: &[(&str, u32)] = &[
    (LOGIN, 21),
    ("", 0),
    (TAKEOVER, 7),
    (TAKEOVER_LATE, 7),
    (BANNERS, 7),
    (DENIALS, 9),
    (DECOY, 5),
];

/// Whether each whole log is answered yes.
fn are_whole(alloc: Global, setup: &Setup) -> bool {
    for (text, events) in WHOLE {
        if !says(alloc, setup, text, yes(*events)) {
            return false;
        }
    }
    true
}

/// Whether a log that stops within a line is refused.
fn is_cut(alloc: Global, setup: &Setup) -> bool {
    says(alloc, setup, CUT, no(3, AuditWhy::Text))
}

/// Whether it is by the plain setup.
fn is_cut_plainly(alloc: Global) -> Result<bool, AllocError> {
    Ok(is_cut(alloc, &Setup::plain(alloc)?))
}

#[test]
fn a_log_that_stops_within_a_line(rt: HostRuntime) -> Result<(), Fail> {
    assert!(rt; is_cut_plainly(rt.alloc())?);
    Ok(())
}

/// Whether what is no line is refused.
fn are_no_lines(alloc: Global, setup: &Setup) -> bool {
    says(alloc, setup, LOGIN.trim(), no(21, AuditWhy::Text))
        && says(alloc, setup, "\n", no(1, AuditWhy::Text))
        && refuses(alloc, setup, LOGIN, count_at(7, ""))
        && refuses(alloc, setup, LOGIN, count_at(1, "0 w0 s1 open permit"))
        && refuses(alloc, setup, LOGIN, count_at(2, "1 w0 s1 banner permit"))
}

/// Logs, and lines that the policy does not give in them.
const NOT_GIVEN: &[(&str, &str)] = &[
    (LOGIN, OTHER_LOGIN),
    (BANNERS, "6 w0 s2 banner permit"),
    (TAKEOVER, OTHER_TAKEOVER),
    (DENIALS, OTHER_DENIALS),
    (DECOY, OTHER_DECOY),
];

/// Whether what the policy does not give is refused.
fn are_not_given(alloc: Global, setup: &Setup) -> bool {
    for (text, lines) in NOT_GIVEN {
        if !refuses_each(alloc, setup, text, lines) {
            return false;
        }
    }
    true
}

/// What is asked over the setup of two workers.
#[derive(Clone, Copy)]
enum Asked {
    WholeLogs,
    NoLines,
    OtherEvents,
}

/// Whether what is asked is so over a setup.
fn is_so_over(alloc: Global, setup: &Setup, asked: Asked) -> bool {
    match asked {
        Asked::WholeLogs => are_whole(alloc, setup),
        Asked::NoLines => are_no_lines(alloc, setup),
        Asked::OtherEvents => are_not_given(alloc, setup),
    }
}

/// Whether it is so over the setup of two workers.
fn is_so(alloc: Global, asked: Asked) -> Result<bool, Fail> {
    Ok(is_so_over(alloc, &two_workers(alloc)?, asked))
}

#[test]
fn whole_logs(rt: HostRuntime) -> Result<(), Fail> {
    assert!(rt; is_so(rt.alloc(), Asked::WholeLogs)?);
    Ok(())
}

#[test]
fn what_is_no_line(rt: HostRuntime) -> Result<(), Fail> {
    assert!(rt; is_so(rt.alloc(), Asked::NoLines)?);
    Ok(())
}

#[test]
fn what_the_policy_does_not_give(rt: HostRuntime) -> Result<(), Fail> {
    assert!(rt; is_so(rt.alloc(), Asked::OtherEvents)?);
    Ok(())
}
