ghost use Rattle.std.specs.Prelude.{◌≡◌, ◌<◌, All, IfOk, length};
ghost use Rattle.session_core.specs.Replayed.{IsStepOf};

use super::asked::holds;
use otp_extended::parts_with;
use otp_hash::{Algo, Seed, step};
use policy_model::{
    Account, Accounts, Ask, Decision, Event, Grant, Grants, Numbers, Setup, SetupParts, Step, Why,
    event_after, judge,
};
use request_catalogue::{Label, Name, Note};
use session_core::*;
use std::alloc::{AllocError, Global};
use std::test::Fail;

/// The password 0 of `This is a test.` with the seed `test` by MD5, and the one before it (RFC
/// 2289, appendix C).
const LAST: u64 = 0x9E87_6134_D904_99DD;

const STORED: u64 = 0x7965_E054_36F5_029F;

/// An ask, with what differs from line to line.
#[derive(Clone, Copy)]
enum Asked {
    Open,
    Banner,
    Challenge(&'static str, u64),
    /// A reply whose hexadecimal digits are this password.
    Reply(u64),
    /// A reply that reads neither as words nor as digits.
    Unread,
    Abandon,
    Export,
    Import,
    Grant(u8, &'static str),
    Close(u32),
    Info(u32),
    Bad(u8, u32),
    Read(u32),
    Write(u32),
    Note,
    Finish,
    End,
    /// An end by the violation of a rule.
    Violation(u8),
}

/// What is decided: a permit with its value, a denial with its rule and detail.
#[derive(Clone, Copy)]
enum Said {
    Permit(u64),
    Deny(u8, u32),
}

/// A worker, the session of its event, an ask, and what has to be decided on it.
type Line = (u32, u32, Asked, Said);

const TAKEOVER: &[Line] = &[
    (0, 1, Asked::Open, Said::Permit(1)),
    (1, 2, Asked::Open, Said::Permit(2)),
    (0, 1, Asked::Challenge("alice", 1000), Said::Permit(0)),
    (1, 2, Asked::Challenge("alice", 30999), Said::Deny(12, 1)),
    (1, 2, Asked::Challenge("alice", 31000), Said::Permit(0)),
    (0, 1, Asked::Reply(LAST), Said::Deny(13, 2)),
    (1, 2, Asked::Reply(LAST), Said::Permit(LAST)),
];

const TAKEOVER_LATE: &[Line] = &[
    (0, 1, Asked::Open, Said::Permit(1)),
    (1, 2, Asked::Open, Said::Permit(2)),
    (0, 1, Asked::Challenge("alice", 1000), Said::Permit(0)),
    (1, 2, Asked::Challenge("alice", 30999), Said::Deny(12, 1)),
    (1, 2, Asked::Challenge("alice", 31000), Said::Permit(0)),
    (1, 2, Asked::Reply(LAST), Said::Permit(LAST)),
    (0, 1, Asked::Reply(LAST), Said::Deny(13, 2)),
];

/// After a takeover each kind of ask of the session that lost the user: none gives up or ends what the
/// other session holds.
const BEHIND_A_TAKEOVER: &[Line] = &[
    (0, 1, Asked::Open, Said::Permit(1)),
    (1, 2, Asked::Open, Said::Permit(2)),
    (0, 1, Asked::Challenge("alice", 1000), Said::Permit(0)),
    (1, 2, Asked::Challenge("alice", 31000), Said::Permit(0)),
    (0, 1, Asked::Note, Said::Permit(0)),
    (0, 1, Asked::Write(0), Said::Permit(0)),
    (0, 1, Asked::Banner, Said::Permit(0)),
    (0, 1, Asked::Abandon, Said::Permit(0)),
    (0, 1, Asked::End, Said::Permit(0)),
    (0, 3, Asked::Open, Said::Permit(3)),
    (0, 3, Asked::Challenge("alice", 31001), Said::Deny(12, 2)),
    (1, 2, Asked::End, Said::Permit(0)),
    (0, 3, Asked::Challenge("alice", 31001), Said::Permit(0)),
    (0, 3, Asked::Finish, Said::Permit(0)),
    (1, 4, Asked::Open, Said::Permit(4)),
    (1, 4, Asked::Challenge("alice", 31001), Said::Permit(0)),
    (1, 4, Asked::Reply(LAST), Said::Permit(LAST)),
];

const LAST_PASSWORD: &[Line] = &[
    (0, 1, Asked::Open, Said::Permit(1)),
    (0, 1, Asked::Challenge("bob", 1000), Said::Permit(10802)),
    (0, 1, Asked::Abandon, Said::Permit(0)),
    (0, 1, Asked::Challenge("alice", 1000), Said::Permit(0)),
    (0, 1, Asked::Reply(LAST), Said::Permit(LAST)),
    (0, 1, Asked::Finish, Said::Permit(0)),
    (0, 1, Asked::End, Said::Permit(0)),
    (0, 2, Asked::Open, Said::Permit(2)),
    (0, 2, Asked::Challenge("alice", 90000), Said::Permit(10532)),
    (0, 2, Asked::Reply(LAST), Said::Deny(16, 0)),
];

/// A violation leaves what the session held.
const EARLY_EXPORT: &[Line] = &[
    (0, 1, Asked::Open, Said::Permit(1)),
    (1, 2, Asked::Open, Said::Permit(2)),
    (0, 1, Asked::Challenge("alice", 1000), Said::Permit(0)),
    (0, 1, Asked::Export, Said::Deny(6, 5)),
    (1, 2, Asked::Challenge("alice", 1000), Said::Permit(0)),
    (0, 1, Asked::Violation(6), Said::Permit(0)),
    (1, 2, Asked::Reply(LAST), Said::Permit(LAST)),
];

const EARLY_REPLY: &[Line] = &[
    (0, 1, Asked::Open, Said::Permit(1)),
    (0, 1, Asked::Reply(LAST), Said::Deny(6, 3)),
    (0, 1, Asked::Write(0), Said::Deny(6, 8)),
    (0, 1, Asked::Violation(6), Said::Permit(0)),
];

const TWO_BANNERS: &[Line] = &[
    (0, 1, Asked::Open, Said::Permit(1)),
    (0, 1, Asked::Banner, Said::Permit(0)),
    (0, 1, Asked::Banner, Said::Deny(7, 1)),
    (0, 1, Asked::End, Said::Permit(0)),
    (0, 2, Asked::Open, Said::Permit(2)),
    (0, 2, Asked::Banner, Said::Permit(0)),
];

const TWO_IMPORTS: &[Line] = &[
    (0, 1, Asked::Open, Said::Permit(1)),
    (0, 1, Asked::Challenge("alice", 1000), Said::Permit(0)),
    (0, 1, Asked::Reply(LAST), Said::Permit(LAST)),
    (0, 1, Asked::Export, Said::Permit(0)),
    (0, 1, Asked::Info(1), Said::Permit(0)),
    (0, 1, Asked::Info(2), Said::Deny(22, 2)),
    (0, 1, Asked::Import, Said::Permit(0)),
    (0, 1, Asked::Import, Said::Deny(7, 6)),
];

const TWO_EXPORTS: &[Line] = &[
    (0, 1, Asked::Open, Said::Permit(1)),
    (0, 1, Asked::Challenge("alice", 1000), Said::Permit(0)),
    (0, 1, Asked::Reply(LAST), Said::Permit(LAST)),
    (0, 1, Asked::Export, Said::Permit(0)),
    (0, 1, Asked::Export, Said::Deny(6, 5)),
];

const DENIED_REPLIES: &[Line] = &[
    (0, 1, Asked::Open, Said::Permit(1)),
    (0, 1, Asked::Challenge("alice", 1000), Said::Permit(0)),
    (0, 1, Asked::Unread, Said::Deny(14, 0)),
    (0, 1, Asked::Challenge("alice", 1000), Said::Permit(0)),
    (0, 1, Asked::Reply(STORED), Said::Deny(15, 0)),
    (0, 1, Asked::Challenge("alice", 1000), Said::Permit(0)),
    (0, 1, Asked::Reply(0), Said::Deny(16, 0)),
    (0, 1, Asked::Challenge("alice", 1000), Said::Deny(8, 3)),
];

const HANDLES: &[Line] = &[
    (0, 1, Asked::Open, Said::Permit(1)),
    (0, 1, Asked::Challenge("alice", 1000), Said::Permit(0)),
    (0, 1, Asked::Reply(LAST), Said::Permit(LAST)),
    (0, 1, Asked::Export, Said::Permit(0)),
    (0, 1, Asked::Grant(1, "f1"), Said::Permit(1)),
    (0, 1, Asked::Grant(1, "f2"), Said::Permit(2)),
    (0, 1, Asked::Close(1), Said::Permit(0)),
    (0, 1, Asked::Grant(1, "f3"), Said::Permit(1)),
    (0, 1, Asked::Read(1), Said::Permit(0)),
    (0, 1, Asked::Read(3), Said::Deny(17, 3)),
    (0, 1, Asked::Write(2), Said::Deny(18, 2)),
    (0, 1, Asked::Grant(1, "g"), Said::Deny(20, 0)),
    (0, 1, Asked::Grant(2, "f1"), Said::Deny(21, 2)),
];

/// Two openings of one worker, and an end and a request without a session.
const OPENINGS_AND_ENDS: &[Line] = &[
    (0, 0, Asked::End, Said::Deny(6, 0)),
    (0, 0, Asked::Finish, Said::Deny(6, 13)),
    (0, 1, Asked::Open, Said::Permit(1)),
    (1, 2, Asked::Open, Said::Permit(2)),
    (1, 2, Asked::Bad(2, 1), Said::Deny(2, 1)),
    (1, 2, Asked::Bad(2, 1), Said::Deny(6, 0)),
    (0, 1, Asked::Open, Said::Deny(6, 0)),
    (0, 1, Asked::Note, Said::Deny(6, 12)),
    (0, 1, Asked::Violation(6), Said::Permit(0)),
    (0, 0, Asked::End, Said::Deny(6, 0)),
    (0, 3, Asked::Open, Said::Permit(3)),
];

/// The ask before a login.
fn early_ask(asked: Asked) -> Option<Ask> {
    match asked {
        Asked::Open => Some(Ask::Begin),
        Asked::Banner => Some(Ask::Banner),
        Asked::Challenge(user, now) => Some(Ask::Challenge {
            user: Name::of(user.as_bytes())?,
            now,
        }),
        Asked::Reply(password) => Some(Ask::Reply {
            words: None,
            hex: Some(password),
        }),
        Asked::Unread => Some(Ask::Reply {
            words: None,
            hex: None,
        }),
        Asked::Abandon => Some(Ask::Abandon),
        Asked::Export => Some(Ask::Export { len: 21 }),
        _ => late_ask(asked),
    }
}

/// The ask of a user's child, and a bad frame.
fn late_ask(asked: Asked) -> Option<Ask> {
    match asked {
        Asked::Import => Some(Ask::Import),
        Asked::Grant(mode, name) => Some(Ask::OpenFile {
            mode,
            name: Label::of(name.as_bytes())?,
        }),
        Asked::Close(handle) => Some(Ask::CloseFile { handle }),
        Asked::Info(number) => Some(Ask::Info { number }),
        Asked::Bad(rule, detail) => Some(Ask::Bad { rule, detail }),
        Asked::Read(handle) => Some(Ask::ReadAt {
            handle,
            offset: 0,
            max: 1,
        }),
        Asked::Write(handle) => Some(Ask::WriteAt {
            handle,
            offset: 0,
            len: 1,
        }),
        _ => any_ask(asked),
    }
}

/// An ask that each phase permits, and an end.
fn any_ask(asked: Asked) -> Option<Ask> {
    match asked {
        Asked::Note => Some(Ask::Note {
            text: Note::of(b"a")?,
        }),
        Asked::Finish => Some(Ask::Finish),
        Asked::Violation(rule) => Some(Ask::End {
            why: Why::Violation { rule },
        }),
        _ => Some(Ask::End { why: Why::Finished }),
    }
}

/// The decision that this says.
fn decision_of(said: Said) -> Decision {
    match said {
        Said::Permit(value) => Decision::Permit { value },
        Said::Deny(rule, detail) => Decision::Deny { rule, detail },
    }
}

/// The event of a line.
fn event_of(line: &Line) -> Option<Event> {
    let (worker, session, asked, said) = *line;
    Some(Event {
        worker,
        session,
        ask: early_ask(asked)?,
        decision: decision_of(said),
    })
}

/// The events of a table, or none where a line has none.
fn events_of(alloc: Global, lines: &[Line]) -> Result<Vec<Event>, AllocError> {
    let mut events = Vec::new(alloc);
    for line in lines {
        if let Some(event) = event_of(line) {
            events.push(event)?;
        }
    }
    Ok(events)
}

/// The steps of events, up to one whose worker there isn't.
fn steps_of(alloc: Global, setup: &Setup, events: &[Event]) -> Result<Vec<Step>, AllocError>
    ensures { IfOk result (λ steps. All (IsStepOf setup.now) steps.items) }
{
    let mut steps = Vec::new(alloc);
    for event in events {
        if event.worker >= setup.parts().workers {
            return Ok(steps);
        }
        steps.push(Step {
            worker: event.worker,
            ask: event.ask,
        })?;
    }
    Ok(steps)
}

/// Whether two journals are the same.
fn are_same(journal: &[Event], other: &[Event]) -> bool {
    let mut others = other.iter();
    for event in journal {
        match others.next() {
            Some(second) if *second == *event => {}
            _ => return false,
        }
    }
    others.next().is_none()
}

/// Whether a journal was given, and is this one.
fn is_given(made: &Result<Vec<Event>, AllocError>, wanted: &[Event]) -> bool {
    match made {
        Ok(journal) => are_same(journal.as_slice(), wanted),
        Err(_) => false,
    }
}

/// Whether at most 1,000 steps give these events.
fn give(alloc: Global, setup: &Setup, steps: &[Step], wanted: &[Event]) -> bool
    requires { All (IsStepOf setup.now) steps.now }
{
    steps.len() <= 1000 && is_given(&replay(alloc, setup, steps), wanted)
}

/// Whether the steps of events give these events.
fn events_replay(alloc: Global, setup: &Setup, wanted: &[Event]) -> Result<bool, AllocError> {
    let steps = steps_of(alloc, setup, wanted)?;
    Ok(give(alloc, setup, steps.as_slice(), wanted))
}

/// Whether these are the events of all lines, and their steps give them.
fn all_replay(
    alloc: Global,
    setup: &Setup,
    wanted: &[Event],
    count: usize,
) -> Result<bool, AllocError> {
    Ok(wanted.len() == count && events_replay(alloc, setup, wanted)?)
}

/// Whether the steps of a table's events give these events.
fn replays(alloc: Global, setup: &Setup, lines: &[Line]) -> Result<bool, AllocError> {
    all_replay(alloc, setup, &events_of(alloc, lines)?, lines.len())
}

/// The files that each user is granted.
const FILES: &[&str] = &["f1", "f2", "f3"];

/// Grants of mode 1 for these files.
fn grants(alloc: Global) -> Result<Grants, AllocError> {
    let mut items = Vec::new(alloc);
    for name in FILES {
        if let Some(name) = Label::of(name.as_bytes()) {
            items.push(Grant { name, mode: 1 })?;
        }
    }
    Ok(Grants::of(items))
}

/// A user with a chain by MD5 of the seed `test`.
#[derive(Clone, Copy)]
struct User {
    name: &'static str,
    uid: u32,
    sequence: u16,
    password: u64,
}

/// The account of a user with this name and seed.
fn account_of(alloc: Global, user: &User, name: Name, seed: Seed) -> Result<Account, AllocError> {
    Ok(Account {
        name,
        uid: user.uid,
        algo: Algo::Md5,
        seed,
        sequence: user.sequence,
        password: user.password,
        enabled: true,
        grants: grants(alloc)?,
    })
}

/// The accounts of users.
fn accounts_of(alloc: Global, users: &[User]) -> Result<Accounts, AllocError> {
    let mut accounts = Vec::new(alloc);
    for user in users {
        if let (Some(name), Some(seed)) = (Name::of(user.name.as_bytes()), Seed::of(b"test")) {
            accounts.push(account_of(alloc, user, name, seed)?)?;
        }
    }
    Ok(Accounts::of(accounts))
}

/// The parts of a setup with these workers and users, and the information number 1, by those of another.
fn parts_of(
    alloc: Global,
    parts: &SetupParts,
    workers: u32,
    users: &[User],
) -> Result<SetupParts, AllocError> {
    let info = Numbers::of(vec![in alloc; 1]?);
    let accounts = accounts_of(alloc, users)?;
    let mut parts = parts_with(alloc, parts, accounts)?;
    parts.workers = workers;
    parts.info = info;
    Ok(parts)
}

/// The user with the last password of a chain.
const ALICE: User = User {
    name: "alice",
    uid: 1000,
    sequence: 1,
    password: STORED,
};

/// Whether the core gives each journal back.
fn tables_replay(alloc: Global, setup: &Setup, tables: &[&[Line]]) -> Result<bool, AllocError> {
    for lines in tables {
        if !replays(alloc, setup, lines)? {
            return Ok(false);
        }
    }
    Ok(true)
}

/// What is asked over a setup.
#[derive(Clone, Copy)]
enum Asking<'a> {
    /// Whether the core gives back the journal of each table.
    Replay(&'a [&'a [Line]]),
    /// Whether it gives what the plain judge gives, on replies with these passwords.
    Judge(&'a [u64; 6]),
}

/// Whether that is so over a setup.
fn is_so(alloc: Global, setup: &Setup, asking: Asking<'_>) -> Result<bool, AllocError> {
    match asking {
        Asking::Replay(tables) => tables_replay(alloc, setup, tables),
        Asking::Judge(passwords) => is_judged_alike(alloc, setup, passwords),
    }
}

/// Whether it is so over a setup that is in range.
fn is_so_in(alloc: Global, made: &Option<Setup>, asking: Asking<'_>) -> Result<bool, AllocError> {
    match made {
        Some(setup) => is_so(alloc, setup, asking),
        None => Ok(false),
    }
}

/// Whether it is so over a setup with these workers and users, by the parts of another.
fn is_so_by(
    alloc: Global,
    parts: &SetupParts,
    workers: u32,
    users: &[User],
    asking: Asking<'_>,
) -> Result<bool, AllocError> {
    let made = Setup::of(parts_of(alloc, parts, workers, users)?).ok();
    is_so_in(alloc, &made, asking)
}

/// Whether it is so over a setup with these workers and users.
fn is_so_of(
    alloc: Global,
    workers: u32,
    users: &[User],
    asking: Asking<'_>,
) -> Result<bool, AllocError> {
    is_so_by(alloc, Setup::plain(alloc)?.parts(), workers, users, asking)
}

/// Whether the core gives each journal back over the one account of alice, with two workers.
fn replay_over_alice(alloc: Global, tables: &[&[Line]]) -> Result<bool, AllocError> {
    is_so_of(alloc, 2, &[ALICE], Asking::Replay(tables))
}

#[test]
fn takeovers(rt: HostRuntime) -> Result<(), Fail> {
    let tables = [TAKEOVER, TAKEOVER_LATE, BEHIND_A_TAKEOVER];
    holds(replay_over_alice(rt.alloc(), &tables)?)
}

#[test]
fn phases(rt: HostRuntime) -> Result<(), Fail> {
    let tables = [
        EARLY_EXPORT,
        EARLY_REPLY,
        TWO_BANNERS,
        TWO_IMPORTS,
        TWO_EXPORTS,
    ];
    holds(replay_over_alice(rt.alloc(), &tables)?)
}

#[test]
fn logins_and_files(rt: HostRuntime) -> Result<(), Fail> {
    let tables = [LAST_PASSWORD, DENIED_REPLIES, HANDLES, OPENINGS_AND_ENDS];
    holds(replay_over_alice(rt.alloc(), &tables)?)
}

/// A password and its images by MD5, the first last: `chain[k]` hashes to `chain[k - 1]`.
fn chain(first: u64) -> [u64; 6] {
    let mut passwords = [first; 6];
    for k in 1..6 {
        for place in 0..k {
            passwords[place] = step(Algo::Md5, passwords[place]);
        }
    }
    passwords
}

/// No session is open.
const END: Event = Event {
    worker: 0,
    session: 0,
    ask: Ask::End { why: Why::Finished },
    decision: Decision::Permit { value: 0 },
};

/// A number of 16 bits, and what the next one is made of.
fn draw(seed: &mut u32) -> u32 {
    *seed = seed.wrapping_mul(1_664_525).wrapping_add(1_013_904_223);
    *seed >> 16
}

/// A user by a number: two that can log in, and one without an account.
fn random_user(n: u32) -> Option<Name> {
    match n % 5 {
        0 | 1 => Name::of(b"alice"),
        2 | 3 => Name::of(b"bob"),
        _ => Name::of(b"carol"),
    }
}

/// A CHALLENGE by a number.
fn random_challenge(n: u32, now: u64) -> Option<Ask> {
    Some(Ask::Challenge {
        user: random_user(n)?,
        now,
    })
}

/// A REPLY by a number, with one of these passwords.
fn random_reply(n: u32, passwords: &[u64; 6]) -> Ask {
    Ask::Reply {
        words: None,
        hex: Some(passwords[(n % 6) as usize]),
    }
}

/// A use of files by a number.
fn random_use(n: u32) -> Option<Ask> {
    match n % 6 {
        0 | 1 => Some(Ask::OpenFile {
            mode: 1,
            name: Label::of(if n / 6 % 2 == 0 { b"f1" } else { b"f2" })?,
        }),
        2 => Some(Ask::CloseFile { handle: n / 6 % 3 }),
        3 => Some(Ask::ReadAt {
            handle: n / 6 % 3,
            offset: 0,
            max: 1,
        }),
        4 => Some(Ask::Info { number: 1 }),
        _ => Some(Ask::Note {
            text: Note::of(b"a")?,
        }),
    }
}

/// An ask by a number, whatever came before.
fn random_ask(n: u32, now: u64, passwords: &[u64; 6]) -> Option<Ask> {
    match n % 10 {
        0 => Some(Ask::Begin),
        1 => Some(Ask::End { why: Why::Finished }),
        2 => Some(Ask::Banner),
        3 => Some(Ask::Abandon),
        4 => Some(Ask::Export { len: 21 }),
        5 => Some(Ask::Import),
        6 => Some(Ask::Finish),
        7 => random_challenge(n / 10, now),
        8 => Some(random_reply(n / 10, passwords)),
        _ => random_use(n / 10),
    }
}

/// Whether nothing but its end is permitted to the session of an event any more.
fn is_last(event: &Event) -> bool {
    matches!(event.ask, Ask::Finish) || matches!(event.decision, Decision::Deny { rule: 1..=7, .. })
}

/// An ask by a number that a child would make after an event of its session.
fn likely_ask(last: &Event, n: u32, now: u64, passwords: &[u64; 6]) -> Option<Ask> {
    let permitted = last.decision.is_permit();
    match last.ask {
        Ask::End { .. } => Some(Ask::Begin),
        _ if is_last(last) => Some(Ask::End { why: Why::Finished }),
        Ask::Begin | Ask::Banner | Ask::Abandon => random_challenge(n, now),
        Ask::Challenge { .. } if permitted => Some(random_reply(n, passwords)),
        Ask::Reply { .. } if permitted => Some(Ask::Export { len: 21 }),
        Ask::Reply { .. } => random_challenge(n, now),
        _ => random_use(n),
    }
}

/// The last event of a worker.
fn last_of(journal: &[Event], worker: u32) -> Event {
    let mut last = END;
    for event in journal {
        if event.worker == worker {
            last = *event;
        }
    }
    last
}

/// An ask by draws, of which every fourth is any and the others are likely ones.
fn drawn_ask(last: &Event, seed: &mut u32, now: u64, passwords: &[u64; 6]) -> Option<Ask> {
    if draw(seed) % 4 == 0 {
        random_ask(draw(seed), now, passwords)
    } else {
        likely_ask(last, draw(seed), now, passwords)
    }
}

/// The next event that the plain judge gives, of one of four workers.
fn drawn_event(
    setup: &Setup,
    journal: &[Event],
    seed: &mut u32,
    now: u64,
    passwords: &[u64; 6],
) -> Option<Event> {
    if journal.len() > 1000 {
        return None;
    }
    let worker = draw(seed) % 4;
    let ask = drawn_ask(&last_of(journal, worker), seed, now, passwords)?;
    let given = judge(setup, journal, worker, &ask);
    Some(event_after(journal, worker, &ask, &given))
}

/// How many events are drawn.
const EVENTS: u64 = 400;

/// Events that the plain judge gives, of four workers.
fn judged(alloc: Global, setup: &Setup, passwords: &[u64; 6]) -> Result<Vec<Event>, AllocError> {
    let mut journal: Vec<Event> = Vec::new(alloc);
    let mut seed: u32 = 1;
    for place in 0..EVENTS {
        let now = place * 1000;
        if let Some(event) = drawn_event(setup, journal.as_slice(), &mut seed, now, passwords) {
            journal.push(event)?;
        }
    }
    Ok(journal)
}

/// How many replies were permitted.
fn logins(journal: &[Event]) -> u32 {
    let mut count: u32 = 0;
    for event in journal {
        if matches!(event.ask, Ask::Reply { .. }) && event.decision.is_permit() {
            count = count.saturating_add(1);
        }
    }
    count
}

/// Two users with one chain.
fn two_users(password: u64) -> [User; 2] {
    let alice = User {
        sequence: 5,
        password,
        ..ALICE
    };
    let bob = User {
        name: "bob",
        uid: 1001,
        sequence: 1,
        password,
    };
    [alice, bob]
}

/// Whether these are all events, with four logins or more, and the core gives them too.
fn are_alike(alloc: Global, setup: &Setup, wanted: &[Event]) -> Result<bool, AllocError> {
    Ok(logins(wanted) >= 4 && all_replay(alloc, setup, wanted, EVENTS as usize)?)
}

/// Whether the core gives what the plain judge gives, which looks through the whole list.
fn is_judged_alike(alloc: Global, setup: &Setup, passwords: &[u64; 6]) -> Result<bool, AllocError> {
    are_alike(alloc, setup, &judged(alloc, setup, passwords)?)
}

/// Whether it does so over the two users, with four workers.
fn two_are_judged_alike(alloc: Global) -> Result<bool, AllocError> {
    let passwords = chain(1);
    is_so_of(
        alloc,
        4,
        &two_users(passwords[0]),
        Asking::Judge(&passwords),
    )
}

#[test]
fn beside_the_plain_judge(rt: HostRuntime) -> Result<(), Fail> {
    holds(two_are_judged_alike(rt.alloc())?)
}
