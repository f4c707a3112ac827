use crate::files::{NONE, files_of};
use account_file::{SetupFault, SetupKey, SetupRule};
use audit_check::{Audit, AuditWhy};
use audit_mode::*;
use durable_log::{JournalLog, MemDisk};
use outside::Sink;
use outside_memory::{CallKind, Fail, MemFiles, MemStream};
use std::alloc::{AllocError, Global};
use std::test::Fail as Fault;
use trouble::{FileKind, Trouble};

/// The setup of one worker, with bob by SHA-1. His stored password is that of `This is a test.` with the
/// seed `test` and the number 1 (RFC 2289, appendix C), and the one that LOGIN accepts that of the number 0.
const ONE_WORKER: &str = "socket = \"s\"
launcher = \"l\"
vault = \"v\"
words = \"list\"
banner = \"OTP login\"
workers = 1
connections = 4
requests = 64
tries = 3
hold = 30000
info = [1]
[[account]]
name = \"bob\"
uid = 1001
algorithm = \"sha1\"
seed = \"test\"
sequence = 1
password = \"63d936639734385b\"
grants = [{ name = \"notes\", mode = 3 }]
";

/// The setup of two workers, with alice by MD5, whose passwords are of the same phrase, seed and numbers.
const TWO_WORKERS: &str = "socket = \"s\"
launcher = \"l\"
vault = \"v\"
words = \"list\"
workers = 2
connections = 4
requests = 64
tries = 3
hold = 30000
[[account]]
name = \"alice\"
uid = 1000
algorithm = \"md5\"
seed = \"test\"
sequence = 1
password = \"7965e05436f5029f\"
";

/// The setup that is served where none is named.
const PLAIN: &str = "socket = \"otplogd.sock\"
launcher = \"otplogd\"
vault = \"vault\"
words = \"words\"
workers = 1
connections = 1
requests = 64
tries = 3
hold = 30000
";

/// The log of a whole login.
const LOGIN: &str = "1 w0 s1 open permit
2 w0 s1 banner permit
3 w0 s1 write 0 0 10 permit
4 w0 s1 read 0 0 512 permit
5 w0 s1 challenge bob 1000 permit 0
6 w0 s1 write 0 0 16 permit
7 w0 s1 reply permit bb9e6ae1979d8ff4
8 w0 s1 export 50 permit 0
9 w0 s1 import permit
10 w0 s1 write 0 0 12 permit
11 w0 s1 grant 1 6e6f746573 permit 1
12 w0 s1 read 1 0 4000 permit
13 w0 s1 close 1 permit
14 w0 s1 write 0 0 11 permit
15 w0 s1 grant 2 6e6f746573 permit 1
16 w0 s1 write 1 0 3 permit
17 w0 s1 close 1 permit
18 w0 s1 write 0 0 5 permit
19 w0 s1 write 0 0 4 permit
20 w0 s1 finish permit
21 w0 s1 end finished permit
";

/// Two sessions challenge one user, and the second takes the user over.
const TAKEOVER: &str = "1 w0 s1 open permit
2 w1 s2 open permit
3 w0 s1 challenge alice 1000 permit 0
4 w1 s2 challenge alice 30999 deny 12 1
5 w1 s2 challenge alice 31000 permit 0
6 w0 s1 reply deny 13 2
7 w1 s2 reply permit 9e876134d90499dd
";

/// The same, and the first session's reply comes last.
const TAKEOVER_LATE: &str = "1 w0 s1 open permit
2 w1 s2 open permit
3 w0 s1 challenge alice 1000 permit 0
4 w1 s2 challenge alice 30999 deny 12 1
5 w1 s2 challenge alice 31000 permit 0
6 w1 s2 reply permit 9e876134d90499dd
7 w0 s1 reply deny 13 2
";

/// What stops within its third line.
const CUT: &str = "1 w0 s1 open permit\n2 w0 s1 write 0 0 2 permit\n3 w0 ";

/// The durable log without a record.
const FRESH: [u8; 5] = *b"OTJ1\x00";

/// What the mode has to come to: a status, or a trouble.
#[derive(Clone, Copy)]
enum Outcome {
    Status(u8),
    Ended(Trouble),
}

/// Whether it came to that.
fn is_outcome(outcome: Result<Audit, Trouble>, want: Outcome) -> bool {
    match want {
        Outcome::Status(want) => status(outcome) == want,
        Outcome::Ended(trouble) => outcome == Err(trouble),
    }
}

/// What the mode has to come to, and what it has to send.
#[derive(Clone, Copy)]
struct Told<'a> {
    outcome: Outcome,
    sent: &'a str,
}

/// Whether the mode over the files `setup` and `log` and these ends comes to that.
fn is_told(alloc: Global, files: &mut MemFiles, ends: &mut MemStream, told: &Told<'_>) -> bool {
    let command = AuditCommand {
        setup: "setup",
        log: "log",
    };
    let outcome = run_audit(alloc, &command, files, ends);
    is_outcome(outcome, told.outcome) && ends.sent() == told.sent.as_bytes()
}

/// The same at ends of whose calls these fail.
fn is_told_with(
    alloc: Global,
    files: &mut MemFiles,
    fails: &[Fail],
    told: &Told<'_>,
) -> Result<bool, AllocError> {
    let mut ends = MemStream::new(alloc, b"", &[1], fails)?;
    Ok(is_told(alloc, files, &mut ends, told))
}

/// The same over a setup and a log of these bytes.
fn comes_to<'x>(
    alloc: Global,
    setup: &'x [u8],
    log: &'x [u8],
    fails: &[Fail],
    told: &Told<'_>,
) -> Result<bool, AllocError> {
    let mut files = files_of(alloc, &[("setup", setup), ("log", log)], fails)?;
    is_told_with(alloc, &mut files, fails, told)
}

/// Whether the bytes of a log are answered by a status and a line.
fn answers(alloc: Global, setup: &str, log: &[u8], told: (u8, &str)) -> Result<bool, AllocError> {
    let (status, sent) = told;
    let outcome = Outcome::Status(status);
    comes_to(alloc, setup.as_bytes(), log, &[], &Told { outcome, sent })
}

/// Appends each line of a text, and says whether all could be.
fn append_all(log: &mut JournalLog<MemDisk>, text: &str) -> bool {
    let mut whole = true;
    for line in text.split_inclusive('\n') {
        whole &= log.append(line.as_bytes()).is_ok();
    }
    whole
}

/// What a disk has where the log on it is whole, and else nothing.
fn image_where(alloc: Global, disk: &MemDisk, whole: bool) -> Result<Vec<u8>, AllocError> {
    if !whole || !disk.tells() {
        return Ok(Vec::new(alloc));
    }
    disk.image(alloc, disk.calls(), 0)
}

/// What the disk of a durable log has once each line of a text was appended; nothing where an append
/// failed.
fn durable(alloc: Global, text: &str) -> Result<Vec<u8>, AllocError> {
    let mut log = JournalLog::new(MemDisk::new(alloc, &FRESH, &[])?);
    let whole = append_all(&mut log, text);
    image_where(alloc, &log.disk(), whole)
}

/// A log with another line in the place of one, or without it where the other is empty.
fn text_with(alloc: Global, log: &str, place: usize, other: &str) -> Result<String, AllocError> {
    let mut text = String::new(alloc);
    for (i, old) in log.split_inclusive('\n').enumerate() {
        text.push_str(if i + 1 == place { other } else { old })?;
    }
    Ok(text)
}

/// Whether a log is answered by a status and a line, as a text and as a durable log.
fn answers_both(
    alloc: Global,
    setup: &str,
    text: &str,
    told: (u8, &str),
) -> Result<bool, AllocError> {
    let log = durable(alloc, text)?;
    Ok(
        log.starts_with(b"OTJ1")
            && answers(alloc, setup, log.as_slice(), told)?
            && answers(alloc, setup, text.as_bytes(), told)?,
    )
}

/// A setup, a log with another line in a place, and the status and the line that answer it.
type Row = (
    &'static str,
    &'static str,
    (usize, &'static str),
    (u8, &'static str),
);

/// Whether a row's log is answered so.
fn tells(alloc: Global, row: &Row) -> Result<bool, AllocError> {
    let (setup, log, (place, other), told) = *row;
    let text = text_with(alloc, log, place, other)?;
    answers_both(alloc, setup, text.as_str(), told)
}

/// Whether a durable log of a login is answered by all its lines, also with what a crash left after the
/// closed gate, and one without a record by none.
fn is_kept(alloc: Global, log: &[u8]) -> Result<bool, AllocError> {
    let crashed = [log, b"\x1f\x0022 w0 s2 open".as_slice()].concat(alloc)?;
    Ok(
        log.starts_with(b"OTJ1\x01\x14\x001 w0 s1 open permit\n\x01")
            && answers(alloc, ONE_WORKER, log, (0, "yes 21\n"))?
            && answers(alloc, ONE_WORKER, &FRESH, (0, "yes 0\n"))?
            && answers(alloc, ONE_WORKER, &crashed, (0, "yes 21\n"))?,
    )
}

/// Whether that of LOGIN is.
fn is_login_kept(alloc: Global) -> Result<bool, AllocError> {
    let log = durable(alloc, LOGIN)?;
    is_kept(alloc, log.as_slice())
}

#[test]
fn the_durable_log_of_a_login(rt: HostRuntime) -> Result<(), Fault> {
    assert!(rt; is_login_kept(rt.alloc())?);
    Ok(())
}

#[test]
fn a_durable_log_with_a_record_that_is_no_line(rt: HostRuntime) -> Result<(), Fault> {
    let log = b"OTJ1\x01\x14\x001 w0 s1 open permit\n\x01\x02\x00x\n\x00";
    assert!(rt; answers(rt.alloc(), ONE_WORKER, log, (14, "no 2 text\n"))?);
    Ok(())
}

/// A durable log of two lines.
const TWO: &[u8] = b"OTJ1\x01\x14\x001 w0 s1 open permit\n\x01\x16\x002 w0 s1 banner permit\n\x00";

/// Where it is cut, and the line that answers it then.
const CUTS: &[(usize, &str)] = &[
    (53, "yes 2\n"),
    (4, "yes 0\n"),
    (5, "yes 0\n"),
    (26, "yes 0\n"),
    (27, "yes 1\n"),
    (29, "yes 1\n"),
    (51, "yes 1\n"),
    (52, "yes 2\n"),
];

/// Whether its first bytes are answered by a line.
fn answers_front(alloc: Global, end: usize, told: &str) -> Result<bool, AllocError> {
    let (front, _) = TWO.split_at_checked(end).unwrap_or((TWO, &[]));
    answers(alloc, ONE_WORKER, front, (0, told))
}

#[test]
fn a_durable_log_that_is_cut_short(rt: HostRuntime) -> Result<(), Fault> {
    for (end, told) in CUTS {
        assert!(rt; answers_front(rt.alloc(), *end, told)?, "{told} at {end}");
    }
    Ok(())
}

/// Texts that are no durable log, and no line.
const NO_LOGS: &[&[u8]] = &[b"OTJ", b"OTJ2\x00", b"\nOTJ1\x00"];

#[test]
fn what_does_not_begin_so_is_a_text(rt: HostRuntime) -> Result<(), Fault> {
    for log in NO_LOGS {
        assert!(rt; answers(rt.alloc(), ONE_WORKER, log, (14, "no 1 text\n"))?);
    }
    Ok(())
}

const OF_A_LOGIN: &[Row] = &[
    (ONE_WORKER, LOGIN, (0, ""), (0, "yes 21\n")),
    (
        ONE_WORKER,
        LOGIN,
        (7, "7 w0 s1 reply permit 0000000000000000\n"),
        (14, "no 7 event\n"),
    ),
    (ONE_WORKER, LOGIN, (7, ""), (14, "no 7 count\n")),
    (ONE_WORKER, "", (0, ""), (0, "yes 0\n")),
];

#[test]
fn the_log_of_a_login(rt: HostRuntime) -> Result<(), Fault> {
    for row in OF_A_LOGIN {
        assert!(rt; tells(rt.alloc(), row)?);
    }
    Ok(())
}

#[test]
fn the_log_of_a_run_whose_log_failed(rt: HostRuntime) -> Result<(), Fault> {
    assert!(rt; tells(rt.alloc(), &(PLAIN, CUT, (0, ""), (14, "no 3 text\n")))?);
    Ok(())
}

const OF_A_TAKEOVER: &[Row] = &[
    (TWO_WORKERS, TAKEOVER, (0, ""), (0, "yes 7\n")),
    (TWO_WORKERS, TAKEOVER_LATE, (0, ""), (0, "yes 7\n")),
    (
        TWO_WORKERS,
        TAKEOVER,
        (6, "6 w0 s1 reply deny 16 0\n"),
        (14, "no 6 event\n"),
    ),
];

#[test]
fn the_log_of_a_takeover(rt: HostRuntime) -> Result<(), Fault> {
    for row in OF_A_TAKEOVER {
        assert!(rt; tells(rt.alloc(), row)?);
    }
    Ok(())
}

/// Whether the mode ends by a trouble, of which it tells nothing.
fn ends_by(alloc: Global, setup: &str, log: &str, trouble: Trouble) -> Result<bool, AllocError> {
    let told = Told {
        outcome: Outcome::Ended(trouble),
        sent: "",
    };
    comes_to(alloc, setup.as_bytes(), log.as_bytes(), &[], &told)
}

/// A setup without its counts.
const HALF: &str = "socket = \"s\"\nlauncher = \"l\"\nvault = \"v\"\nwords = \"w\"\n";

/// The fault that it has.
const REFUSED: Trouble = Trouble::SetupRefused(SetupFault {
    key: SetupKey::Workers,
    rule: SetupRule::Missing,
    account: 0,
});

/// A setup, a log, the trouble, and its status.
const MISSING: &[(&str, &str, Trouble, u8)] = &[
    (NONE, NONE, Trouble::Missing(FileKind::Setup), 4),
    (HALF, NONE, REFUSED, 5),
    (PLAIN, NONE, Trouble::Missing(FileKind::Log), 4),
];

#[test]
fn files_that_are_missing_or_refused(rt: HostRuntime) -> Result<(), Fault> {
    for (setup, log, trouble, status) in MISSING {
        assert!(rt; ends_by(rt.alloc(), setup, log, *trouble)?);
        assert!(rt; trouble.status() == *status);
    }
    Ok(())
}

/// A call that fails, a sending after five bytes, the trouble, and what was sent by then.
const FAILING: &[(CallKind, u32, Trouble, &str)] = &[
    (CallKind::Read, 1, Trouble::ReadFailed, ""),
    (CallKind::Read, 2, Trouble::ReadFailed, ""),
    (CallKind::Read, 3, Trouble::ReadFailed, ""),
    (CallKind::Read, 4, Trouble::ReadFailed, ""),
    (CallKind::Send, 1, Trouble::EndsFailed, "no 3 "),
];

/// Whether a call that fails over a log that is cut short comes to that.
fn fails_so(
    alloc: Global,
    call: CallKind,
    number: u32,
    told: &Told<'_>,
) -> Result<bool, AllocError> {
    let fails = [Fail {
        call,
        number,
        sent: 5,
    }];
    comes_to(alloc, PLAIN.as_bytes(), CUT.as_bytes(), &fails, told)
}

#[test]
fn calls_that_fail(rt: HostRuntime) -> Result<(), Fault> {
    for (call, number, trouble, sent) in FAILING {
        let outcome = Outcome::Ended(*trouble);
        assert!(rt; fails_so(rt.alloc(), *call, *number, &Told { outcome, sent })?);
    }
    Ok(())
}

/// A mode and words after it that are no command.
const OTHERS: &[(&str, &[&str])] = &[
    ("audit", &["a"]),
    ("audit", &["a", "b", "c"]),
    ("Audit", &["a", "b"]),
    ("check", &["a", "b"]),
];

#[test]
fn words_of_the_mode(rt: HostRuntime) {
    let whole = read_audit_command("audit", &["a.toml", "a.log"]);
    assert!(rt; whole.is_some_and(|c| c.setup == "a.toml" && c.log == "a.log"));
    assert!(rt; read_audit_command("audit", &["", ""]).is_some());
    for (mode, words) in OTHERS {
        assert!(rt; read_audit_command(mode, words).is_none());
    }
}

#[test]
fn answers_differ(rt: HostRuntime) {
    let no = Audit::No {
        line: 1,
        why: AuditWhy::Text,
    };
    assert!(rt; status(Ok(no)) == 14);
    assert!(rt; status(Ok(Audit::Yes { events: 14 })) == 0);
}
