use crate::decide;
use otp_hash::{Algo, Seed};
use policy_model::*;
use request_catalogue::{Kind, Label, Name, Note, Width};
use std::alloc::{AllocError, Global};
use std::process::Abort;
use std::str::SplitWhitespace;
use std::test::Fail;

/// The password 0 of `This is a test.` with the seed `test` by MD5, and the one before it (RFC
/// 2289, appendix C).
const LAST: u64 = 0x9E87_6134_D904_99DD;

const STORED: u64 = 0x7965_E054_36F5_029F;

/// Each line is a worker, an ask, and what has to be decided on it.
const TAKEOVER: &str = "
    0 open permit 1
    1 open permit 2
    0 challenge alice 1000 permit 0
    1 challenge alice 30999 deny 12 1
    1 challenge alice 31000 permit 0
    0 reply last deny 13 2
    1 reply last permit last";

const TAKEOVER_LATE: &str = "
    0 open permit 1
    1 open permit 2
    0 challenge alice 1000 permit 0
    1 challenge alice 30999 deny 12 1
    1 challenge alice 31000 permit 0
    1 reply last permit last
    0 reply last deny 13 2";

const LAST_PASSWORD: &str = "
    0 open permit 1
    0 challenge bob 1000 permit 10802
    0 abandon permit 0
    0 challenge alice 1000 permit 0
    0 reply last permit last
    0 finish permit 0
    0 end permit 0
    0 open permit 2
    0 challenge alice 90000 permit 10532";

/// Carol is disabled, dave has no password left, nobody has the name bob.
const DECOYS: &str = "
    0 open permit 1
    1 open permit 2
    0 challenge alice 1000 permit 0
    1 challenge carol 1000 permit 10148
    1 unread deny 14 0
    1 challenge dave 1000 permit 10082
    1 reply last deny 16 0
    1 challenge bob 1000 permit 10802
    1 both last stored deny 16 0
    1 challenge bob 1000 deny 8 3
    0 reply last permit last";

/// A decoy does not take its user.
const DECOYS_TAKE_NOBODY: &str = "
    0 open permit 1
    1 open permit 2
    0 challenge bob 1000 permit 10802
    1 challenge bob 1000 permit 10802
    1 challenge bob 1000 deny 6 2";

/// Rule 12 is told of a user that can log in.
const HELD: &str = "
    0 open permit 1
    1 open permit 2
    0 challenge alice 1000 permit 0
    1 challenge alice 1000 deny 12 1
    1 challenge carol 1000 permit 10148
    1 reply last deny 16 0
    1 challenge alice 1000 deny 12 1
    0 abandon permit 0
    1 challenge alice 1000 permit 0";

const EARLY_REPLY: &str = "
    0 open permit 1
    0 reply last deny 6 3
    0 write 0 deny 6 8
    0 violation 6 permit 0";

const EARLY_EXPORT: &str = "
    0 open permit 1
    0 export deny 6 5";

const TWO_BANNERS: &str = "
    0 open permit 1
    0 banner permit 0
    0 banner deny 7 1
    0 end permit 0
    0 open permit 2
    0 banner permit 0";

const TWO_IMPORTS: &str = "
    0 open permit 1
    0 challenge alice 1000 permit 0
    0 abandon permit 0
    0 challenge alice 1000 permit 0
    0 reply last permit last
    0 export permit 0
    0 import permit 0
    0 import deny 7 6";

const TWO_EXPORTS: &str = "
    0 open permit 1
    0 challenge alice 1000 permit 0
    0 reply last permit last
    0 export permit 0
    0 export deny 6 5";

const DENIED_REPLIES: &str = "
    0 open permit 1
    0 challenge alice 1000 permit 0
    0 unread deny 14 0
    0 challenge alice 1000 permit 0
    0 reply stored deny 15 0
    0 challenge alice 1000 permit 0
    0 reply 0 deny 16 0
    0 challenge alice 1000 deny 8 3";

const WORDS_FIRST: &str = "
    0 open permit 1
    0 challenge alice 1000 permit 0
    0 both last stored permit last";

const DIGITS_SECOND: &str = "
    0 open permit 1
    0 challenge alice 1000 permit 0
    0 both stored last permit last";

const HANDLES: &str = "
    0 open permit 1
    0 challenge alice 1000 permit 0
    0 reply last permit last
    0 export permit 0
    0 grant 1 f1 permit 1
    0 grant 1 f2 permit 2
    0 grant 1 f3 permit 3
    0 grant 1 f4 permit 4
    0 grant 1 f5 permit 5
    0 grant 1 f6 permit 6
    0 grant 1 f7 permit 7
    0 grant 1 f8 permit 8
    0 grant 1 f9 deny 19 8
    0 close 3 permit 0
    0 grant 1 f9 permit 3
    0 read 9 deny 17 9
    0 read 1 permit 0
    0 write 1 deny 18 1
    0 write 0 permit 0
    0 close 0 deny 17 0
    0 close 8 permit 0
    0 grant 1 g deny 20 0
    0 grant 2 f1 deny 21 2";

const BUDGET: &str = "
    0 open permit 1
    0 note permit 0
    0 note permit 0
    0 note permit 0
    0 note permit 0
    0 note permit 0
    0 note permit 0
    0 note permit 0
    0 note permit 0
    0 note deny 1 8
    0 violation 1 permit 0
    0 open permit 2
    0 note permit 0";

const INFORMATION: &str = "
    0 open permit 1
    0 challenge alice 1000 permit 0
    0 reply last permit last
    0 export permit 0
    0 info 1 permit 0
    0 info 2 deny 22 2";

const OPENINGS_AND_ENDS: &str = "
    0 end deny 6 0
    0 finish deny 6 13
    0 open permit 1
    1 open permit 2
    1 bad 2 1 deny 2 1
    1 bad 2 1 deny 6 0
    0 open deny 6 0
    0 note deny 6 12
    0 violation 6 permit 0
    0 end deny 6 0";

fn name(text: &str) -> Result<Name, Fail> {
    Ok(Name::of(text.as_bytes()).ok_or("a name")?)
}

fn label(text: &str) -> Result<Label, Fail> {
    Ok(Label::of(text.as_bytes()).ok_or("a label")?)
}

/// The next word of a line.
fn word<'a>(words: &mut SplitWhitespace<'a>) -> Result<&'a str, Fail> {
    Ok(words.next().ok_or("a word")?)
}

/// The next word as a number, or a password by its name.
fn number(words: &mut SplitWhitespace<'_>) -> Result<u64, Fail> {
    match word(words)? {
        "last" => Ok(LAST),
        "stored" => Ok(STORED),
        text => Ok(text.parse::<u64>()?),
    }
}

/// The next word as a number of 32 bits.
fn small(words: &mut SplitWhitespace<'_>) -> Result<u32, Fail> {
    Ok(u32::try_from(number(words)?)?)
}

/// The next word as a number of 8 bits.
fn tiny(words: &mut SplitWhitespace<'_>) -> Result<u8, Fail> {
    Ok(u8::try_from(number(words)?)?)
}

/// A REPLY with two readings, one or none.
fn reply(words: Option<u64>, hex: Option<u64>) -> Ask {
    Ask::Reply { words, hex }
}

/// An ask before the login.
fn early_ask(kind: &str, words: &mut SplitWhitespace<'_>) -> Result<Ask, Fail> {
    Ok(match kind {
        "open" => Ask::Begin,
        "banner" => Ask::Banner,
        "challenge" => Ask::Challenge {
            user: name(word(words)?)?,
            now: number(words)?,
        },
        "reply" => reply(None, Some(number(words)?)),
        "both" => reply(Some(number(words)?), Some(number(words)?)),
        "unread" => reply(None, None),
        "abandon" => Ask::Abandon,
        "export" => Ask::Export { len: 21 },
        _ => late_ask(kind, words)?,
    })
}

/// An ask of a user's child, a bad frame or an end.
fn late_ask(kind: &str, words: &mut SplitWhitespace<'_>) -> Result<Ask, Fail> {
    Ok(match kind {
        "import" => Ask::Import,
        "grant" => Ask::OpenFile {
            mode: tiny(words)?,
            name: label(word(words)?)?,
        },
        "close" => Ask::CloseFile {
            handle: small(words)?,
        },
        "info" => Ask::Info {
            number: small(words)?,
        },
        "bad" => Ask::Bad {
            rule: tiny(words)?,
            detail: small(words)?,
        },
        "violation" => Ask::End {
            why: Why::Violation { rule: tiny(words)? },
        },
        "end" => Ask::End { why: Why::Finished },
        _ => any_ask(kind, words)?,
    })
}

/// An ask that each phase permits.
fn any_ask(kind: &str, words: &mut SplitWhitespace<'_>) -> Result<Ask, Fail> {
    Ok(match kind {
        "read" => Ask::ReadAt {
            handle: small(words)?,
            offset: 0,
            max: 1,
        },
        "write" => Ask::WriteAt {
            handle: small(words)?,
            offset: 0,
            len: 1,
        },
        "note" => Ask::Note {
            text: Note::of(b"a").ok_or("a note")?,
        },
        "finish" => Ask::Finish,
        _ => return Err(Fail::from("an ask")),
    })
}

/// The decision at the end of a line.
fn decision(words: &mut SplitWhitespace<'_>) -> Result<Decision, Fail> {
    match word(words)? {
        "permit" => Ok(Decision::Permit {
            value: number(words)?,
        }),
        "deny" => Ok(Decision::Deny {
            rule: tiny(words)?,
            detail: small(words)?,
        }),
        _ => Err(Fail::from("a decision")),
    }
}

/// Makes the ask of one line after the events so far.
fn ask(rt: &impl Abort, setup: &Setup, journal: &mut Vec<Event>, line: &str) -> Result<(), Fail> {
    let mut words = line.split_whitespace();
    let worker = small(&mut words)?;
    let kind = word(&mut words)?;
    let ask = early_ask(kind, &mut words)?;
    let want = decision(&mut words)?;
    assert!(rt; journal.len() < 1000);
    let given = decide(setup, journal, worker, &ask)?;
    assert!(rt; given == want, "of {line}");
    Ok(())
}

/// Makes the asks of all lines in order.
fn play(rt: &impl Abort, alloc: Global, setup: &Setup, text: &str) -> Result<(), Fail> {
    let mut journal: Vec<Event> = Vec::new(alloc);
    for line in text.lines() {
        if !line.is_empty() {
            ask(rt, setup, &mut journal, line)?;
        }
    }
    Ok(())
}

/// An account with the seed `test`.
fn account(user: Name, uid: u32, sequence: u16, grants: Grants) -> Result<Account, Fail> {
    let seed = Seed::of(b"test").ok_or("a seed")?;
    Ok(Account {
        name: user,
        uid,
        algo: Algo::Md5,
        seed,
        sequence,
        password: STORED,
        enabled: true,
        grants,
    })
}

/// Socket, launcher, vault, words and banner of the plain setup.
const PLAIN_TEXTS: [&str; 5] = ["otplogd.sock", "otplogd", "vault", "words", ""];

/// Workers, connections, requests, tries and hold of the plain setup, but for a second worker.
const PLAIN_COUNTS: [u32; 5] = [2, 1, 64, 3, 30_000];

/// The texts of a setup.
#[derive(Drop)]
struct Texts {
    socket: Text,
    launcher: Text,
    vault: Text,
    words: Text,
    banner: Text,
}

fn text(alloc: Global, text: &str) -> Result<Text, AllocError> {
    Ok(Text::of(String::from_str(alloc, text)?))
}

fn texts_of(alloc: Global, texts: [&str; 5]) -> Result<Texts, AllocError> {
    Ok(Texts {
        socket: text(alloc, texts[0])?,
        launcher: text(alloc, texts[1])?,
        vault: text(alloc, texts[2])?,
        words: text(alloc, texts[3])?,
        banner: text(alloc, texts[4])?,
    })
}

/// The parts of a setup.
fn parts(
    alloc: Global,
    texts: [&str; 5],
    counts: [u32; 5],
    info: Vec<u32>,
    accounts: Vec<Account>,
) -> Result<SetupParts, AllocError> {
    let Texts {
        socket,
        launcher,
        vault,
        words,
        banner,
    } = texts_of(alloc, texts)?;
    Ok(SetupParts {
        socket,
        launcher,
        vault,
        words,
        banner,
        salt: plain_salt(),
        frames: Width::Narrow,
        workers: counts[0],
        connections: counts[1],
        requests: counts[2],
        tries: counts[3],
        hold: counts[4],
        info: Numbers::of(info),
        accounts: Accounts::of(accounts),
    })
}

fn setup_of(parts: SetupParts) -> Result<Setup, Fail> {
    match Setup::of(parts) {
        Ok(setup) => Ok(setup),
        Err(_) => Err(Fail::from("in range")),
    }
}

/// Grants of mode 1 for `f1` to `f9`.
fn nine_grants(alloc: Global) -> Result<Vec<Grant>, Fail> {
    let mut grants = Vec::new(alloc);
    for text in ["f1", "f2", "f3", "f4", "f5", "f6", "f7", "f8", "f9"] {
        grants.push(Grant {
            name: label(text)?,
            mode: 1,
        })?;
    }
    Ok(grants)
}

/// The one account `alice` with her grants.
fn alice_alone(alloc: Global) -> Result<Vec<Account>, Fail> {
    let grants = Grants::of(nine_grants(alloc)?);
    let mut accounts = Vec::new(alloc);
    accounts.push(account(name("alice")?, 1000, 1, grants)?)?;
    Ok(accounts)
}

/// The information number 1.
fn one_number(alloc: Global) -> Result<Vec<u32>, AllocError> {
    let mut info = Vec::new(alloc);
    info.push(1)?;
    Ok(info)
}

/// The setup with the one account `alice`, her grants, and the information number 1.
fn one_account(alloc: Global) -> Result<Setup, Fail> {
    let info = one_number(alloc)?;
    let accounts = alice_alone(alloc)?;
    setup_of(parts(alloc, PLAIN_TEXTS, PLAIN_COUNTS, info, accounts)?)
}

/// Plays each row over the same setup.
fn play_all<R: Abort>(rt: &R, alloc: Global, setup: &Setup, texts: &[&str]) -> Result<(), Fail> {
    for text in texts {
        play(rt, alloc, setup, text)?;
    }
    Ok(())
}

/// Plays rows over the setup with one account, which is alive in no other function: that keeps the
/// proofs short.
fn play_alice<R: Abort>(rt: &R, alloc: Global, texts: &[&str]) -> Result<(), Fail> {
    play_all(rt, alloc, &one_account(alloc)?, texts)
}

#[test]
fn takeovers_and_phases(rt: HostRuntime) -> Result<(), Fail> {
    let takeovers = [TAKEOVER, TAKEOVER_LATE, LAST_PASSWORD];
    play_alice(&rt, rt.alloc(), &takeovers)?;
    let phases = [
        EARLY_REPLY,
        EARLY_EXPORT,
        TWO_BANNERS,
        TWO_IMPORTS,
        TWO_EXPORTS,
    ];
    play_alice(&rt, rt.alloc(), &phases)
}

#[test]
fn replies_files_and_information(rt: HostRuntime) -> Result<(), Fail> {
    let replies = [DENIED_REPLIES, WORDS_FIRST, DIGITS_SECOND];
    play_alice(&rt, rt.alloc(), &replies)?;
    let others = [HANDLES, INFORMATION, OPENINGS_AND_ENDS];
    play_alice(&rt, rt.alloc(), &others)
}

/// An account without grants.
fn plain_account(alloc: Global, user: &str, uid: u32, sequence: u16) -> Result<Account, Fail> {
    account(name(user)?, uid, sequence, Grants::of(Vec::new(alloc)))
}

/// `alice`, `carol` who is disabled and `dave` who has no password left.
fn alice_carol_dave(alloc: Global) -> Result<Vec<Account>, Fail> {
    let mut accounts = Vec::new(alloc);
    accounts.push(plain_account(alloc, "alice", 1000, 1)?)?;
    let mut carol = plain_account(alloc, "carol", 1001, 1)?;
    carol.enabled = false;
    accounts.push(carol)?;
    accounts.push(plain_account(alloc, "dave", 1002, 0)?)?;
    Ok(accounts)
}

/// The setup with these three.
fn three_accounts(alloc: Global) -> Result<Setup, Fail> {
    let accounts = alice_carol_dave(alloc)?;
    let none = Vec::new(alloc);
    setup_of(parts(alloc, PLAIN_TEXTS, PLAIN_COUNTS, none, accounts)?)
}

/// Plays rows over the setup with three accounts.
fn play_three<R: Abort>(rt: &R, alloc: Global, texts: &[&str]) -> Result<(), Fail> {
    play_all(rt, alloc, &three_accounts(alloc)?, texts)
}

#[test]
fn decoys(rt: HostRuntime) -> Result<(), Fail> {
    play_three(&rt, rt.alloc(), &[DECOYS, DECOYS_TAKE_NOBODY, HELD])
}

/// The setup with a salt and no accounts.
fn salted(alloc: Global, salt: &str) -> Result<Setup, Fail> {
    let salt = Seed::of(salt.as_bytes()).ok_or("a salt")?;
    let none = Vec::new(alloc);
    let mut parts = parts(alloc, PLAIN_TEXTS, PLAIN_COUNTS, none, Vec::new(alloc))?;
    parts.salt = salt;
    setup_of(parts)
}

/// Whether a decoy has these parts.
fn is_decoy(decoy: &Decoy, algo: Algo, n: u16, seed: &[u8]) -> bool {
    decoy.algo == algo && decoy.n == n && decoy.seed.as_slice() == seed
}

/// The decoy of a name by a salt.
fn decoy_of(alloc: Global, salt: &str, user: &str) -> Result<Decoy, Fail> {
    let user = name(user)?;
    Ok(salted(alloc, salt)?.decoy(&user))
}

/// Each algorithm, number and seed was computed by another program.
#[test]
fn decoys_of_names(rt: HostRuntime) -> Result<(), Fail> {
    let bc = decoy_of(rt.alloc(), "a", "bc")?;
    assert!(rt; is_decoy(&bc, Algo::Sha1, 482, b"46976fe5"));
    let lo = decoy_of(rt.alloc(), "hel", "lo")?;
    assert!(rt; is_decoy(&lo, Algo::Md5, 412, b"e430ddbb"));
    Ok(())
}

#[test]
fn what_is_shown(rt: HostRuntime) -> Result<(), Fail> {
    let refused = Decision::Deny {
        rule: 16,
        detail: 0,
    };
    for rule in [13, 14, 15, 16] {
        assert!(rt; shown(&Decision::Deny { rule, detail: 2 }) == refused);
    }
    for rule in [12, 17] {
        let decision = Decision::Deny { rule, detail: 2 };
        assert!(rt; shown(&decision) == decision);
    }
    Ok(())
}

/// The setup with a budget of two connections with eight requests.
fn eight_requests(alloc: Global) -> Result<Setup, Fail> {
    let none = Vec::new(alloc);
    setup_of(parts(alloc, PLAIN_TEXTS, [1, 2, 8, 3, 1], none, Vec::new(alloc))?)
}

/// Plays rows over it.
fn play_eight<R: Abort>(rt: &R, alloc: Global, texts: &[&str]) -> Result<(), Fail> {
    play_all(rt, alloc, &eight_requests(alloc)?, texts)
}

#[test]
fn the_budget_of_a_session(rt: HostRuntime) -> Result<(), Fail> {
    play_eight(&rt, rt.alloc(), &[BUDGET])
}

/// What the table says of a cell: `-` nothing, `y` permitted, `o` once, `d` deciding.
fn cell(phase: Phase, kind: Kind) -> &'static str {
    let row = row(phase, kind);
    if !row.permitted {
        "-"
    } else if row.once {
        "o"
    } else if row.deciding {
        "d"
    } else {
        "y"
    }
}

/// The phases: before the login, challenged, verified, of the user, over.
const PHASES: [Phase; 5] = [
    Phase::Pre,
    Phase::Challenged,
    Phase::Verified,
    Phase::User,
    Phase::Over,
];

/// The cells of the requests 1 to 13, a column for each phase.
const CELLS: &[(u32, &str)] = &[
    (1, "oo---"),
    (2, "y----"),
    (3, "-d---"),
    (4, "-y---"),
    (5, "--o--"),
    (6, "---o-"),
    (7, "yyyy-"),
    (8, "yyyy-"),
    (9, "---y-"),
    (10, "---y-"),
    (11, "---y-"),
    (12, "yyyy-"),
    (13, "yyyy-"),
];

/// The cells of a kind.
fn cells_of(alloc: Global, kind: Kind) -> Result<String, AllocError> {
    let mut cells = String::new(alloc);
    for phase in PHASES {
        cells.push_str(cell(phase, kind))?;
    }
    Ok(cells)
}

/// Whether the request of a number has these cells.
fn has_cells(alloc: Global, number: u32, want: &str) -> Result<bool, Fail> {
    let kind = Kind::of(number).ok_or("a kind")?;
    Ok(cells_of(alloc, kind)?.as_str() == want)
}

#[test]
fn the_phase_table(rt: HostRuntime) -> Result<(), Fail> {
    for (number, want) in CELLS {
        assert!(rt; has_cells(rt.alloc(), *number, want)?, "{number}");
    }
    Ok(())
}

mod ranges;
