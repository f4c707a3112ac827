use account_file::*;
use otp_hash::{Algo, Seed};
use policy_model::{Account, Grant, Setup, SetupParts};
use request_catalogue::Width;
use std::alloc::AllocError;
use std::test::*;

/// A setup file, line by line.
const LINES: [&str; 24] = [
    "socket = \"s\"",
    "launcher = \"l\"",
    "vault = \"v\"",
    "words = \"w\"",
    "workers = 1",
    "connections = 4",
    "requests = 64",
    "tries = 3",
    "hold = 30000",
    "[[account]]",
    "name = \"alice\"",
    "uid = 1000",
    "algorithm = \"md5\"",
    "seed = \"TeSt\"",
    "sequence = 9",
    "password = \"9e876134d90499dd\"",
    "[[account]]",
    "name = \"bob\"",
    "uid = 1001",
    "algorithm = \"sha1\"",
    "seed = \"test\"",
    "sequence = 1",
    "password = \"63D936639734385B\"",
    "grants = [{ name = \"notes\", mode = 3 }, { name = \"log\", mode = 1 }]",
];

/// The text of a line by changes of the form `PLACE TEXT`, parted by `;`, if one is of its place.
fn line_at(changes: &str, place: usize) -> Option<&str> {
    for change in changes.split(';') {
        if let Some((at, text)) = change.split_once(' ') {
            if at.parse::<usize>() == Ok(place) {
                return Some(text);
            }
        }
    }
    None
}

/// Appends a text, with a newline for each `|`.
fn push_text(text: &mut String, more: &str) -> Result<(), AllocError> {
    for (i, part) in more.split('|').enumerate() {
        if i > 0 {
            text.push_str("\n")?;
        }
        text.push_str(part)?;
    }
    Ok(())
}

/// The file with changes.
fn text_with(rt: &HostRuntime, changes: &str) -> Result<String, AllocError> {
    let mut text = String::new(rt.alloc());
    for (i, line) in LINES.iter().enumerate() {
        push_text(&mut text, line_at(changes, i).unwrap_or(*line))?;
        text.push_str("\n")?;
    }
    Ok(text)
}

/// What is refused of a text.
fn refusal(rt: &HostRuntime, text: &str) -> Option<SetupError> {
    read_setup(rt.alloc(), text.as_bytes()).err()
}

/// Whether a refusal is by this key and rule, of this account.
fn is_so(refusal: Option<SetupError>, key: &str, rule: &str, account: u32) -> bool {
    match refusal {
        Some(SetupError::Refused(fault)) => {
            fault.key.word() == key && fault.rule.word() == rule && fault.account == account
        }
        _ => false,
    }
}

/// The key, the rule and the account that a line has before its changes.
fn refused_by(line: &str) -> Option<(&str, &str, u32, &str)> {
    let (key, rest) = line.split_once(' ')?;
    let (rule, rest) = rest.split_once(' ')?;
    let (account, changes) = rest.split_once(' ')?;
    Some((key, rule, account.parse::<u32>().ok()?, changes))
}

/// Whether the file is refused as a line says.
fn is_refused_so(rt: &HostRuntime, line: &str) -> Result<bool, AllocError> {
    let Some((key, rule, account, changes)) = refused_by(line) else {
        return Ok(false);
    };
    let text = text_with(rt, changes)?;
    Ok(is_so(refusal(rt, text.as_str()), key, rule, account))
}

/// Whether the file is refused as each line says.
fn are_refused_so(rt: &HostRuntime, lines: &str) -> Result<bool, AllocError> {
    let mut all = true;
    for line in lines.lines().skip(1) {
        all &= is_refused_so(rt, line.trim_start())?;
    }
    Ok(all)
}

/// Whether the texts of the whole setup are these.
fn has_texts(parts: &SetupParts) -> bool {
    parts.socket.as_str() == "s"
        && parts.launcher.as_str() == "l"
        && parts.vault.as_str() == "v"
        && parts.words.as_str() == "w"
        && parts.banner.as_str() == "Hi ~"
}

/// Whether its numbers are these.
fn has_numbers(parts: &SetupParts) -> bool {
    parts.workers == 1
        && parts.connections == 4
        && parts.requests == 64
        && parts.tries == 3
        && parts.hold == 3_600_000
        && parts.info.as_slice() == [1_000, 1].as_slice()
}

/// Whether an account is alice's.
fn is_alice(account: &Account) -> bool {
    account.name.as_slice() == b"alice".as_slice()
        && account.uid == 1_000
        && account.algo == Algo::Md5
        && account.seed.as_slice() == b"test".as_slice()
        && account.sequence == 9
        && account.password == 0x9E87_6134_D904_99DD
        && account.enabled
        && account.grants.as_slice().is_empty()
}

/// Whether an account is bob's.
fn is_bob(account: &Account) -> bool {
    account.name.as_slice() == b"bob".as_slice()
        && account.uid == 1_001
        && account.algo == Algo::Sha1
        && account.sequence == 1
        && account.password == 0x63D9_3663_9734_385B
        && are_bobs(account.grants.as_slice())
}

/// Whether grants are bob's.
fn are_bobs(grants: &[Grant]) -> bool {
    match grants {
        [notes, log] => {
            notes.name.as_slice() == b"notes".as_slice()
                && notes.mode == 3
                && log.name.as_slice() == b"log".as_slice()
                && log.mode == 1
        }
        _ => false,
    }
}

/// Whether the accounts are alice's and bob's.
fn are_both(accounts: &[Account]) -> bool {
    match accounts {
        [alice, bob] => is_alice(alice) && is_bob(bob),
        _ => false,
    }
}

/// Whether a setup that was read is the whole one.
fn is_whole(read: &Result<Setup, SetupError>) -> bool {
    match read {
        Ok(setup) => {
            let parts = setup.parts();
            has_texts(parts) && has_numbers(parts) && are_both(parts.accounts.as_slice())
        }
        Err(_) => false,
    }
}

/// Whether a text is read as the whole setup.
fn is_read_whole(rt: &HostRuntime, text: &str) -> bool {
    is_whole(&read_setup(rt.alloc(), text.as_bytes()))
}

#[test]
fn a_whole_setup(rt: HostRuntime) -> Result<(), Fail> {
    let text = text_with(&rt, "8 hold = 3600000|info = [1000, 1]|banner = \"Hi ~\"")?;
    assert!(rt; is_read_whole(&rt, text.as_str()));
    Ok(())
}

/// Each line is the key, the rule and the account of the first fault, and then what is changed.
const REFUSED: &str = "
    file not-toml 0 0 socket
    file not-toml 0 0 socket = \"s\"|socket = \"s\"
    file not-toml 0 4 workers = 10000000000000000000
    other unknown 0 8 hold = 30000|extra = 1
    socket missing 0 0 #
    socket kind 0 0 socket = 1
    socket text 0 0 socket = \"\"
    socket text 0 0 socket = \"\u{e9}\"
    socket text 0 0 socket = \"01234567890123456789012345678901234567890123456789012345678901234567890123456789012345678901234567890\"
    launcher missing 0 1 #
    launcher kind 0 1 launcher = []
    launcher text 0 1 launcher = \"\"
    vault missing 0 2 #
    vault kind 0 2 vault = true
    vault text 0 2 vault = \"\"
    words missing 0 3 #
    words kind 0 3 words = 1.5
    words text 0 3 words = \"a\\nb\"
    banner kind 0 3 words = \"w\"|banner = 1
    banner text 0 3 words = \"w\"|banner = \"\\t\"
    workers missing 0 4 #
    workers kind 0 4 workers = \"1\"
    workers range 0 4 workers = 0
    workers range 0 4 workers = 65
    workers range 0 4 workers = -1
    connections missing 0 5 #
    connections kind 0 5 connections = 4.0
    connections range 0 5 connections = 0
    connections range 0 5 connections = 4097
    requests missing 0 6 #
    requests kind 0 6 requests = []
    requests range 0 6 requests = 7
    requests range 0 6 requests = 4097
    tries missing 0 7 #
    tries kind 0 7 tries = {}
    tries range 0 7 tries = 0
    tries range 0 7 tries = 11
    hold missing 0 8 #
    hold kind 0 8 hold = false
    hold range 0 8 hold = 0
    hold range 0 8 hold = 3600001
    info kind 0 8 hold = 1|info = 1
    info kind 0 8 hold = 1|info = [1, \"2\"]
    info range 0 8 hold = 1|info = [0]
    info range 0 8 hold = 1|info = [1001]
    info twice 0 8 hold = 1|info = [7, 1, 7]
    other unknown 2 17 name = \"bob\"|extra = 1
    name missing 2 17 #
    name kind 2 17 name = 1
    name text 2 17 name = \"Bob\"
    name twice 2 17 name = \"alice\"
    uid missing 2 18 #
    uid kind 2 18 uid = \"1\"
    uid range 2 18 uid = 0
    uid range 2 18 uid = 4294967295
    uid twice 2 18 uid = 1000
    algorithm missing 2 19 #
    algorithm kind 2 19 algorithm = 5
    algorithm text 2 19 algorithm = \"MD5\"
    seed missing 2 20 #
    seed kind 2 20 seed = 1
    seed text 2 20 seed = \"\"
    seed text 2 20 seed = \"te-st\"
    seed text 2 20 seed = \"abcdefghijklmnopq\"
    sequence missing 2 21 #
    sequence kind 2 21 sequence = \"1\"
    sequence range 2 21 sequence = -1
    sequence range 2 21 sequence = 10000
    password missing 2 22 #
    password kind 2 22 password = 1
    password text 2 22 password = \"63d936639734385\"
    password text 2 22 password = \"63d936639734385b0\"
    password text 2 22 password = \"63d936639734385g\"
    enabled kind 2 23 enabled = 1
    grants kind 2 23 grants = 1
    grants kind 2 23 grants = [1]
    other unknown 2 23 grants = [{ name = \"a\", mode = 1, more = 1 }]
    grant-name missing 2 23 grants = [{ mode = 1 }]
    grant-name kind 2 23 grants = [{ name = 1, mode = 1 }]
    grant-name text 2 23 grants = [{ name = \"A\", mode = 1 }]
    grant-name twice 2 23 grants = [{ name = \"a\", mode = 1 }, { name = \"a\", mode = 0 }]
    grant-mode missing 2 23 grants = [{ name = \"a\" }]
    grant-mode kind 2 23 grants = [{ name = \"a\", mode = \"1\" }]
    grant-mode range 2 23 grants = [{ name = \"a\", mode = 0 }]
    grant-mode range 2 23 grants = [{ name = \"a\", mode = 4 }]
    salt kind 0 8 salt=1
    salt text 0 8 salt=\"\"
    salt text 0 8 salt=\"a-b\"
    salt text 0 8 salt=\"abcdefghijklmnopq\"
    frames kind 0 8 frames=1
    frames text 0 8 frames=\"Wide\"";

/// The first of several faults: by the order of the keys, whatever the order of the lines.
const FIRST: &str = "
    requests product 0 4 workers = 4;5 connections = 4096;17 name = 1
    socket missing 0 0 #;4 #
    other unknown 0 0 #;8 hold = 1|extra = 1
    info range 0 8 hold = 1|info = [1, 1, 0];17 #
    seed missing 1 13 #;17 #
    name twice 2 17 name = \"alice\";18 uid = 1000
    other unknown 1 11 uid = 0;10 name = \"alice\"|x = 1
    salt kind 0 7 frames=1;8 salt=1
    banner kind 0 7 salt=1;8 banner=1
    frames kind 0 4 frames=1";

#[test]
fn each_fault(rt: HostRuntime) -> Result<(), Fail> {
    assert!(rt; are_refused_so(&rt, REFUSED)?);
    Ok(())
}

#[test]
fn the_first_of_several_faults(rt: HostRuntime) -> Result<(), Fail> {
    assert!(rt; are_refused_so(&rt, FIRST)?);
    Ok(())
}

/// Whether a setup that was read has this salt and these frames.
fn has(read: &Result<Setup, SetupError>, salt: &[u8], frames: Width) -> bool {
    match read {
        Ok(setup) => {
            let parts = setup.parts();
            Some(parts.salt) == Seed::of(salt) && parts.frames == frames
        }
        Err(_) => false,
    }
}

/// Whether a text is read as a setup with these.
fn is_read_as(rt: &HostRuntime, text: &str, salt: &[u8], frames: Width) -> bool {
    has(&read_setup(rt.alloc(), text.as_bytes()), salt, frames)
}

/// Whether the file is read with these with changes.
fn is_read_with(
    rt: &HostRuntime,
    changes: &str,
    salt: &[u8],
    frames: Width,
) -> Result<bool, AllocError> {
    let text = text_with(rt, changes)?;
    Ok(is_read_as(rt, text.as_str(), salt, frames))
}

#[test]
fn salt_and_frames_and_neither(rt: HostRuntime) -> Result<(), Fail> {
    let plain = "0 socket = \"s\"";
    assert!(rt; is_read_with(&rt, plain, b"decoy", Width::Narrow)?);
    let both = "0 socket = \"s\"|frames = \"wide\"|salt = \"ABCDEFGHIJKLMNO9\"";
    assert!(rt; is_read_with(&rt, both, b"abcdefghijklmno9", Width::Wide)?);
    Ok(())
}

/// Changes with which the file is taken.
const TAKEN: &str = "
    0 socket = \"0123456789012345678901234567890123456789012345678901234567890123456789012345678901234567890123456789\"
    0 \u{feff}socket = \"s\"
    4 workers = 64
    5 connections = 4096
    6 requests = 8
    6 requests = 4096
    7 tries = 10
    8 hold = 1|banner = \"\"|info = []
    10 name = \"alice\"|enabled = false|grants = []
    11 uid = 1
    11 uid = 4294967294
    13 seed = \"abcdefghijklmnO9\"
    14 sequence = 0
    14 sequence = 9999";

/// Whether a text is taken.
fn is_taken(rt: &HostRuntime, text: &str) -> bool {
    refusal(rt, text).is_none()
}

/// Whether the file is taken with changes.
fn is_taken_with(rt: &HostRuntime, changes: &str) -> Result<bool, AllocError> {
    let text = text_with(rt, changes)?;
    Ok(is_taken(rt, text.as_str()))
}

#[test]
fn what_is_taken(rt: HostRuntime) -> Result<(), Fail> {
    for line in TAKEN.lines().skip(1) {
        assert!(rt; is_taken_with(&rt, line.trim_start())?, "of {line}");
    }
    Ok(())
}

/// A file of which a part is there often: so many lines of the file, and what stands before the part, the
/// part, and what stands after it.
struct Long {
    front: usize,
    often: usize,
    parts: [&'static str; 3],
}

/// Such a file, and the key, the rule and the account of its first fault.
struct Refused {
    long: Long,
    key: &'static str,
    rule: &'static str,
    account: u32,
}

const LONG: &[Refused] = &[
    Refused {
        long: Long {
            front: 9,
            often: 1_025,
            parts: ["", "[[account]]|", ""],
        },
        key: "account",
        rule: "range",
        account: 0,
    },
    Refused {
        long: Long {
            front: 9,
            often: 1_024,
            parts: ["", "[[account]]|", ""],
        },
        key: "name",
        rule: "missing",
        account: 1,
    },
    Refused {
        long: Long {
            front: 9,
            often: 0,
            parts: ["account = 1|", "", ""],
        },
        key: "account",
        rule: "kind",
        account: 0,
    },
    Refused {
        long: Long {
            front: 9,
            often: 0,
            parts: ["account = [1]|", "", ""],
        },
        key: "account",
        rule: "kind",
        account: 1,
    },
    Refused {
        long: Long {
            front: 9,
            often: 33,
            parts: ["info = [", "7, ", "]|"],
        },
        key: "info",
        rule: "range",
        account: 0,
    },
    Refused {
        long: Long {
            front: 16,
            often: 65,
            parts: ["grants = [", "1, ", "]|"],
        },
        key: "grants",
        rule: "range",
        account: 1,
    },
    Refused {
        long: Long {
            front: 16,
            often: 64,
            parts: ["grants = [", "1, ", "]|"],
        },
        key: "grants",
        rule: "kind",
        account: 1,
    },
    Refused {
        long: Long {
            front: 3,
            often: 255,
            parts: ["words = \"", "w", "\"|"],
        },
        key: "workers",
        rule: "missing",
        account: 0,
    },
    Refused {
        long: Long {
            front: 3,
            often: 256,
            parts: ["words = \"", "w", "\"|"],
        },
        key: "words",
        rule: "text",
        account: 0,
    },
    Refused {
        long: Long {
            front: 0,
            often: 0,
            parts: ["", "", ""],
        },
        key: "socket",
        rule: "missing",
        account: 0,
    },
];

/// The front of the file.
fn front_of(rt: &HostRuntime, front: usize) -> Result<String, AllocError> {
    let mut text = String::new(rt.alloc());
    for line in LINES.iter().take(front) {
        text.push_str(line)?;
        text.push_str("\n")?;
    }
    Ok(text)
}

/// Appends a text so often.
fn push_often(text: &mut String, more: &str, often: usize) -> Result<(), AllocError> {
    for _ in 0..often {
        push_text(text, more)?;
    }
    Ok(())
}

/// The text of a long file.
fn long_text(rt: &HostRuntime, long: &Long) -> Result<String, AllocError> {
    let [before, part, after] = long.parts;
    let mut text = front_of(rt, long.front)?;
    push_text(&mut text, before)?;
    push_often(&mut text, part, long.often)?;
    push_text(&mut text, after)?;
    Ok(text)
}

/// Whether a long file is refused as a row says.
fn is_long_so(rt: &HostRuntime, row: &Refused) -> Result<bool, AllocError> {
    let text = long_text(rt, &row.long)?;
    Ok(is_so(refusal(rt, text.as_str()), row.key, row.rule, row.account))
}

#[test]
fn long_files(rt: HostRuntime) -> Result<(), Fail> {
    for row in LONG {
        assert!(rt; is_long_so(&rt, row)?, "of {} {}", row.key, row.rule);
    }
    Ok(())
}

/// A file with no accounts in a list.
const NO_ACCOUNTS: Long = Long {
    front: 9,
    often: 0,
    parts: ["account = []|", "", ""],
};

#[test]
fn strange_files(rt: HostRuntime) -> Result<(), Fail> {
    let text = long_text(&rt, &NO_ACCOUNTS)?;
    assert!(rt; is_taken(&rt, text.as_str()));
    let bytes = read_setup(rt.alloc(), b"socket = \"\xFF\"\n").err();
    assert!(rt; is_so(bytes, "file", "not-toml", 0));
    Ok(())
}

#[test]
fn spelled_words(rt: HostRuntime) -> Result<(), Fail> {
    assert!(rt; SetupRule::NoHook.word() == "no-hook");
    Ok(())
}
