use super::{Detail, Ended, MemEnded, MemWorld, no_hooks, offline_world, words_of};
use audit_check::AuditWhy;
use info_hooks::Hooks;
use monitor_server::otplogd;
use outside::{Bytes, Word};
use outside_memory::{MemFiles, MemStream};
use std::alloc::{AllocError, Global};
use std::sync::Wait;
use std::test::Fail as Fault;
use std::thread::Threads;
use trouble::RenewFault;

/// A setup with alice, whose stored password is that of `This is a test.` with the seed `test` and the
/// number 1 by MD5 (RFC 2289, appendix C).
const SETUP: &str = "socket = \"s\"
launcher = \"l\"
vault = \"v\"
words = \"list\"
workers = 2
connections = 4
requests = 64
tries = 3
hold = 30000
[[account]]
name = \"alice\"
uid = 1000
algorithm = \"md5\"
seed = \"test\"
sequence = 1
password = \"7965e05436f5029f\"
";

/// Two sessions challenge alice, and the second takes her over.
const LOG: &str = "1 w0 s1 open permit
2 w1 s2 open permit
3 w0 s1 challenge alice 1000 permit 0
4 w1 s2 challenge alice 30999 deny 12 1
5 w1 s2 challenge alice 31000 permit 0
6 w0 s1 reply deny 13 2
7 w1 s2 reply permit 9e876134d90499dd
";

/// The response that renews alice's chain.
const RESPONSE: &str = "init-hex:9e87 6134 d904 99dd:md5 99 test2:50fe1962c4965880";

/// The text of the plain word list.
fn plain_list(alloc: Global) -> Result<Vec<u8>, AllocError> {
    let mut text = Vec::new(alloc);
    for place in 0_u16..2_048 {
        text.push(b'Q')?;
        text.push(b'A' + (place / 256) as u8)?;
        text.push(b'A' + (place / 16 % 16) as u8)?;
        text.push(b'A' + (place % 16) as u8)?;
        text.push(b'\n')?;
    }
    Ok(text)
}

/// A file of these bytes.
fn file(alloc: Global, name: &str, bytes: &[u8]) -> Result<(Word, Bytes), AllocError> {
    let word = Word::of(alloc, name.as_bytes())?;
    Ok((word, Bytes::of(alloc, bytes)?))
}

/// Files of these names and bytes.
fn files_by(alloc: Global, named: &[(&str, &[u8])]) -> Result<MemFiles, AllocError> {
    let mut pairs = Vec::new(alloc);
    for (name, bytes) in named {
        pairs.push(file(alloc, name, bytes)?)?;
    }
    MemFiles::new(alloc, pairs.as_slice(), &[])
}

/// The files `setup`, `log` and `list`, of which the last holds this.
fn files_with<'x>(alloc: Global, list: &'x [u8]) -> Result<MemFiles, AllocError> {
    let (setup, log): (&'x [u8], &'x [u8]) = (SETUP.as_bytes(), LOG.as_bytes());
    files_by(alloc, &[("setup", setup), ("log", log), ("list", list)])
}

/// The same with the plain list.
fn files_of(alloc: Global) -> Result<MemFiles, AllocError> {
    let list = plain_list(alloc)?;
    files_with(alloc, list.as_slice())
}

/// A line of words and an input, and what they come to.
#[derive(Clone, Copy)]
struct Told {
    line: &'static str,
    input: &'static str,
    status: u8,
    detail: Detail,
    sent: &'static str,
}

/// The words of a line, and ends with its input.
fn words_and_ends(alloc: Global, told: &Told) -> Result<(Vec<Word>, MemStream), AllocError> {
    let words = words_of(alloc, told.line)?;
    let ends = MemStream::new(alloc, told.input.as_bytes(), &[100], &[])?;
    Ok((words, ends))
}

/// Whether a run came to this, and the world after it.
fn came_to(ended: MemEnded, told: &Told) -> (bool, MemWorld) {
    let Ended { said, world } = ended;
    let is_told = said.status == told.status && said.detail == told.detail;
    let is_sent = world.ends.sent() == told.sent.as_bytes();
    (is_told && is_sent, world)
}

/// Whether the words with the input come to this, and the world after it.
fn comes<R: Threads + Wait + Sync + AllocGlobal>(
    rt: &R,
    mut world: MemWorld,
    hooks: &Hooks,
    told: &Told,
) -> Result<(bool, MemWorld), AllocError> {
    let (words, ends) = words_and_ends(rt.alloc(), told)?;
    world.ends = ends;
    Ok(came_to(otplogd(rt, rt.alloc(), &words, world, hooks), told))
}

/// The words and the input that renew alice's chain.
const RENEWED: Told = Told {
    line: "renew setup alice",
    input: RESPONSE,
    status: 0,
    detail: Detail::Nothing,
    sent: "renewed alice 99\n",
};

/// The words that audit the log.
const LEGAL: Told = Told {
    line: "audit setup log",
    input: "",
    status: 0,
    detail: Detail::Nothing,
    sent: "yes 7\n",
};

/// The words that enrol carol, whose password at 99 is that of RFC 2289, appendix C.
const ENROLLED: Told = Told {
    line: "enrol carol 1002 sha1 99 TeSt",
    input: "This is a test.\n",
    status: 0,
    detail: Detail::Nothing,
    sent: "\n[[account]]\nalgorithm = \"sha1\"\nenabled = true\ngrants = []\nname = \"carol\"\n\
        password = \"87fec7768b73ccf9\"\nseed = \"test\"\nsequence = 99\nuid = 1002\n",
};

const STEPS: &[Told] = &[
    LEGAL,
    Told {
        line: "renew setup alice log",
        status: 13,
        detail: Detail::LogNotFresh,
        sent: "",
        ..RENEWED
    },
    RENEWED,
    Told {
        status: 15,
        detail: Detail::RenewBad(RenewFault::SameSeed),
        sent: "",
        ..RENEWED
    },
    Told {
        status: 14,
        detail: Detail::AuditNo {
            line: 3,
            why: AuditWhy::Event,
        },
        sent: "no 3 event\n",
        ..LEGAL
    },
    ENROLLED,
    Told {
        input: "short\n",
        status: 12,
        sent: "",
        ..ENROLLED
    },
];

/// How many steps come to what they say, one after the other from this world on.
fn count_steps<R: Threads + Wait + Sync + AllocGlobal>(
    rt: &R,
    mut world: MemWorld,
    hooks: &Hooks,
) -> Result<usize, Fault> {
    let mut count = 0_usize;
    for told in STEPS {
        let (is_so, after) = comes(rt, world, hooks, told)?;
        count = count.wrapping_add(usize::from(is_so));
        world = after;
    }
    Ok(count)
}

/// How many do with this information, from the files of a setup, a log and a list on.
fn count_with<R: Threads + Wait + Sync + AllocGlobal>(
    rt: &R,
    hooks: &Hooks,
) -> Result<usize, Fault> {
    let world = offline_world(rt.alloc(), files_of(rt.alloc())?, b"")?;
    count_steps(rt, world, hooks)
}

/// How many do without information.
fn count_of<R: Threads + Wait + Sync + AllocGlobal>(rt: &R) -> Result<usize, Fault> {
    count_with(rt, &no_hooks(rt.alloc())?)
}

/// The log is legal for the setup with which it began. It is no fresh one, so nothing is renewed beside
/// it. Without it alice is renewed by the same password, and the response is spent. By the new setup the
/// log ends at her first challenge, of another number. Carol is enrolled by a phrase, and by no other line.
#[test]
fn a_log_is_audited_and_an_account_renewed(rt: HostRuntime) -> Result<(), Fault> {
    assert!(rt; count_of(&rt)? == STEPS.len());
    Ok(())
}
