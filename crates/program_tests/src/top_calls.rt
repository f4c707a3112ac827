ghost use Rattle.std.specs.Prelude.{◌<◌, ◌≤◌, All, IfOk, length};
ghost use Rattle.outside_memory.specs.MemPost.{faults_of, scene_of};
ghost use Rattle.outside.specs.Scene.{IsFresh};

use account_file::{SetupFault, SetupKey, SetupRule};
use audit_check::AuditWhy;
use info_hooks::Hooks;
use monitor_server::{Detail, Ended, World, otplogd};
use otp_words::{DictFault, DictRule};
use outside::{Accepted, Act, Bytes, Role, Word};
use outside_memory::{MemFiles, MemPost, MemSink, MemSite, MemStream, Script};
use std::alloc::{AllocError, Global};
use std::sync::Wait;
use std::test::Fail as Fault;
use std::thread::Threads;
use trouble::FileKind;

mod drills;
mod offline;

/// The child before the login of the first session.
const PRE: Role = Role::Pre { session: 1 };

/// WRITE of `hi` and FINISH.
const SMALLEST: &[u8] = b"\x08\0\0\0\x1e\0\0\0\0\0\0\0\0\0\0\0\0\0\0\0\0\0\0\0\0\0\0\0hi\
    \x0d\0\0\0\x10\0\0\0\0\0\0\0\0\0\0\0";

/// The replies to both, done.
const BOTH_DONE: &[u8] = b"\x08\x01\0\0\x11\0\0\0\0\0\0\0\x01\0\0\0\0\
    \x0d\x01\0\0\x11\0\0\0\0\0\0\0\x01\0\0\0\0";

const SMALLEST_LOG: &str = "1 w0 s1 open permit\n2 w0 s1 write 0 0 2 permit\n\
    3 w0 s1 finish permit\n4 w0 s1 end finished permit\n";

/// What the child of one connection sends, and nobody else anything.
fn script_of(alloc: Global, pre: &[u8]) -> Result<Script, AllocError> {
    Ok(Script {
        client: Bytes::of(alloc, b"")?,
        pre: Bytes::of(alloc, pre)?,
        user: Bytes::of(alloc, b"")?,
    })
}

/// A post with one connection, whose child sends these bytes in pieces of these lengths.
fn post(alloc: Global, pre: &[u8], cuts: &[usize]) -> Result<MemPost, AllocError>
    requires some_cut { 0 < length cuts.now }
    requires each_cut { All (λ c. 1 ≤ c) cuts.now }
    ensures { IfOk result (IsFresh scene_of faults_of) }
{
    let scripts = vec![in alloc; script_of(alloc, pre)?]?;
    MemPost::new(alloc, scripts, cuts, &[0], 100, &[])
}

/// No information.
fn no_hooks(alloc: Global) -> Result<Hooks, Fault> {
    Ok(Hooks::new(Vec::new(alloc)).ok().ok_or("hooks")?)
}

/// What a command is run over in memory.
type MemWorld = World<MemFiles, MemSite<MemPost>, MemSink, MemStream>;

/// What it comes to.
type MemEnded = Ended<MemFiles, MemSite<MemPost>, MemSink, MemStream>;

/// An empty log, and ends with this input.
fn log_and_ends(alloc: Global, input: &[u8]) -> Result<(MemSink, MemStream), AllocError> {
    let log = MemSink::new(alloc, &[])?;
    let ends = MemStream::new(alloc, input, &[100], &[])?;
    Ok((log, ends))
}

/// This site and these files, ends with this input, and an empty log.
fn world_of(
    alloc: Global,
    site: MemSite<MemPost>,
    files: MemFiles,
    input: &[u8],
) -> Result<MemWorld, AllocError> {
    let (log, ends) = log_and_ends(alloc, input)?;
    Ok(World {
        files,
        site,
        log,
        ends,
    })
}

/// These files, ends with this input, and a site without posts.
fn offline_world(alloc: Global, files: MemFiles, input: &[u8]) -> Result<MemWorld, AllocError> {
    let site: MemSite<MemPost> = MemSite::new(alloc, Vec::new(alloc))?;
    world_of(alloc, site, files, input)
}

/// The same without a file.
fn no_files(alloc: Global, input: &[u8]) -> Result<MemWorld, AllocError> {
    offline_world(alloc, MemFiles::new(alloc, &[], &[])?, input)
}

/// A site of one such post.
fn site_of(alloc: Global, pre: &[u8], cuts: &[usize]) -> Result<MemSite<MemPost>, AllocError>
    requires some_cut { 0 < length cuts.now }
    requires each_cut { All (λ c. 1 ≤ c) cuts.now }
{
    let posts = vec![in alloc; post(alloc, pre, cuts)?]?;
    MemSite::new(alloc, posts)
}

/// What `serve` is run over: one such post, and no file.
fn served_world(alloc: Global, pre: &[u8], cuts: &[usize]) -> Result<MemWorld, AllocError>
    requires some_cut { 0 < length cuts.now }
    requires each_cut { All (λ c. 1 ≤ c) cuts.now }
{
    let site = site_of(alloc, pre, cuts)?;
    world_of(alloc, site, MemFiles::new(alloc, &[], &[])?, b"")
}

/// The text of the log, as bytes.
fn log_of(ended: &MemEnded) -> &[u8] {
    ended.world.log.held()
}

/// The bytes that the first child was sent, if one was given back.
fn sent_to_child(ended: &MemEnded) -> Option<&[u8]> {
    ended
        .said
        .posts
        .first()?
        .talks()
        .first()
        .map(|talk| talk.sent.as_slice())
}

/// What a post does in the smallest run.
fn smallest_acts(alloc: Global) -> Result<Vec<Act>, AllocError> {
    let bytes = Bytes::of(alloc, b"hi")?;
    Ok(vec![in alloc;
        Act::Accept {
            outcome: Accepted::Came
        },
        Act::Start {
            role: PRE,
            outcome: Ok(())
        },
        Act::ConnSend {
            bytes,
            outcome: Ok(())
        },
        Act::Finish { role: PRE },
        Act::HangUp,
    ]?)
}

/// Whether the one post did just this.
fn did(posts: &[MemPost], acts: &[Act]) -> bool {
    match posts {
        [post] => post.acts() == acts,
        _ => false,
    }
}

/// Whether the one post did what it does in the smallest run.
fn did_smallest(alloc: Global, posts: &[MemPost]) -> Result<bool, AllocError> {
    Ok(did(posts, smallest_acts(alloc)?.as_slice()))
}

/// Whether a run is the smallest one.
fn is_smallest(alloc: Global, ended: &MemEnded) -> Result<bool, Fault> {
    let is_served = ended.said.status == 0
        && ended.said.journal.len() == 4
        && log_of(ended) == SMALLEST_LOG.as_bytes()
        && sent_to_child(ended) == Some(BOTH_DONE);
    Ok(is_served && did_smallest(alloc, ended.said.posts.as_slice())?)
}

/// Whether the smallest run succeeds with the child's bytes in pieces of these lengths.
fn succeeds_with<R: Threads + Wait + Sync + AllocGlobal>(
    rt: &R,
    cuts: &[usize],
    hooks: &Hooks,
) -> Result<bool, Fault>
    requires some_cut { 0 < length cuts.now }
    requires each_cut { All (λ c. 1 ≤ c) cuts.now }
{
    let words = words_of(rt.alloc(), "serve")?;
    let world = served_world(rt.alloc(), SMALLEST, cuts)?;
    is_smallest(rt.alloc(), &otplogd(rt, rt.alloc(), &words, world, hooks))
}

/// The same without information.
fn succeeds<R: Threads + Wait + Sync + AllocGlobal>(rt: &R, cuts: &[usize]) -> Result<bool, Fault>
    requires some_cut { 0 < length cuts.now }
    requires each_cut { All (λ c. 1 ≤ c) cuts.now }
{
    succeeds_with(rt, cuts, &no_hooks(rt.alloc())?)
}

#[test]
fn the_smallest_run_succeeds(rt: HostRuntime) -> Result<(), Fault> {
    for cuts in [[100, 100, 100], [1, 1, 1], [15, 2, 100]] {
        assert!(rt; succeeds(&rt, &cuts)?);
    }
    Ok(())
}

/// The words of a command line.
fn words_of(alloc: Global, line: &str) -> Result<Vec<Word>, AllocError> {
    let mut words = Vec::new(alloc);
    for word in line.split(' ') {
        words.push(Word::of(alloc, word.as_bytes())?)?;
    }
    Ok(words)
}

/// Words that serve nobody, with what the input and one file hold, and what comes of them.
#[derive(Clone, Copy)]
struct Unserved {
    line: &'static str,
    input: &'static [u8],
    file: (&'static str, &'static [u8]),
    status: u8,
    detail: Detail,
    sent: &'static [u8],
}

const PHRASE: &[u8] = b"This is a test.\n";

const MISSING: Detail = Detail::Missing {
    file: FileKind::Words,
};

/// A setup that names itself as its word list.
const ITS_OWN_LIST: &[u8] = b"socket = \"s\"
launcher = \"l\"
vault = \"v\"
words = \"setup\"
workers = 1
connections = 1
requests = 8
tries = 1
hold = 1
";

const UNSERVED: &[Unserved] = &[
    // No post is there for the one worker.
    Unserved {
        line: "serve",
        input: PHRASE,
        file: ("", b""),
        status: 6,
        detail: Detail::Nothing,
        sent: b"",
    },
    Unserved {
        line: "serve setup",
        input: b"",
        file: ("other", b""),
        status: 4,
        detail: Detail::Missing {
            file: FileKind::Setup,
        },
        sent: b"",
    },
    Unserved {
        line: "serve setup",
        input: b"",
        file: ("setup", b"launcher = \"l\"\n"),
        status: 5,
        detail: Detail::SetupBad(SetupFault {
            key: SetupKey::Socket,
            rule: SetupRule::Missing,
            account: 0,
        }),
        sent: b"",
    },
    Unserved {
        line: "serve setup",
        input: b"",
        file: ("setup", ITS_OWN_LIST),
        status: 5,
        detail: Detail::WordsBad(DictFault {
            line: 1,
            rule: DictRule::Length,
        }),
        sent: b"",
    },
    Unserved {
        line: "check setup",
        input: b"",
        file: ("other", b""),
        status: 4,
        detail: Detail::Missing {
            file: FileKind::Setup,
        },
        sent: b"missing setup\n",
    },
    Unserved {
        line: "check setup",
        input: b"",
        file: ("setup", b"launcher = \"l\"\n"),
        status: 5,
        detail: Detail::SetupBad(SetupFault {
            key: SetupKey::Socket,
            rule: SetupRule::Missing,
            account: 0,
        }),
        sent: b"refused setup socket missing 0\n",
    },
    Unserved {
        line: "check setup",
        input: b"",
        file: ("setup", ITS_OWN_LIST),
        status: 5,
        detail: Detail::WordsBad(DictFault {
            line: 1,
            rule: DictRule::Length,
        }),
        sent: b"refused words 1 length\n",
    },
    Unserved {
        line: "audit setup log",
        input: b"",
        file: ("setup", ITS_OWN_LIST),
        status: 4,
        detail: Detail::Missing {
            file: FileKind::Log,
        },
        sent: b"",
    },
    Unserved {
        line: "audit setup setup",
        input: b"",
        file: ("setup", ITS_OWN_LIST),
        status: 14,
        detail: Detail::AuditNo {
            line: 1,
            why: AuditWhy::Text,
        },
        sent: b"no 1 text\n",
    },
    Unserved {
        line: "renew setup alice",
        input: b"",
        file: ("other", b""),
        status: 4,
        detail: Detail::Missing {
            file: FileKind::Setup,
        },
        sent: b"",
    },
    Unserved {
        line: "renew setup alice",
        input: b"",
        file: ("setup", ITS_OWN_LIST),
        status: 5,
        detail: Detail::WordsBad(DictFault {
            line: 1,
            rule: DictRule::Length,
        }),
        sent: b"",
    },
    Unserved {
        line: "otp md5 99 TeSt",
        input: PHRASE,
        file: ("", b""),
        status: 0,
        detail: Detail::Nothing,
        sent: b"50FE 1962 C496 5880\n",
    },
    Unserved {
        line: "otp sha1 1 TeSt",
        input: b"short\n",
        file: ("", b""),
        status: 12,
        detail: Detail::Nothing,
        sent: b"",
    },
    Unserved {
        line: "otp md5 1 TeSt plain.txt",
        input: PHRASE,
        file: ("other.txt", b""),
        status: 4,
        detail: MISSING,
        sent: b"",
    },
    Unserved {
        line: "otp md5 1 TeSt plain.txt",
        input: PHRASE,
        file: ("plain.txt", b"QAAA\nQAAB\n"),
        status: 5,
        detail: Detail::WordsBad(DictFault {
            line: 2,
            rule: DictRule::Count,
        }),
        sent: b"",
    },
];

/// The one file of a row.
fn file_of(alloc: Global, row: &Unserved) -> Result<(Word, Bytes), AllocError> {
    let name = Word::of(alloc, row.file.0.as_bytes())?;
    Ok((name, Bytes::of(alloc, row.file.1)?))
}

/// What a row's words are run over.
fn world_in(alloc: Global, row: &Unserved) -> Result<MemWorld, AllocError> {
    let pair = file_of(alloc, row)?;
    let files = MemFiles::new(alloc, &[pair], &[])?;
    offline_world(alloc, files, row.input)
}

/// Whether a run served nobody, and came to what a row says.
fn is_unserved(ended: &MemEnded, row: &Unserved) -> bool {
    ended.said.status == row.status
        && ended.said.detail == row.detail
        && ended.said.posts.len() == 0
        && ended.world.ends.sent() == row.sent
}

/// Whether a row holds with this information.
fn serves_nobody_with<R: Threads + Wait + Sync + AllocGlobal>(
    rt: &R,
    row: &Unserved,
    hooks: &Hooks,
) -> Result<bool, Fault> {
    let words = words_of(rt.alloc(), row.line)?;
    let world = world_in(rt.alloc(), row)?;
    Ok(is_unserved(&otplogd(rt, rt.alloc(), &words, world, hooks), row))
}

/// Whether it holds without information.
fn serves_nobody<R: Threads + Wait + Sync + AllocGlobal>(
    rt: &R,
    row: &Unserved,
) -> Result<bool, Fault> {
    serves_nobody_with(rt, row, &no_hooks(rt.alloc())?)
}

#[test]
fn other_words_serve_nobody(rt: HostRuntime) -> Result<(), Fault> {
    for row in UNSERVED {
        assert!(rt; serves_nobody(&rt, row)?, "{}", row.line);
    }
    Ok(())
}

/// Lines that are no commands; the empty one is one empty word.
const NO_COMMANDS: &str = "
fly
-x
help
--help
serve -x
serve a b c
Serve
recover a
recover a b c
check
check -x
check a b
otp md5 -x TeSt
otp md5 1 TeSt -x
drills 7
child-pre
child-pre 01
child-pre 262145
child-user 1 1000
child-user 1 0 bob
audit
audit a
audit a b c
audit -x b
renew a
renew a Bob
renew a Bob c
renew a bob c d";

/// Whether a run says that the words are no command.
fn is_no_command(ended: &MemEnded) -> bool {
    ended.said.status == 2
        && ended.said.detail == Detail::Nothing
        && ended.said.posts.len() == 0
        && ended.world.ends.sent() == b"".as_slice()
}

/// Whether these words are no command with this information.
fn name_no_command<R: Threads + Wait + Sync + AllocGlobal>(
    rt: &R,
    words: &[Word],
    hooks: &Hooks,
) -> Result<bool, Fault> {
    let world = no_files(rt.alloc(), PHRASE)?;
    Ok(is_no_command(&otplogd(rt, rt.alloc(), words, world, hooks)))
}

/// Whether these words are no command without information.
fn are_no_command<R: Threads + Wait + Sync + AllocGlobal>(
    rt: &R,
    words: &[Word],
) -> Result<bool, Fault> {
    name_no_command(rt, words, &no_hooks(rt.alloc())?)
}

/// Whether the words of a line are no command.
fn names_no_command<R: Threads + Wait + Sync + AllocGlobal>(
    rt: &R,
    line: &str,
) -> Result<bool, Fault> {
    let words = words_of(rt.alloc(), line)?;
    are_no_command(rt, &words)
}

#[test]
fn words_that_are_no_command(rt: HostRuntime) -> Result<(), Fault> {
    for line in NO_COMMANDS.split('\n') {
        assert!(rt; names_no_command(&rt, line)?, "{line}");
    }
    Ok(())
}

#[test]
fn no_words_are_no_command(rt: HostRuntime) -> Result<(), Fault> {
    assert!(rt; are_no_command(&rt, &[])?);
    Ok(())
}
