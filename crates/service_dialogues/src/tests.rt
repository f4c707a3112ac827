//! Sessions as text. A line is a child (`pre` or `user`), the word of a request, its body, `=`, and the
//! body of the reply to it, which is none where nothing is replied. A word of a body is hexadecimal, or
//! after an apostrophe the text itself. The request `raw` is whole bytes that are no request.

mod information;
mod rows;
mod wide;

use crate::dialogue::{Dialogue, Side, are_told};
use info_hooks::Hooks;
use outside::Talk;
use outside_memory::MemPost;
use service_play::{Came, Play, Session, come_with, frame, told, word_list};
use std::alloc::{AllocError, Global};
use std::str::SplitWhitespace;
use std::sync::Wait;
use std::test::Fail;
use std::thread::Threads;

/// A run of one worker: what its setup begins with, its sessions, what their clients are sent, and
/// the log.
struct Row<'a> {
    setup: &'a str,
    sessions: &'a [&'a str],
    told: &'a str,
    log: &'a str,
}

/// The rest of a setup: alice, whose chain is at 1 (RFC 2289, `This is a test.`, MD5).
const ALICE: &str = "
    socket = \"s\"
    launcher = \"l\"
    vault = \"v\"
    words = \"list\"
    banner = \"OTP login\"
    workers = 1
    connections = 8
    requests = 64
    tries = 3
    hold = 30000
    [[account]]
    name = \"alice\"
    uid = 1000
    algorithm = \"md5\"
    seed = \"test\"
    sequence = 1
    password = \"7965e05436f5029f\"
    grants = [
        { name = \"f1\", mode = 1 },
        { name = \"f2\", mode = 1 },
        { name = \"f3\", mode = 1 },
        { name = \"f4\", mode = 1 },
        { name = \"f5\", mode = 1 },
        { name = \"f6\", mode = 1 },
        { name = \"f7\", mode = 1 },
        { name = \"f8\", mode = 1 },
        { name = \"f9\", mode = 1 },
    ]
";

/// The words of the requests, by their numbers from 1.
const REQUESTS: [&str; 13] = [
    "banner",
    "challenge",
    "reply",
    "abandon",
    "export",
    "import",
    "read",
    "write",
    "grant",
    "close",
    "info",
    "note",
    "finish",
];

/// The bytes of the words up to `=`.
fn bytes_of(alloc: Global, words: &mut SplitWhitespace<'_>) -> Result<Vec<u8>, Fail> {
    let mut bytes = Vec::new(alloc);
    while let Some(word) = words.next() {
        if word == "=" {
            break;
        }
        match word.strip_prefix('\'') {
            Some(text) => bytes.extend_from_slice(text.as_bytes())?,
            None => bytes.extend_from_slice(&hex::decode(alloc, word.as_bytes())?)?,
        }
    }
    Ok(bytes)
}

/// The number of a request; none of bytes that are no request.
fn number_of(word: &str) -> Option<u32> {
    let place = REQUESTS.iter().position(|name| *name == word)?;
    u32::try_from(place).ok()?.checked_add(1)
}

/// Adds what a side says: a request, or bytes that are none.
fn say(alloc: Global, side: &mut Side, number: Option<u32>, body: &[u8]) -> Result<(), AllocError> {
    match number {
        Some(kind) => {
            let frame = frame(alloc, kind, 0, 0, body)?;
            side.says.extend_from_slice(&frame)
        }
        None => side.says.extend_from_slice(body),
    }
}

/// Adds what a session with this number replies, if it replies.
fn reply_to(
    alloc: Global,
    side: &mut Side,
    number: Option<u32>,
    session: u32,
    body: &[u8],
) -> Result<(), AllocError> {
    if body.is_empty() {
        return Ok(());
    }
    let reply = frame(alloc, number.unwrap_or(0) | 256, 0, session, body)?;
    side.told.extend_from_slice(&reply)
}

/// Adds a request, and what a session with this number replies to it.
fn exchange(
    alloc: Global,
    side: &mut Side,
    session: u32,
    words: &mut SplitWhitespace<'_>,
) -> Result<(), Fail> {
    let number = number_of(words.next().ok_or("a request")?);
    let body = bytes_of(alloc, words)?;
    say(alloc, side, number, &body)?;
    let reply = bytes_of(alloc, words)?;
    Ok(reply_to(alloc, side, number, session, &reply)?)
}

/// A child that says nothing.
fn silent(alloc: Global) -> Side {
    Side {
        says: Vec::new(alloc),
        told: Vec::new(alloc),
    }
}

/// Adds what a line tells of a session with this number.
fn add_line(alloc: Global, dialogue: &mut Dialogue, session: u32, line: &str) -> Result<(), Fail> {
    let mut words = line.split_whitespace();
    match words.next() {
        Some("pre") => exchange(alloc, &mut dialogue.pre, session, &mut words),
        Some("user") => exchange(alloc, &mut dialogue.user, session, &mut words),
        Some(_) => Err(Fail::from("a child")),
        None => Ok(()),
    }
}

/// Adds all lines of a text.
fn add_lines(alloc: Global, dialogue: &mut Dialogue, session: u32, text: &str) -> Result<(), Fail> {
    for line in text.lines() {
        add_line(alloc, dialogue, session, line)?;
    }
    Ok(())
}

/// The session with this number that is told line by line.
fn dialogue_of(alloc: Global, session: u32, text: &str) -> Result<Dialogue, Fail> {
    let (pre, user) = (silent(alloc), silent(alloc));
    let mut dialogue = Dialogue { pre, user };
    add_lines(alloc, &mut dialogue, session, text)?;
    Ok(dialogue)
}

/// The sessions of a run, numbered from 1.
fn dialogues_of(alloc: Global, texts: &[&str]) -> Result<Vec<Dialogue>, Fail> {
    let mut dialogues = Vec::new(alloc);
    let mut session = 0_u32;
    for text in texts {
        session = session.wrapping_add(1);
        dialogues.push(dialogue_of(alloc, session, text)?)?;
    }
    Ok(dialogues)
}

/// What comes over the connections of these sessions.
fn sessions_of(alloc: Global, dialogues: &[Dialogue]) -> Result<Vec<Session<'_>>, AllocError> {
    let mut sessions = Vec::new(alloc);
    for dialogue in dialogues {
        sessions.push(Session {
            client: b"",
            pre: &dialogue.pre.says,
            user: &dialogue.user.says,
        })?;
    }
    Ok(sessions)
}

/// A setup of alice that begins with these lines.
fn setup_of(alloc: Global, lines: &str) -> Result<Vec<u8>, AllocError> {
    let mut setup = Vec::new(alloc);
    setup.extend_from_slice(lines.as_bytes())?;
    setup.extend_from_slice(ALICE.as_bytes())?;
    Ok(setup)
}

/// Serves these sessions by a setup that begins with these lines.
fn serve<R: Threads + Wait + Sync>(
    rt: &R,
    alloc: Global,
    lines: &str,
    dialogues: &[Dialogue],
    hooks: &Hooks,
) -> Result<Came<MemPost>, Fail> {
    let setup = setup_of(alloc, lines)?;
    let list = word_list(alloc, 2_048)?;
    let sessions = sessions_of(alloc, dialogues)?;
    let play = Play {
        name: "setup",
        setup: &setup,
        list: &list,
        sessions: &sessions,
        piece: 4_096,
        fails: &[],
    };
    come_with(rt, alloc, &play, 1, hooks)
}

/// No information.
fn no_hooks(alloc: Global) -> Result<Hooks, Fail> {
    Ok(Hooks::new(Vec::new(alloc)).ok().ok_or("hooks")?)
}

/// The children of the one worker.
fn talks_of(posts: &[MemPost]) -> &[Talk] {
    match posts {
        [post] => post.talks(),
        _ => &[],
    }
}

/// Whether a run went as its row says, and its children were told their dialogues.
fn is_gone(
    alloc: Global,
    row: &Row<'_>,
    dialogues: &[Dialogue],
    came: &Came<MemPost>,
) -> Result<bool, Fail> {
    let is_served = came.status == 0
        && came.log.held() == row.log.as_bytes()
        && are_told(talks_of(&came.posts), dialogues);
    Ok(is_served && told(alloc, &came.posts)?.as_slice() == row.told.as_bytes())
}

/// Whether a run of these dialogues goes as its row says.
fn goes_by<R: Threads + Wait + Sync>(
    rt: &R,
    alloc: Global,
    row: &Row<'_>,
    dialogues: &[Dialogue],
    hooks: &Hooks,
) -> Result<bool, Fail> {
    is_gone(
        alloc,
        row,
        dialogues,
        &serve(rt, alloc, row.setup, dialogues, hooks)?,
    )
}

/// Whether a run goes as its row says.
fn goes<R: Threads + Wait + Sync>(
    rt: &R,
    alloc: Global,
    row: &Row<'_>,
    hooks: &Hooks,
) -> Result<bool, Fail> {
    let dialogues = dialogues_of(alloc, row.sessions)?;
    goes_by(rt, alloc, row, &dialogues, hooks)
}

/// Whether it does without information.
fn goes_plainly<R: Threads + Wait + Sync>(
    rt: &R,
    alloc: Global,
    row: &Row<'_>,
) -> Result<bool, Fail> {
    goes(rt, alloc, row, &no_hooks(alloc)?)
}
