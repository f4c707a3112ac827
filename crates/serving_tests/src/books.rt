ghost use Rattle.std.specs.Prelude.{◌≡◌, length};

use monitor_book::Book;
use outside_memory::{CallKind, Fail as Failing, MemSink};
use policy_model::{Accounts, Ask, Event, Numbers, Setup, SetupParts, Step, Text, Why};
use request_catalogue::Width;
use session_core::Core;
use std::alloc::{AllocError, Global};
use std::test::*;
use turn_cell::Object;

/// A sink whose appends with these numbers fail after 5 bytes.
fn sink_of(alloc: Global, fails: &[u32]) -> Result<MemSink, AllocError> {
    let mut failing = Vec::new(alloc);
    for number in fails {
        failing.push(Failing {
            call: CallKind::Append,
            number: *number,
            sent: 5,
        })?;
    }
    MemSink::new(alloc, &failing)
}

/// What comes of the making of a book.
type Made = Result<Book<MemSink>, (Core, MemSink, AllocError)>;

/// The making of an empty book over a setup, with such a sink.
fn made_of(alloc: Global, setup: &Setup, fails: &[u32]) -> Result<Made, AllocError> {
    let log = sink_of(alloc, fails)?;
    let core = Core::new(alloc, setup, setup.events_max() as u32)?;
    Ok(Book::new(alloc, core, log))
}

/// How many events a book has.
fn events_of(book: &Book<MemSink>) -> u64
    ensures { result ≡ length book.now.journal }
{
    book.journal().len() as u64
}

/// Makes a call of a worker, if that worker may make one more.
fn enter(book: &mut Book<MemSink>, step: &Step) -> bool {
    if !step.ask.is_proper() || step.worker >= book.passes() {
        return false;
    }
    if events_of(book) >= book.quota() {
        return false;
    }
    let _event = book.apply(step.worker, step.ask);
    true
}

/// Makes these calls, from the first on, if all may be made.
fn enter_all(book: &mut Book<MemSink>, steps: &[Step]) -> bool {
    for step in steps {
        if !enter(book, step) {
            return false;
        }
    }
    true
}

/// Whether a core has these workers' sessions.
fn has_sessions(core: &Core, sessions: &[u32]) -> bool {
    let mut same = true;
    for worker in 0..core.ledger().setup().workers() {
        same &= sessions.get(worker as usize) == Some(&core.session(worker));
    }
    same
}

/// Whether so many decisions are lost.
fn has_lost(journal: &[Event], lost: usize) -> bool {
    let count = journal
        .iter()
        .filter(|event| event.decision.is_lost())
        .count();
    count == lost
}

/// Whether the log holds just this, and the workers' sessions are these in the core and in the last events.
fn are_left(parts: &(Core, Vec<Event>, MemSink), row: &Row<'_>) -> bool {
    let (core, journal, log) = parts;
    has_sessions(core, row.sessions) && has_lost(journal, row.lost) && log.held() == row.text
}

fn step(worker: u32, ask: Ask) -> Step {
    Step { worker, ask }
}

/// WRITE of two bytes to the client.
fn write() -> Ask {
    Ask::WriteAt {
        handle: 0,
        offset: 0,
        len: 2,
    }
}

/// A text.
fn text(alloc: Global, text: &str) -> Result<Text, AllocError> {
    Ok(Text::of(String::from_str(alloc, text)?))
}

/// Socket, launcher, vault and words of a setup.
fn texts_of(alloc: Global) -> Result<(Text, Text, Text, Text), AllocError> {
    Ok((
        text(alloc, "otplogd.sock")?,
        text(alloc, "otplogd")?,
        text(alloc, "vault")?,
        text(alloc, "words")?,
    ))
}

/// The parts of a setup with two workers and no accounts.
fn two_workers_parts(alloc: Global) -> Result<SetupParts, AllocError> {
    let (socket, launcher, vault, words) = texts_of(alloc)?;
    Ok(SetupParts {
        socket,
        launcher,
        vault,
        words,
        banner: Text::of(String::new(alloc)),
        salt: policy_model::plain_salt(),
        frames: Width::Narrow,
        workers: 2,
        connections: 1,
        requests: 64,
        tries: 3,
        hold: 30_000,
        info: Numbers::of(Vec::new(alloc)),
        accounts: Accounts::of(Vec::new(alloc)),
    })
}

/// A setup with two workers and no accounts.
fn two_workers(alloc: Global) -> Result<Setup, Fail> {
    Ok(Setup::of(two_workers_parts(alloc)?).ok().ok_or("in range")?)
}

/// Calls, the appends that fail, and what is left then: the log, how many decisions are lost, the
/// workers' sessions.
#[derive(Clone, Copy)]
struct Row<'a> {
    steps: &'a [Step],
    fails: &'a [u32],
    text: &'a [u8],
    lost: usize,
    sessions: &'a [u32],
}

/// Whether a row holds over an empty book.
fn comes_out(mut book: Book<MemSink>, row: &Row<'_>) -> bool {
    let are_entered = enter_all(&mut book, row.steps);
    are_left(&book.parts(), row) && are_entered
}

/// Whether a row holds over a setup.
fn holds(alloc: Global, setup: &Setup, row: &Row<'_>) -> Result<bool, Fail> {
    match made_of(alloc, setup, row.fails)? {
        Ok(book) => Ok(comes_out(book, row)),
        Err(_) => Err(Fail::from("memory")),
    }
}

/// Whether it holds over the plain setup.
fn holds_for_one(alloc: Global, row: &Row<'_>) -> Result<bool, Fail> {
    holds(alloc, &Setup::plain(alloc)?, row)
}

/// Whether it holds over the setup with two workers.
fn holds_for_two(alloc: Global, row: &Row<'_>) -> Result<bool, Fail> {
    holds(alloc, &two_workers(alloc)?, row)
}

#[test]
fn a_lost_line_loses_its_decision_and_all_later_ones(rt: HostRuntime) -> Result<(), Fail> {
    let row = Row {
        steps: &[
            step(0, Ask::Begin),
            step(0, write()),
            step(0, Ask::Finish),
            step(0, Ask::End { why: Why::LogLost }),
        ],
        fails: &[3],
        text: b"1 w0 s1 open permit\n2 w0 s1 write 0 0 2 permit\n3 w0 ",
        lost: 2,
        sessions: &[1],
    };
    assert!(rt; holds_for_one(rt.alloc(), &row)?);
    Ok(())
}

/// The log of two workers, one of whom opens its session without a line.
const TWO: &[u8] = b"1 w1 s1 open permit
2 w0 s2 open permit
3 w1 s1 export 0 deny 6 5
4 w1 s1 end violation 6 permit
5 w1 ";

/// The workers' events stand in one journal in the order of the calls, and a lost opening opens nothing.
#[test]
fn two_workers_have_one_journal(rt: HostRuntime) -> Result<(), Fail> {
    let why = Why::Violation { rule: 6 };
    let row = Row {
        steps: &[
            step(1, Ask::Begin),
            step(0, Ask::Begin),
            step(1, Ask::Export { len: 0 }),
            step(1, Ask::End { why }),
            step(1, Ask::Begin),
            step(0, write()),
        ],
        fails: &[5],
        text: TWO,
        lost: 2,
        sessions: &[2, 0],
    };
    assert!(rt; holds_for_two(rt.alloc(), &row)?);
    Ok(())
}

/// Whether a book is made that has so many events at most, or else its core and log came back as they were.
fn is_made_or_back(made: &Made, events: u64) -> bool {
    match made {
        Ok(book) => (book.passes(), book.quota()) == (1, events),
        Err((core, log, _)) => {
            core.ledger().setup().workers() == 1 && core.session(0) == 0 && log.held().is_empty()
        }
    }
}

/// Whether a book over a setup is made, or else its core and log come back as they were.
fn is_made_or_comes_back(alloc: Global, setup: &Setup) -> Result<bool, AllocError> {
    let events = setup.events_max() as u64;
    Ok(is_made_or_back(&made_of(alloc, setup, &[])?, events))
}

/// The same over the plain setup.
fn is_plain_made_or_back(alloc: Global) -> Result<bool, AllocError> {
    is_made_or_comes_back(alloc, &Setup::plain(alloc)?)
}

/// Where an allocation fails, as by `rt try --test --fail-alloc N`, core and log come back.
#[test]
fn a_book_is_made_or_its_parts_come_back(rt: HostRuntime) -> Result<(), Fail> {
    assert!(rt; is_plain_made_or_back(rt.alloc())?);
    Ok(())
}
