//! Workers beside one another: children that wait for one another, and as many workers as there may
//! be.

ghost use Rattle.std.specs.Prelude.{◌≤◌, All, IfOk, length};
ghost use Rattle.outside.specs.Scene.{IsFresh};
ghost use Rattle.run_tests.specs.Silent.{no_faults, silent_scene};

use info_hooks::Hooks;
use outside::{Failed, Post, Role, Stream};
use outside_memory::MemPost;
use policy_model::{Ask, Event, Why};
use request_catalogue::Label;
use service_play::{Came, Play, Session, come, is_at, lines_of, serve, setup_with, word_list};
use std::alloc::{AllocError, Global};
use std::sync::Wait;
use std::sync::atomic::{AtomicU64, Ordering};
use std::test::Fail as Fault;
use std::thread;
use std::thread::Threads;

/// WRITE of `hi` to the client's connection.
pub(super) const WRITE: &[u8] = b"\x08\0\0\0\x1e\0\0\0\0\0\0\0\0\0\0\0\0\0\0\0\0\0\0\0\0\0\0\0hi";

pub(super) const FINISH: &[u8] = b"\x0d\0\0\0\x10\0\0\0\0\0\0\0\0\0\0\0";

/// How often a child looks whether the others were answered.
const LOOKS: u32 = 10_000_000;

/// A post with one connection, whose child sends WRITE, and FINISH only once as many children were
/// answered as there are workers. It tells nothing, and nothing of it fails.
#[derive(Drop)]
struct WaitingPost<'a> {
    answered: &'a AtomicU64,
    has_come: bool,
}

/// The child of such a post. What it waits for in vain is its end.
#[derive(Drop)]
struct WaitingChild<'a> {
    role: Role,
    answered: &'a AtomicU64,
    requests: u8,
    is_answered: bool,
}

/// Puts bytes to the front of the buffer, as many as it has room for.
fn put(bytes: &[u8], buf: &mut [u8]) -> usize
    ensures { result ≤ length buf.old }
{
    let len = bytes.len().min(buf.len());
    buf[..len].copy_from_slice(&bytes[..len]);
    len
}

/// Whether two children are answered, or come to be.
fn are_answered(answered: &AtomicU64) -> bool {
    for _ in 0..LOOKS {
        if answered.load(Ordering::SeqCst) >= 2 {
            return true;
        }
        thread::yield_now();
    }
    false
}

impl<'a> Stream for WaitingChild<'a> {
    ghost use Rattle.std.specs.Prelude.{None};

    ghost link = { λ child. None };

    ghost faults = { λ child. 0 };

    ghost role = { λ child. child.role };

    fn recv(&mut self, buf: &mut [u8]) -> Result<usize, Failed> {
        self.requests = self.requests.saturating_add(1);
        Ok(match self.requests {
            1 => put(WRITE, buf),
            2 if are_answered(self.answered) => put(FINISH, buf),
            _ => 0,
        })
    }

    fn send(&mut self, _bytes: &[u8]) -> Result<(), Failed> {
        if !self.is_answered {
            self.is_answered = true;
            self.answered.fetch_add(1, Ordering::SeqCst);
        }
        Ok(())
    }
}

impl<'a> Post for WaitingPost<'a> {
    type Conn = ();

    type Child = WaitingChild<'a>;

    ghost scene = { silent_scene };

    ghost faults = { no_faults };

    ghost counts_as_told = { λ _. tt };

    fn accept(&mut self) -> Result<Option<()>, Failed> {
        if self.has_come {
            return Ok(None);
        }
        self.has_come = true;
        Ok(Some(()))
    }

    fn start(&mut self, role: &Role) -> Result<WaitingChild<'a>, Failed> {
        Ok(WaitingChild {
            role: *role,
            answered: self.answered,
            requests: 0,
            is_answered: false,
        })
    }

    fn finish(&mut self, _child: WaitingChild<'a>) {}

    fn hang_up(&mut self, _conn: ()) {}

    fn conn_recv(&mut self, _conn: &mut (), _buf: &mut [u8]) -> Result<usize, Failed> {
        Ok(0)
    }

    fn conn_send(&mut self, _conn: &mut (), _bytes: &[u8]) -> Result<(), Failed> {
        Ok(())
    }

    fn vault_read(
        &mut self,
        _uid: u32,
        _name: &Label,
        _offset: u64,
        _buf: &mut [u8],
    ) -> Result<usize, Failed> {
        Ok(0)
    }

    fn vault_write(
        &mut self,
        _uid: u32,
        _name: &Label,
        _offset: u64,
        _bytes: &[u8],
    ) -> Result<(), Failed> {
        Ok(())
    }

    fn now(&mut self) -> u64 {
        1_000
    }
}

/// A run of one session a worker.
fn play_of<'a>(setup: &'a [u8], list: &'a [u8], sessions: &'a [Session<'a>]) -> Play<'a>
    ensures { 1 ≤ result.piece }
{
    Play {
        name: "setup",
        setup,
        list,
        sessions,
        piece: 4_096,
        fails: &[],
    }
}

/// How many sessions ended by their child's FINISH.
pub(super) fn finished(journal: &[Event]) -> usize {
    let end = Ask::End { why: Why::Finished };
    journal.iter().filter(|event| event.ask == end).count()
}

/// Two posts whose children wait for one another.
fn waiting_posts(alloc: Global, answered: &AtomicU64) -> Result<Vec<WaitingPost<'_>>, AllocError>
    ensures { IfOk result (λ posts. All (IsFresh silent_scene no_faults) posts.items) }
{
    let first = WaitingPost {
        answered,
        has_come: false,
    };
    let second = WaitingPost {
        answered,
        has_come: false,
    };
    Ok(vec![in alloc; first, second]?)
}

/// Whether both workers of such posts were served, where they should be.
fn are_both_finished(came: &Came<WaitingPost<'_>>) -> bool {
    let is_home = is_at(&came.place, ["s", "l", "v"], 2);
    came.status == 0 && finished(&came.journal) == 2 && is_home
}

/// Whether two workers are served whose children wait for one another, with this information.
fn are_served_with<R: Threads + Wait + Sync>(
    rt: &R,
    alloc: Global,
    play: &Play<'_>,
    hooks: &Hooks,
) -> Result<bool, Fault> {
    let answered = AtomicU64::new(0);
    let posts = waiting_posts(alloc, &answered)?;
    Ok(are_both_finished(&serve(rt, alloc, play, posts, hooks)?))
}

/// Whether two workers are served whose children wait for one another.
fn are_served_at_once<R: Threads + Wait + Sync>(
    rt: &R,
    alloc: Global,
    play: &Play<'_>,
) -> Result<bool, Fault> {
    let hooks = Hooks::new(Vec::new(alloc)).ok().ok_or("hooks")?;
    are_served_with(rt, alloc, play, &hooks)
}

/// The same by the setup of two workers.
fn two_are_served_at_once<R: Threads + Wait + Sync>(rt: &R, alloc: Global) -> Result<bool, Fault> {
    let setup = setup_with(alloc, "workers = 2\nrequests = 64")?;
    let list = word_list(alloc, 2_048)?;
    are_served_at_once(rt, alloc, &play_of(&setup, &list, &[]))
}

#[test]
fn two_workers_serve_at_once(rt: HostRuntime) -> Result<(), Fault> {
    assert!(&rt; two_are_served_at_once(&rt, rt.alloc())?);
    Ok(())
}

/// Whether an event is the one at this place of a session that writes `hi` and finishes.
fn is_step(step: usize, event: &Event) -> bool {
    let is_asked = match (step, event.ask) {
        (0, Ask::Begin) | (2, Ask::Finish) => true,
        (
            1,
            Ask::WriteAt {
                handle: 0,
                offset: 0,
                len: 2,
            },
        ) => true,
        (3, Ask::End { why: Why::Finished }) => true,
        _ => false,
    };
    is_asked && event.decision.is_permit()
}

/// How many events a worker has, if they are those of such a session in order, and else 0.
fn steps_of(journal: &[Event], worker: u32) -> usize {
    let mut step = 0usize;
    for event in journal {
        if event.worker == worker {
            if !is_step(step, event) {
                return 0;
            }
            step = step.saturating_add(1);
        }
    }
    step
}

/// The run of so many workers by a setup that begins with these lines, a session each.
fn run_of<R: Threads + Wait + Sync>(
    rt: &R,
    alloc: Global,
    lines: &str,
    workers: u32,
) -> Result<Came<MemPost>, Fault> {
    let setup = setup_with(alloc, lines)?;
    let list = word_list(alloc, 2_048)?;
    let pre = [WRITE, FINISH].concat(alloc)?;
    let session = Session {
        client: b"",
        pre: &pre,
        user: b"",
    };
    come(rt, alloc, &play_of(&setup, &list, &[session]), workers)
}

/// Whether the log of a run has a line of each event.
fn is_logged(alloc: Global, came: &Came<MemPost>) -> Result<bool, AllocError> {
    Ok(came.log.held() == lines_of(alloc, &came.journal)?.as_slice())
}

/// Whether two workers were served, each a session in order, and the log has a line of each event.
fn are_both_served(alloc: Global, came: &Came<MemPost>) -> Result<bool, Fault> {
    let are_whole = steps_of(&came.journal, 0) == 4 && steps_of(&came.journal, 1) == 4;
    let are_served = came.status == 0 && came.journal.len() == 8 && are_whole;
    Ok(are_served && is_logged(alloc, came)?)
}

/// Whether two workers are served so.
fn two_are_served<R: Threads + Wait + Sync>(rt: &R, alloc: Global) -> Result<bool, Fault> {
    are_both_served(alloc, &run_of(rt, alloc, "workers = 2\nrequests = 64", 2)?)
}

#[test]
fn two_workers_make_eight_lines(rt: HostRuntime) -> Result<(), Fault> {
    assert!(&rt; two_are_served(&rt, rt.alloc())?);
    Ok(())
}

/// Whether 64 workers were served, and the log is the journal's.
fn are_all_served(alloc: Global, came: &Came<MemPost>) -> Result<bool, Fault> {
    let is_whole = came.journal.len() == 256 && finished(&came.journal) == 64;
    Ok(came.status == 0 && is_whole && is_logged(alloc, came)?)
}

/// Whether 64 workers are served so.
fn sixty_four_are_served<R: Threads + Wait + Sync>(rt: &R, alloc: Global) -> Result<bool, Fault> {
    are_all_served(
        alloc,
        &run_of(rt, alloc, "workers = 64\nrequests = 64", 64)?,
    )
}

#[test]
fn sixty_four_workers_serve(rt: HostRuntime) -> Result<(), Fault> {
    assert!(&rt; sixty_four_are_served(&rt, rt.alloc())?);
    Ok(())
}
