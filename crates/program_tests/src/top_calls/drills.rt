use super::{Detail, MemEnded, no_files, no_hooks, words_of};
use info_hooks::Hooks;
use monitor_server::otplogd;
use std::sync::Wait;
use std::test::Fail as Fault;
use std::thread::Threads;

/// What the drill of 1 prints.
const DRILL_1: &str = "sessions 32
events 200
permitted 184
denied 16
accepted 8
rule 6 8
rule 15 8
end finished 16
end truncated 8
end violation 8
";

/// The words of a line, the status, what is sent, and how many events are given.
#[derive(Clone, Copy)]
struct Drill<'a> {
    line: &'a str,
    status: u8,
    sent: &'a str,
    events: usize,
}

/// Whether a run came to what a drill says, and the log is as it was.
fn is_drilled(ended: &MemEnded, drill: &Drill<'_>) -> bool {
    let said = &ended.said;
    let is_told = said.status == drill.status && said.detail == Detail::Nothing;
    let is_lent = ended.world.log.held().is_empty() && said.posts.is_empty();
    let is_sent = ended.world.ends.sent() == drill.sent.as_bytes();
    is_told && is_lent && is_sent && said.journal.len() == drill.events
}

/// Whether a drill is so with this information.
fn drills_with<R: Threads + Wait + Sync + AllocGlobal>(
    rt: &R,
    drill: &Drill<'_>,
    hooks: &Hooks,
) -> Result<bool, Fault> {
    let words = words_of(rt.alloc(), drill.line)?;
    let world = no_files(rt.alloc(), b"")?;
    Ok(is_drilled(&otplogd(rt, rt.alloc(), &words, world, hooks), drill))
}

/// Whether it is so without information.
fn drills<R: Threads + Wait + Sync + AllocGlobal>(
    rt: &R,
    drill: &Drill<'_>,
) -> Result<bool, Fault> {
    drills_with(rt, drill, &no_hooks(rt.alloc())?)
}

/// The drill of 1.
const ONE: Drill<'static> = Drill {
    line: "drill 1",
    status: 0,
    sent: DRILL_1,
    events: 200,
};

/// Lines that name no drill.
const REFUSED: &str = "drill
drill 0
drill 65
drill 07
drill seven
drill 1 1";

/// Whether the words of a line name no drill.
fn drills_not<R: Threads + Wait + Sync + AllocGlobal>(rt: &R, line: &str) -> Result<bool, Fault> {
    let drill = Drill {
        line,
        status: 2,
        sent: "",
        events: 0,
    };
    drills(rt, &drill)
}

/// A drill is told by its counts; its number is from 1 to 64, without a leading zero.
#[test]
fn a_drill_tells_its_counts(rt: HostRuntime) -> Result<(), Fault> {
    assert!(rt; drills(&rt, &ONE)?);
    for line in REFUSED.lines() {
        assert!(rt; drills_not(&rt, line)?, "{line}");
    }
    Ok(())
}
