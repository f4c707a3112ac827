//! The whole login with one call that fails.

use super::logins::{LOG, holds, left_in};
use account_file::read_setup;
use outside::{Accepted, Act};
use outside_memory::{CallKind, Fail, MemPost};
use policy_model::{Decision, Event, Setup, judge};
use service_play::{Came, ONE, Play, Session, come, lines_of, sent};
use service_rows::{CLIENT, Login, log_in};
use std::alloc::{AllocError, Global};
use std::sync::Wait;
use std::test::Fail as Fault;
use std::thread::Threads;

/// A call that fails, how many bytes it sent, how many lines of the whole login's log stand, the
/// lines after these, and the status.
struct Case {
    fail: (CallKind, u32, usize),
    lines: usize,
    behind: &'static str,
    status: u8,
}

/// A call that the run doesn't make.
const WHOLE: Case = Case {
    fail: (CallKind::Start, 9, 0),
    lines: 21,
    behind: "",
    status: 0,
};

const CASES: [Case; 10] = [
    Case {
        fail: (CallKind::Accept, 1, 0),
        lines: 0,
        status: 10,
        ..WHOLE
    },
    Case {
        fail: (CallKind::Start, 1, 0),
        lines: 1,
        behind: "2 w0 s1 end keeper-fault permit\n",
        ..WHOLE
    },
    Case {
        fail: (CallKind::Start, 2, 0),
        lines: 8,
        behind: "9 w0 s1 end keeper-fault permit\n",
        ..WHOLE
    },
    Case {
        fail: (CallKind::Recv, 1, 0),
        lines: 1,
        behind: "2 w0 s1 end link-fault permit\n",
        ..WHOLE
    },
    Case {
        fail: (CallKind::Send, 1, 7),
        lines: 2,
        behind: "3 w0 s1 end link-fault permit\n",
        ..WHOLE
    },
    Case {
        fail: (CallKind::ConnSend, 1, 0),
        ..WHOLE
    },
    Case {
        fail: (CallKind::ConnRecv, 1, 0),
        ..WHOLE
    },
    Case {
        fail: (CallKind::VaultRead, 1, 0),
        ..WHOLE
    },
    Case {
        fail: (CallKind::VaultWrite, 1, 0),
        ..WHOLE
    },
    Case {
        fail: (CallKind::Replace, 1, 0),
        status: 8,
        ..WHOLE
    },
];

/// The run of a login's bytes with one call that fails.
fn fail_once<R: Threads + Wait + Sync>(
    rt: &R,
    alloc: Global,
    login: &Login,
    fail: (CallKind, u32, usize),
) -> Result<Came<MemPost>, Fault> {
    let (call, number, sent) = fail;
    let session = Session {
        client: CLIENT,
        pre: &login.said.pre,
        user: &login.said.user,
    };
    let play = Play {
        name: "setup",
        setup: &login.setup,
        list: &login.list,
        sessions: &[session],
        piece: 4_096,
        fails: &[Fail { call, number, sent }],
    };
    come(rt, alloc, &play, 1)
}

/// So many lines of the whole login's log, and what stands after these.
fn log_of(alloc: Global, lines: usize, behind: &str) -> Result<Vec<u8>, AllocError> {
    let mut log = Vec::new(alloc);
    for text in LOG.lines().take(lines) {
        log.extend_from_slice(text.as_bytes())?;
        log.push(b'\n')?;
    }
    log.extend_from_slice(behind.as_bytes())?;
    Ok(log)
}

/// Whether a run has this status and this log.
fn ends_so(came: &Came<MemPost>, status: u8, log: &[u8]) -> bool {
    came.status == status && came.log.held() == log
}

/// Whether a case comes out as it says.
fn holds_of<R: Threads + Wait + Sync>(
    rt: &R,
    alloc: Global,
    login: &Login,
    case: &Case,
) -> Result<bool, Fault> {
    let log = log_of(alloc, case.lines, case.behind)?;
    Ok(ends_so(&fail_once(rt, alloc, login, case.fail)?, case.status, &log))
}

/// Whether each case comes out as it says.
fn all_hold<R: Threads + Wait + Sync>(rt: &R, alloc: Global, login: &Login) -> Result<bool, Fault> {
    for case in &CASES {
        if !holds_of(rt, alloc, login, case)? {
            return Ok(false);
        }
    }
    Ok(true)
}

/// Whether each case of a new login comes out as it says.
fn all_hold_of_one<R: Threads + Wait + Sync>(rt: &R, alloc: Global) -> Result<bool, Fault> {
    all_hold(rt, alloc, &log_in(rt, alloc, ONE, 4_096)?)
}

#[test]
fn one_call_fails(rt: HostRuntime) -> Result<(), Fault> {
    assert!(&rt; all_hold_of_one(&rt, rt.alloc())?);
    Ok(())
}

/// The front of the reply to BANNER, of session 1.
const BANNER_FRONT: &[u8] = b"\x01\x01\0\0\x1a\0\0";

/// Whether the first child was sent just a front of its first reply.
fn is_front(came: &Came<MemPost>) -> bool {
    sent(&came.posts, 0) == BANNER_FRONT
}

/// Whether a login's child is sent just that where the reply is cut short.
fn is_cut_short<R: Threads + Wait + Sync>(
    rt: &R,
    alloc: Global,
    login: &Login,
) -> Result<bool, Fault> {
    Ok(is_front(&fail_once(rt, alloc, login, (CallKind::Send, 1, 7))?))
}

/// The same of a new login.
fn is_one_cut_short<R: Threads + Wait + Sync>(rt: &R, alloc: Global) -> Result<bool, Fault> {
    is_cut_short(rt, alloc, &log_in(rt, alloc, ONE, 4_096)?)
}

#[test]
fn a_reply_is_cut_short(rt: HostRuntime) -> Result<(), Fault> {
    assert!(&rt; is_one_cut_short(&rt, rt.alloc())?);
    Ok(())
}

/// Whether these bytes stand anywhere in others.
fn stands_in(bytes: &[u8], others: &[u8]) -> bool {
    (0..others.len()).any(|from| others[from..].starts_with(bytes))
}

/// A device whose first call fails, the child that asks for it, the reply that names it, and what bob's
/// file then holds.
struct Device {
    call: CallKind,
    child: usize,
    reply: &'static [u8],
    file: &'static [u8],
}

const SENDING: Device = Device {
    call: CallKind::ConnSend,
    child: 0,
    reply: b"\x08\x01\0\0\x12\0\0\0\0\0\0\0\x01\0\0\0\x02\x01",
    file: b"new\n",
};

const RECEIVING: Device = Device {
    call: CallKind::ConnRecv,
    child: 0,
    reply: b"\x07\x01\0\0\x12\0\0\0\0\0\0\0\x01\0\0\0\x02\x01",
    file: b"new\n",
};

const READING: Device = Device {
    call: CallKind::VaultRead,
    child: 1,
    reply: b"\x07\x01\0\0\x12\0\0\0\0\0\0\0\x01\0\0\0\x02\x02",
    file: b"new\n",
};

const WRITING: Device = Device {
    call: CallKind::VaultWrite,
    child: 1,
    reply: b"\x08\x01\0\0\x12\0\0\0\0\0\0\0\x01\0\0\0\x02\x02",
    file: b"old\n",
};

/// Whether a device that failed was named to the child, and bob's file is as it says.
fn is_told(came: &Came<MemPost>, device: &Device) -> Result<bool, Fault> {
    let is_said = stands_in(device.reply, sent(&came.posts, device.child));
    Ok(is_said && holds(&came.posts, device.file)?)
}

/// Whether a device that fails is named to the child, and bob's file is as it says.
fn is_named<R: Threads + Wait + Sync>(
    rt: &R,
    alloc: Global,
    login: &Login,
    device: &Device,
) -> Result<bool, Fault> {
    is_told(&fail_once(rt, alloc, login, (device.call, 1, 0))?, device)
}

/// Whether both devices that fail are named.
fn are_named<R: Threads + Wait + Sync>(
    rt: &R,
    alloc: Global,
    login: &Login,
    devices: [&Device; 2],
) -> Result<bool, Fault> {
    Ok(is_named(rt, alloc, login, devices[0])? && is_named(rt, alloc, login, devices[1])?)
}

/// Whether both devices that fail are named in a new login.
fn are_named_in_one<R: Threads + Wait + Sync>(
    rt: &R,
    alloc: Global,
    devices: [&Device; 2],
) -> Result<bool, Fault> {
    are_named(rt, alloc, &log_in(rt, alloc, ONE, 4_096)?, devices)
}

#[test]
fn a_connection_that_fails_is_named_to_the_child(rt: HostRuntime) -> Result<(), Fault> {
    assert!(&rt; are_named_in_one(&rt, rt.alloc(), [&SENDING, &RECEIVING])?);
    Ok(())
}

#[test]
fn a_vault_that_fails_is_named_to_the_child(rt: HostRuntime) -> Result<(), Fault> {
    assert!(&rt; are_named_in_one(&rt, rt.alloc(), [&READING, &WRITING])?);
    Ok(())
}

/// Whether each decision that was not lost is the policy's after the events before it.
fn is_legal(setup: &Setup, journal: &[Event]) -> bool {
    let mut is_legal = true;
    for (place, event) in journal.iter().enumerate() {
        let before = &journal[..place.min(journal.len())];
        let verdict = judge(setup, before, event.worker, &event.ask);
        is_legal &= event.decision == Decision::Lost || event.decision == verdict;
    }
    is_legal
}

/// What a post holds open after these acts: children that weren't given back, and connections that
/// weren't hung up.
fn left_open(acts: &[Act]) -> (u32, u32) {
    let mut children = 0_u32;
    let mut connections = 0_u32;
    for act in acts {
        match act {
            Act::Start {
                outcome: Ok(()),
                ..
            } => children = children.wrapping_add(1),
            Act::Finish { .. } => children = children.wrapping_sub(1),
            Act::Accept {
                outcome: Accepted::Came,
            } => connections = connections.wrapping_add(1),
            Act::HangUp => connections = connections.wrapping_sub(1),
            _ => {}
        }
    }
    (children, connections)
}

/// The status of a run in which this call of its kind fails.
fn status_of(call: CallKind, number: u32) -> u8 {
    match call {
        CallKind::Read if number <= 6 => 3,
        CallKind::Append if number <= 21 => 7,
        CallKind::Replace if number == 1 => 8,
        CallKind::Accept if number <= 2 => 10,
        _ => 0,
    }
}

/// Whether a run with one call that failed has its status, a legal journal, a log of just that, and
/// nothing left open.
fn is_sound(alloc: Global, setup: &Setup, came: &Came<MemPost>, status: u8) -> Result<bool, Fault> {
    let lines = lines_of(alloc, &came.journal)?;
    let log = came.log.held();
    let is_logged = log.starts_with(&lines) && (log.len() == lines.len() || status == 7);
    let acts = came.posts.first().map_or(&[][..], |post| post.acts());
    let is_closed = left_open(acts) == (0, 0);
    Ok(came.status == status && is_logged && is_closed && is_legal(setup, &came.journal))
}

/// Whether the run is sound where this call of its kind fails.
fn withstands<R: Threads + Wait + Sync>(
    rt: &R,
    alloc: Global,
    login: &Login,
    setup: &Setup,
    (call, number): (CallKind, u32),
) -> Result<bool, Fault> {
    let status = status_of(call, number);
    is_sound(
        alloc,
        setup,
        &fail_once(rt, alloc, login, (call, number, 5))?,
        status,
    )
}

/// Whether the run is sound whichever of the first so many calls of a kind fails.
fn withstands_each<R: Threads + Wait + Sync>(
    rt: &R,
    alloc: Global,
    login: &Login,
    setup: &Setup,
    (call, calls): (CallKind, u32),
) -> Result<bool, Fault> {
    for number in 1..=calls {
        if !withstands(rt, alloc, login, setup, (call, number))? {
            return Ok(false);
        }
    }
    Ok(true)
}

/// Whether the run is sound whichever of the first calls of these kinds fails.
fn withstands_all<R: Threads + Wait + Sync>(
    rt: &R,
    alloc: Global,
    login: &Login,
    setup: &Setup,
    kinds: &[(CallKind, u32)],
) -> Result<bool, Fault> {
    for calls in kinds {
        if !withstands_each(rt, alloc, login, setup, *calls)? {
            return Ok(false);
        }
    }
    Ok(true)
}

/// The setup of these bytes.
fn setup_of(alloc: Global, bytes: &[u8]) -> Result<Setup, Fault> {
    Ok(read_setup(alloc, bytes).ok().ok_or("a setup")?)
}

/// Whether a login's run is sound whichever of the first calls of these kinds fails.
fn is_withstood_by<R: Threads + Wait + Sync>(
    rt: &R,
    alloc: Global,
    login: &Login,
    kinds: &[(CallKind, u32)],
) -> Result<bool, Fault> {
    withstands_all(rt, alloc, login, &setup_of(alloc, &login.setup)?, kinds)
}

/// The same of a new login.
fn is_withstood<R: Threads + Wait + Sync>(
    rt: &R,
    alloc: Global,
    kinds: &[(CallKind, u32)],
) -> Result<bool, Fault> {
    is_withstood_by(rt, alloc, &log_in(rt, alloc, ONE, 4_096)?, kinds)
}

#[test]
fn each_call_of_the_files_and_the_log_fails_once(rt: HostRuntime) -> Result<(), Fault> {
    let kinds = [
        (CallKind::Read, 7),
        (CallKind::Replace, 2),
        (CallKind::Append, 22),
    ];
    assert!(&rt; is_withstood(&rt, rt.alloc(), &kinds)?);
    Ok(())
}

#[test]
fn each_call_of_the_children_fails_once(rt: HostRuntime) -> Result<(), Fault> {
    let kinds = [
        (CallKind::Start, 3),
        (CallKind::Recv, 4),
        (CallKind::Send, 10),
    ];
    assert!(&rt; is_withstood(&rt, rt.alloc(), &kinds)?);
    Ok(())
}

#[test]
fn each_call_of_the_connection_and_the_vault_fails_once(rt: HostRuntime) -> Result<(), Fault> {
    let kinds = [
        (CallKind::Accept, 3),
        (CallKind::ConnRecv, 2),
        (CallKind::ConnSend, 7),
        (CallKind::VaultRead, 2),
        (CallKind::VaultWrite, 2),
    ];
    assert!(&rt; is_withstood(&rt, rt.alloc(), &kinds)?);
    Ok(())
}

/// Whether a run whose log was cut short in the line of this number has these lines before it, each
/// decision but that one and the end's is kept, and bob's password is spent where its reply was.
fn is_cut(alloc: Global, came: &mut Came<MemPost>, log: &[u8], number: u8) -> Result<bool, Fault> {
    let events = match number {
        1 => 1,
        21 => 21,
        _ => usize::from(number).saturating_add(1),
    };
    let sequence = if number < 8 { 1 } else { 0 };
    let (left, _) = left_in(alloc, &mut came.files)?;
    Ok(came.log.held().starts_with(log) && came.journal.len() == events && left == sequence)
}

/// Whether a run is as it should be whose log is cut short in the line of this number.
fn is_cut_at<R: Threads + Wait + Sync>(
    rt: &R,
    alloc: Global,
    login: &Login,
    number: u8,
) -> Result<bool, Fault> {
    let log = log_of(alloc, usize::from(number).saturating_sub(1), "")?;
    let fail = (CallKind::Append, u32::from(number), 5);
    is_cut(alloc, &mut fail_once(rt, alloc, login, fail)?, &log, number)
}

/// Whether each line of a login's log can be cut short.
fn is_cut_anywhere<R: Threads + Wait + Sync>(
    rt: &R,
    alloc: Global,
    login: &Login,
) -> Result<bool, Fault> {
    for number in 1..=21 {
        if !is_cut_at(rt, alloc, login, number)? {
            return Ok(false);
        }
    }
    Ok(true)
}

/// Whether each line of a new login's log can be cut short.
fn is_one_cut_anywhere<R: Threads + Wait + Sync>(rt: &R, alloc: Global) -> Result<bool, Fault> {
    is_cut_anywhere(rt, alloc, &log_in(rt, alloc, ONE, 4_096)?)
}

#[test]
fn each_line_of_the_log_is_lost_once(rt: HostRuntime) -> Result<(), Fault> {
    assert!(&rt; is_one_cut_anywhere(&rt, rt.alloc())?);
    Ok(())
}
