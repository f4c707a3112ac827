ghost use Rattle.std.specs.Prelude.{◌≡◌, false, true};
ghost use Rattle.policy_model.specs.Asks.{came_by_frame, exports};

use outside::{Bytes, Failed, Post};
use outside_memory::{CallKind, Fail, MemPost, Script};
use policy_model::{Ask, Decision, Event, Why};
use request_catalogue::Label;
use session_asking::{OpenFiles, Outcome, Turn, UserFile, Work, perform, turn_of};
use std::alloc::{AllocError, Global};
use std::test::Fail as Fault;

/// Whether a file keeps its handle until that is given to another, or closed.
fn is_kept(first: Label, last: Label) -> bool {
    let files = OpenFiles::none().opened(1, first).opened(8, first);
    let files = files.opened(8, last);
    let left = files.closed(1).closed(0).closed(9);
    files.name(1) == Some(first)
        && files.name(8) == Some(last)
        && left.name(1) == None
        && left.name(8) == Some(last)
        && left.name(0) == None
        && left.name(9) == None
}

#[test]
fn a_file_keeps_its_handle(rt: HostRuntime) -> Result<(), Fault> {
    let first = Label::of(b"notes").ok_or("a name")?;
    let last = Label::of(b"letters").ok_or("a name")?;
    assert!(rt; is_kept(first, last));
    Ok(())
}

/// A post with one client, whose calls fail where the list says.
fn post(alloc: Global, fails: &[Fail]) -> Result<MemPost, AllocError> {
    let script = Script {
        client: Bytes::of(alloc, b"hello\n")?,
        pre: Bytes::of(alloc, b"")?,
        user: Bytes::of(alloc, b"")?,
    };
    MemPost::new(alloc, vec![in alloc; script]?, &[4], &[0], 64, fails)
}

/// The outcome of a work in one letter: how many bytes there are, or the device that failed.
fn letter(outcome: &Outcome) -> u8 {
    match outcome {
        Outcome::Done { len: 0 } => b'0',
        Outcome::Done { len: 4 } => b'4',
        Outcome::Failed { device: 1 } => b'c',
        Outcome::Failed { device: 2 } => b'f',
        _ => b'?',
    }
}

/// Whether the four operations give these outcomes, in letters: receiving, sending, reading and writing.
fn gives(mut post: MemPost, file: UserFile, want: &[u8; 4]) -> Result<bool, Failed> {
    let mut conn = post.accept()?.ok_or(Failed)?;
    let mut piece = [0; 64];
    let bytes = b"told";
    let offset = 0;
    let received = perform(&mut post, &mut conn, &Work::Receive { max: 64 }, &mut piece);
    let sent = perform(&mut post, &mut conn, &Work::Send { bytes }, &mut piece);
    let written = Work::WriteFile {
        file,
        offset,
        bytes,
    };
    let written = perform(&mut post, &mut conn, &written, &mut piece);
    let read = Work::ReadFile {
        file,
        offset,
        max: 64,
    };
    let read = perform(&mut post, &mut conn, &read, &mut piece);
    post.hang_up(conn);
    let told = [
        letter(&received),
        letter(&sent),
        letter(&written),
        letter(&read),
    ];
    Ok(told == *want)
}

#[test]
fn a_device_that_fails_is_named(rt: HostRuntime) -> Result<(), Fault> {
    let name = Label::of(b"notes").ok_or("a name")?;
    let file = UserFile { uid: 1001, name };
    let calls = [
        CallKind::ConnRecv,
        CallKind::ConnSend,
        CallKind::VaultWrite,
        CallKind::VaultRead,
    ];
    let fails = calls.map(|call| Fail {
        call,
        number: 1,
        sent: 0,
    });
    assert!(rt; gives(post(rt.alloc(), &[])?, file, b"4004") == Ok(true));
    assert!(rt; gives(post(rt.alloc(), &fails)?, file, b"ccff") == Ok(true));
    Ok(())
}

/// What follows a request that was decided so, in one letter.
fn follows(ask: Ask, decision: Decision) -> u8
    requires request { came_by_frame ask ≡ true }
    requires unexported { exports (record { worker = 0; session = 7; ask = ask; decision = decision }) ≡ false }
{
    let event = Event {
        worker: 0,
        session: 7,
        ask,
        decision,
    };
    match turn_of(&event) {
        Turn::GoesOn => b'g',
        Turn::Ends { why: Why::Finished } => b'f',
        Turn::Ends {
            why: Why::Violation { rule: 3 },
        } => b'v',
        Turn::Ends { why: Why::LogLost } => b'l',
        _ => b'?',
    }
}

#[test]
fn a_session_ends_at_a_violation_and_at_its_finish(rt: HostRuntime) -> Result<(), Fault> {
    let permit = Decision::Permit { value: 0 };
    let violation = Decision::Deny { rule: 3, detail: 0 };
    let denial = Decision::Deny {
        rule: 12,
        detail: 0,
    };
    assert!(rt; follows(Ask::Finish, permit) == b'f');
    assert!(rt; follows(Ask::Banner, permit) == b'g');
    assert!(rt; follows(Ask::Finish, denial) == b'g');
    assert!(rt; follows(Ask::Banner, violation) == b'v');
    assert!(rt; follows(Ask::Banner, Decision::Lost) == b'l');
    Ok(())
}
