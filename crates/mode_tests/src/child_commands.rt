use child_mode::*;
use child_protocol::ChildEnd;
use outside_memory::{CallKind, Fail, MemStream};
use std::alloc::{AllocError, Global};
use std::test::Fail as Fault;

/// Words of the modes, with the session and the user's number that they name, 0 for none.
const COMMANDS: &[((u32, u32), &str)] = &[
    ((1, 0), "child-pre 1"),
    ((7, 0), "child-pre 7"),
    ((262_144, 0), "child-pre 262144"),
    ((7, 1_001), "child-user 7 1001 bob"),
    ((262_144, 4_294_967_294), "child-user 262144 4294967294 a"),
    ((1, 1), "child-user 1 1 abcdefghijklmnopqrstuvwxyz012345"),
];

/// Words that are none of the modes.
const OTHERS: &str = "
    child-pre
    child-pre 0
    child-pre 07
    child-pre +7
    child-pre 262145
    child-pre 18446744073709551623
    child-pre seven
    child-pre 7 1001
    child-pre 7 1001 bob
    child-user 7
    child-user 7 1001
    child-user 7 1001 bob bob
    child-user 0 1001 bob
    child-user 7 0 bob
    child-user 7 01001 bob
    child-user 7 4294967295 bob
    child-user 7 1001 Bob
    child-user 7 1001 1bob
    child-user 7 1001 abcdefghijklmnopqrstuvwxyz0123456
    child 7";

/// What the words of a line are read as.
fn command_in(alloc: Global, line: &str) -> Result<Option<ChildCommand>, AllocError> {
    let mut words = line.split_whitespace();
    let mode = words.next().unwrap_or("");
    let mut further = Vec::new(alloc);
    for word in words {
        further.push(word)?;
    }
    Ok(read_child_command(mode, &further))
}

/// The numbers in a command, 0 for that of a user where it names none.
fn numbers_in(command: &ChildCommand) -> (u32, u32) {
    match command {
        ChildCommand::Pre { session } => (*session, 0),
        ChildCommand::User { session, uid, .. } => (*session, *uid),
    }
}

/// Whether the words of a line name these numbers.
fn names(alloc: Global, line: &str, numbers: (u32, u32)) -> Result<bool, AllocError> {
    match command_in(alloc, line)? {
        Some(command) => Ok(numbers_in(&command) == numbers),
        None => Ok(false),
    }
}

#[test]
fn words_name_a_child(rt: HostRuntime) -> Result<(), Fault> {
    for (numbers, line) in COMMANDS {
        assert!(rt; names(rt.alloc(), line, *numbers)?, "{line}");
    }
    for line in OTHERS.lines().skip(1) {
        assert!(rt; command_in(rt.alloc(), line)?.is_none(), "{line}");
    }
    Ok(())
}

/// The reply to BANNER in session 7, and in session 8.
const BANNER: &[u8] = b"\x01\x01\0\0\x1a\0\0\0\0\0\0\0\x07\0\0\0\0OTP login";

const ANOTHER: &[u8] = b"\x01\x01\0\0\x1a\0\0\0\0\0\0\0\x08\0\0\0\0OTP login";

/// BANNER, which the child before the login asks first, and IMPORT, with which the user's begins.
const ASKS_BANNER: &[u8] = b"\x01\0\0\0\x10\0\0\0\0\0\0\0\0\0\0\0";

const ASKS_IMPORT: &[u8] = b"\x06\0\0\0\x10\0\0\0\0\0\0\0\0\0\0\0";

/// Words, the bytes that come, what is sent first, and the status.
type Row = (&'static str, &'static [u8], &'static [u8], u8);

const ROWS: &[Row] = &[
    ("child-pre 7", b"", ASKS_BANNER, 0),
    ("child-pre 7", BANNER, ASKS_BANNER, 0),
    ("child-pre 7", ANOTHER, ASKS_BANNER, 12),
    ("child-user 7 1001 bob", b"", ASKS_IMPORT, 0),
    ("child-user 7 1001 bob", BANNER, ASKS_IMPORT, 12),
];

/// Whether a mode over this link ends with a row's status, having sent what it says first.
fn ends_over(alloc: Global, command: &ChildCommand, link: &mut MemStream, row: &Row) -> bool {
    let run = run_child_mode(alloc, command, link);
    run.status() == row.3 && link.tells() && link.sent().starts_with(row.2)
}

/// Whether the mode of a row's words does over its bytes.
fn ends_by(alloc: Global, row: &Row) -> Result<bool, Fault> {
    let command = command_in(alloc, row.0)?.ok_or("a command")?;
    let mut link = MemStream::new(alloc, row.1, &[7], &[])?;
    Ok(ends_over(alloc, &command, &mut link, row))
}

#[test]
fn a_mode_ends_by_what_came(rt: HostRuntime) -> Result<(), Fault> {
    for row in ROWS {
        assert!(rt; ends_by(rt.alloc(), row)?);
    }
    Ok(())
}

/// Whether a mode ends by the fault of a link whose first sending fails.
fn ends_by_fault(alloc: Global) -> Result<bool, AllocError> {
    let fail = Fail {
        call: CallKind::Send,
        number: 1,
        sent: 3,
    };
    let mut link = MemStream::new(alloc, b"", &[7], &[fail])?;
    let run = run_child_mode(alloc, &ChildCommand::Pre { session: 7 }, &mut link);
    Ok(run == ChildRun::Ended(ChildEnd::LinkFault) && run.status() == 11)
}

#[test]
fn a_fault_of_the_ends_is_told(rt: HostRuntime) -> Result<(), Fault> {
    assert!(rt; ends_by_fault(rt.alloc())?);
    Ok(())
}
