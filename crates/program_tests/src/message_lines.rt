use audit_check::AuditWhy;
use messages::{Complaint, RunCounts, RunFaults};
use monitor_server::Detail;
use otp_words::{DictFault, DictRule};
use std::alloc::{AllocError, Global};
use std::fmt::Display;
use std::io;
use std::test::Fail;
use trouble::{FileKind, RenewFault};

/// Whether a value is written as this line.
fn is_told(alloc: Global, value: &impl Display, line: &str) -> Result<bool, AllocError> {
    let text = format!(in alloc; "{value}")?;
    Ok(text.as_str() == line)
}

/// Statuses, and the lines of each alone.
const STATUSES: &[(u8, &str)] = &[
    (
        7,
        "otplogd: a line could not be written to the log, or another file has the log's place",
    ),
    (9, "otplogd: out of memory"),
    (10, "otplogd: a worker could not wait for a connection"),
    (
        11,
        "otplogd: standard input could not be read, or standard output not be written",
    ),
];

#[test]
fn a_status_alone_has_its_line(rt: HostRuntime) -> Result<(), Fail> {
    for (status, line) in STATUSES {
        assert!(rt; is_told(rt.alloc(), &Complaint::plain(*status), line)?);
    }
    Ok(())
}

/// Details of the path `f`, and their lines.
const DETAILS: &[(Detail, &str)] = &[
    (
        Detail::FewRequests { requests: 8 },
        "otplogd: f: the setup is right, but its 8 requests are few: a login takes 9, and one more for \
        each further piece of the client's lines",
    ),
    (
        Detail::Missing {
            file: FileKind::Log,
        },
        "otplogd: f: the log is not there",
    ),
    (
        Detail::WordsBad(DictFault {
            line: 2_047,
            rule: DictRule::Count,
        }),
        "otplogd: f: the word list is refused: line 2047 is the last, and 2,048 lines are needed",
    ),
    (
        Detail::LogBad { number: 7 },
        "otplogd: f: the durable log can't be recovered: record 7 is wrong",
    ),
    (
        Detail::AuditNo {
            line: 7,
            why: AuditWhy::Event,
        },
        "otplogd: f: the log is not legal: line 7 has an event that the policy does not give",
    ),
    (
        Detail::RenewBad(RenewFault::NoMatch),
        "otplogd: f: the response renews nothing: its current password is not the next one",
    ),
];

/// Whether a detail of the path `f` has this line.
fn is_detail(alloc: Global, detail: Detail, line: &str) -> Result<bool, AllocError> {
    let complaint = Complaint {
        detail,
        path: Some("f"),
        ..Complaint::plain(1)
    };
    is_told(alloc, &complaint, line)
}

#[test]
fn a_detail_has_its_line(rt: HostRuntime) -> Result<(), Fail> {
    for (detail, line) in DETAILS {
        assert!(rt; is_detail(rt.alloc(), *detail, line)?);
    }
    Ok(())
}

#[test]
fn what_the_system_said_is_told_too(rt: HostRuntime) -> Result<(), Fail> {
    let complaint = Complaint {
        path: Some("/run/otplogd/socket"),
        cause: Some(io::Error::other("it is taken")),
        ..Complaint::plain(6)
    };
    let line = "otplogd: /run/otplogd/socket: can't serve: it is taken";
    assert!(rt; is_told(rt.alloc(), &complaint, line)?);
    Ok(())
}

#[test]
fn faults_have_one_line(rt: HostRuntime) -> Result<(), Fail> {
    let faults = RunFaults {
        accept: 0,
        start: 1,
        link: 2,
        connection: 3,
        vault: 4,
        dropped: 5,
        thread: 6,
    };
    let line =
        "otplogd: faults: accept 0, start 1, link 2, connection 3, vault 4, dropped lines 5, thread 6";
    assert!(rt; is_told(rt.alloc(), &faults, line)?);
    Ok(())
}

#[test]
fn a_run_that_had_no_event_is_told(rt: HostRuntime) -> Result<(), Fail> {
    let line = "otplogd: ended: sessions 0, logins 0, events 0";
    assert!(rt; is_told(rt.alloc(), &RunCounts::of(&[]), line)?);
    Ok(())
}
