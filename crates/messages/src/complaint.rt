//! What the program says where it doesn't end with 0, and what is to be thought of.

use account_file::SetupFault;
use audit_check::AuditWhy;
use monitor_server::{Answer, Detail};
use otp_words::{DictFault, DictRule};
use std::{fmt, io};
use trouble::{FileKind, RenewFault};

/// What is said of a durable log from which no run begins.
const NOT_FRESH: &str = "the durable log is not a fresh one: call otplogd recover SETUP LOG first";

/// Why the program ends with a status, or what is to be thought of, in one line for the one who called
/// it. It takes no memory.
#[derive(Clone, Copy)]
pub struct Complaint<'a> {
    /// The exit status.
    pub status: u8,
    /// Which file is missing, or what is wrong with it or with the response.
    pub detail: Detail,
    /// What it is about: the path of a file, a socket or a program.
    pub path: Option<&'a str>,
    /// What the system said.
    pub cause: Option<io::Error>,
}

impl Complaint<'_> {
    /// A status alone.
    pub fn plain(status: u8) -> Complaint<'static> {
        Complaint::of(Answer {
            status,
            detail: Detail::Nothing,
        })
    }

    /// A status with its detail.
    pub fn of(answer: Answer) -> Complaint<'static> {
        Complaint {
            status: answer.status,
            detail: answer.detail,
            path: None,
            cause: None,
        }
    }
}

impl fmt::Display for Complaint<'_> {
    fn fmt<W: fmt::Write>(&self, f: &mut fmt::Formatter<W>) -> fmt::Result {
        f.write_str("otplogd: ")?;
        if let Some(path) = self.path {
            write!(f, "{path}: ")?;
        }
        match self.detail {
            Detail::Nothing => f.write_str(status_text(self.status))?,
            detail => write!(f, "{}", DetailText { detail })?,
        }
        match self.cause {
            Some(cause) => write!(f, ": {cause}"),
            None => Ok(()),
        }
    }
}

/// What is wrong with a file or a response.
#[derive(Clone, Copy)]
struct DetailText {
    detail: Detail,
}

impl fmt::Display for DetailText {
    fn fmt<W: fmt::Write>(&self, f: &mut fmt::Formatter<W>) -> fmt::Result {
        match self.detail {
            Detail::Nothing => f.write_str("it failed"),
            Detail::FewRequests { requests } => write!(
                f,
                "the setup is right, but its {requests} requests are few: a login takes 9, and one more for \
                each further piece of the client's lines"
            ),
            Detail::Missing { file } => write!(f, "{} is not there", file_text(file)),
            Detail::SetupBad(SetupFault { key, rule, account }) => write!(
                f,
                "the setup is refused: key {}, rule {}, account {account}",
                key.word(),
                rule.word()
            ),
            Detail::WordsBad(fault) => write_list_fault(f, fault),
            Detail::LogNotFresh => f.write_str(NOT_FRESH),
            Detail::LogBad { number: 0 } => f.write_str("this is no durable log"),
            Detail::LogBad { number } => {
                write!(
                    f,
                    "the durable log can't be recovered: record {number} is wrong"
                )
            }
            Detail::AuditNo { line, why } => {
                write!(f, "the log is not legal: line {line} {}", why_text(why))
            }
            Detail::RenewBad(fault) => {
                write!(
                    f,
                    "the response renews nothing: {}",
                    renew_fault_text(fault)
                )
            }
        }
    }
}

/// Writes what is wrong with a word list.
fn write_list_fault<W: fmt::Write>(f: &mut fmt::Formatter<W>, fault: DictFault) -> fmt::Result {
    let DictFault { line, rule } = fault;
    let what = list_rule_text(rule);
    write!(f, "the word list is refused: line {line} {what}")
}

/// What a status alone tells.
fn status_text(status: u8) -> &'static str {
    match status {
        2 => "an argument is no text: try 'otplogd --help'",
        3 => "could not be read",
        4 => "a file is not there",
        5 => "a file is refused",
        6 => "can't serve",
        7 => "a line could not be written to the log, or another file has the log's place",
        8 => "could not be replaced",
        9 => "out of memory",
        10 => "a worker could not wait for a connection",
        11 => "standard input could not be read, or standard output not be written",
        12 => {
            "the input is refused: a pass phrase is 10 to 63 bytes of printable ASCII, \
            and a response one of RFC 2243"
        }
        13 => "the durable log is in use",
        14 => "the log is not legal",
        15 => "the response renews nothing",
        _ => "it failed",
    }
}

/// What a file is to the program.
fn file_text(file: FileKind) -> &'static str {
    match file {
        FileKind::Setup => "the setup",
        FileKind::Words => "the word list",
        FileKind::Log => "the log",
    }
}

/// What a word list has at the line of its first fault.
fn list_rule_text(rule: DictRule) -> &'static str {
    match rule {
        DictRule::Count => "is the last, and 2,048 lines are needed",
        DictRule::Length => "has not 1 to 4 letters",
        DictRule::Letter => "has another character than a letter",
        DictRule::Twice => "has a word that stands before",
    }
}

/// What is wrong with the first line that makes a log no legal one.
fn why_text(why: AuditWhy) -> &'static str {
    match why {
        AuditWhy::Text => "is no line of a log",
        AuditWhy::Count => "has another number than its place, or one above 1,048,576",
        AuditWhy::Event => "has an event that the policy does not give",
    }
}

/// Why a response renews nothing.
fn renew_fault_text(fault: RenewFault) -> &'static str {
    match fault {
        RenewFault::Unknown => "no account has that name",
        RenewFault::Disabled => "the account is not enabled",
        RenewFault::Exhausted => "the account has no password left",
        RenewFault::NotInit => "it begins no new chain",
        RenewFault::SameSeed => "its seed is the account's",
        RenewFault::Replayed => "its current password was accepted before",
        RenewFault::NoMatch => "its current password is not the next one",
        RenewFault::Loop => "the new chain leads back to a spent password",
    }
}
