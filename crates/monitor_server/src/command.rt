//! What the words of a command line ask for.

ghost use Rattle.std.specs.Prelude.{◌≡◌, ◌∷◌, map};
ghost use Rattle.monitor_server.specs.declared.command.Unread.TheVariants.{OutOfMemory};
ghost use Rattle.monitor_server.specs.Commands.{IsMeant, IsMeantAlone, IsReading};

use audit_mode::{AuditCommand, read_audit_command};
use check_mode::read_check_command;
use child_mode::{ChildCommand, read_child_command};
use command_line::read_command_line;
use drill_mode::read_drill_command;
use enrol_mode::{EnrolCommand, read_enrol_command};
use otp_extended::{RenewCommand, read_renew_command};
use otp_mode::{OtpCommand, read_otp_command};
use outside::Word;
use recover_mode::{RecoverCommand, read_recover_command};
use serve_mode::{ServeCommand, read_serve_command};
use std::alloc::{AllocError, Global};

/// What the words of a command line ask for.
#[derive(Clone, Copy)]
pub enum Command<'a> {
    /// To serve the connections of a setup.
    Serve(ServeCommand<'a>),
    /// To run the drill of this number, from 1 to 64.
    Drill(u32),
    /// What is done without threads.
    Alone(AloneCommand<'a>),
}

/// What words ask for that is done without threads, and so waits for none.
#[derive(Clone, Copy)]
pub enum AloneCommand<'a> {
    /// To print a one-time password.
    Password(OtpCommand<'a>),
    /// To check the setup in the file of this name.
    Check(&'a str),
    /// To run a child program.
    Child(ChildCommand),
    /// To audit a log.
    Audit(AuditCommand<'a>),
    /// To renew a user's chain of passwords.
    Renew(RenewCommand<'a>),
    /// To recover the accounts from a durable log.
    Recover(RecoverCommand<'a>),
    /// To print the account of a new user.
    Enrol(EnrolCommand),
}

/// Why words were not read as a command.
#[derive(Clone, Copy, PartialEq, Eq)]
pub enum Unread {
    /// They are no command.
    NoCommand,
    /// No memory was found for them.
    OutOfMemory,
}

impl From<AllocError> for Unread {
    ghost from_gives = { λ _ unread. unread ≡ OutOfMemory };

    fn from(_: AllocError) -> Self {
        Unread::OutOfMemory
    }
}

/// Reads the words of a command line, without the program's name.
pub fn read_command<'a>(alloc: Global, words: &'a [Word]) -> Result<Command<'a>, Unread>
    ensures { IsReading words.now result }
{
    let Some(line) = read_command_line(alloc, words)? else {
        return Err(Unread::NoCommand);
    };
    command_of(line.mode, line.further.as_slice()).ok_or(Unread::NoCommand)
}

/// The command of a mode's word and the words after it.
fn command_of<'a>(mode: &str, further: &[&'a str]) -> Option<Command<'a>>
    ensures { IsMeant (mode.now ∷ map (λ word. word.now) further.now) result }
{
    if let Some(command) = read_serve_command(mode, further) {
        return Some(Command::Serve(command));
    }
    if let Some(number) = read_drill_command(mode, further) {
        return Some(Command::Drill(number));
    }
    match alone_command_of(mode, further) {
        Some(command) => Some(Command::Alone(command)),
        None => None,
    }
}

/// The command that is done without threads, of a mode's word and the words after it.
fn alone_command_of<'a>(mode: &str, further: &[&'a str]) -> Option<AloneCommand<'a>>
    ensures { IsMeantAlone (mode.now ∷ map (λ word. word.now) further.now) result }
{
    if let Some(command) = read_otp_command(mode, further) {
        return Some(AloneCommand::Password(command));
    }
    if let Some(setup) = read_check_command(mode, further) {
        return Some(AloneCommand::Check(setup));
    }
    if let Some(command) = read_child_command(mode, further) {
        return Some(AloneCommand::Child(command));
    }
    if let Some(command) = read_audit_command(mode, further) {
        return Some(AloneCommand::Audit(command));
    }
    if let Some(command) = read_renew_command(mode, further) {
        return Some(AloneCommand::Renew(command));
    }
    if let Some(command) = read_recover_command(mode, further) {
        return Some(AloneCommand::Recover(command));
    }
    match read_enrol_command(mode, further) {
        Some(command) => Some(AloneCommand::Enrol(command)),
        None => None,
    }
}
