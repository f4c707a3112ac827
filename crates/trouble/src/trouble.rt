//! The enum.

ghost use Rattle.std.specs.Prelude.{◌≡◌};
ghost use Rattle.trouble.specs.declared.trouble.Trouble.TheVariants.{EndsFailed, OutOfMemory};
ghost use Rattle.trouble.specs.Reading.{trouble_of_front, trouble_of_list, trouble_of_log};
ghost use Rattle.trouble.specs.Reading.{trouble_of_service, trouble_of_setup};
ghost use Rattle.trouble.specs.Status.{status_of, trouble_status};

use crate::response::{LineFault, RenewFault};
use account_file::SetupFault;
use file_front::{FrontError, ListError};
use ledger_journal::RecoverError;
use otp_words::DictFault;
use outside::Failed;
use service_reading::ServiceError;
use setup_reading::SetupFileError;
use std::alloc::AllocError;

/// A file that the words of the command line, or the setup, name.
#[derive(Clone, Copy, PartialEq, Eq, Debug)]
pub enum FileKind {
    /// The setup.
    Setup,
    /// The word list.
    Words,
    /// The log.
    Log,
}

/// What is wrong with a durable log.
#[derive(Clone, Copy, PartialEq, Eq, Debug)]
pub enum LogFault {
    /// It is not there, or has something else than no record.
    NotFresh,
    /// It can't be recovered from: its record of this number, counted from 1, is the first with a fault; 0
    /// where the file is no log.
    Record { number: u32 },
}

/// What goes wrong with a run that serves alone.
#[derive(Clone, Copy, PartialEq, Eq, Debug)]
pub enum ServeFault {
    /// The site could not listen.
    ListenFailed,
    /// The log could not be written.
    LogLost,
    /// A worker could not wait for a connection.
    AcceptFailed,
}

/// What went wrong with a mode.
#[derive(Clone, Copy, PartialEq, Eq, Debug)]
pub enum Trouble {
    /// No memory was found.
    OutOfMemory,
    /// A reading of a file failed.
    ReadFailed,
    /// There is no file of the name that was given for this kind.
    Missing(FileKind),
    /// The setup is refused.
    SetupRefused(SetupFault),
    /// The word list is refused.
    WordsRefused(DictFault),
    /// The durable log is refused.
    LogRefused(LogFault),
    /// A run that serves could not begin, or ended.
    Serving(ServeFault),
    /// A file could not be replaced.
    ReplaceFailed,
    /// The input could not be received, or the output not be sent whole.
    EndsFailed,
    /// The first line of the input is no pass phrase.
    PhraseRefused,
    /// The first line of the input is no response.
    ResponseRefused(LineFault),
    /// The response renews nothing.
    NoRenewal(RenewFault),
}

impl Trouble {
    /// The exit status of a program that ends by it: 3 to 13, or 15.
    pub fn status(self) -> u8
        ensures { result ≡ trouble_status self }
    {
        match self {
            Trouble::ReadFailed => 3,
            Trouble::Missing(_) => 4,
            Trouble::SetupRefused(_) | Trouble::WordsRefused(_) => 5,
            Trouble::Serving(ServeFault::ListenFailed) => 6,
            Trouble::Serving(ServeFault::LogLost) => 7,
            Trouble::ReplaceFailed => 8,
            Trouble::OutOfMemory => 9,
            Trouble::Serving(ServeFault::AcceptFailed) => 10,
            Trouble::EndsFailed => 11,
            Trouble::PhraseRefused | Trouble::ResponseRefused(_) => 12,
            Trouble::LogRefused(_) => 13,
            Trouble::NoRenewal(_) => 15,
        }
    }
}

/// The exit status of a mode that succeeds, 0, or ends by a trouble.
pub fn status_of<T>(outcome: &Result<T, Trouble>) -> u8
    ensures { result ≡ status_of outcome.now }
{
    match outcome {
        Ok(_) => 0,
        Err(trouble) => trouble.status(),
    }
}

impl From<AllocError> for Trouble {
    ghost from_gives = { λ _ trouble. trouble ≡ OutOfMemory };

    fn from(_: AllocError) -> Self {
        Trouble::OutOfMemory
    }
}

impl From<Failed> for Trouble {
    ghost from_gives = { λ _ trouble. trouble ≡ EndsFailed };

    fn from(_: Failed) -> Self {
        Trouble::EndsFailed
    }
}

impl From<FrontError> for Trouble {
    ghost from_gives = { λ error trouble. trouble ≡ trouble_of_front error };

    fn from(error: FrontError) -> Self {
        match error {
            FrontError::Failed => Trouble::ReadFailed,
            FrontError::OutOfMemory => Trouble::OutOfMemory,
        }
    }
}

impl From<ListError> for Trouble {
    ghost from_gives = { λ error trouble. trouble ≡ trouble_of_list error };

    fn from(error: ListError) -> Self {
        match error {
            ListError::Failed => Trouble::ReadFailed,
            ListError::OutOfMemory => Trouble::OutOfMemory,
            ListError::Missing => Trouble::Missing(FileKind::Words),
            ListError::Refused(fault) => Trouble::WordsRefused(fault),
        }
    }
}

impl From<SetupFileError> for Trouble {
    ghost from_gives = { λ error trouble. trouble ≡ trouble_of_setup error };

    fn from(error: SetupFileError) -> Self {
        match error {
            SetupFileError::Failed => Trouble::ReadFailed,
            SetupFileError::OutOfMemory => Trouble::OutOfMemory,
            SetupFileError::Missing => Trouble::Missing(FileKind::Setup),
            SetupFileError::Refused(fault) => Trouble::SetupRefused(fault),
        }
    }
}

impl From<ServiceError> for Trouble {
    ghost from_gives = { λ error trouble. trouble ≡ trouble_of_service error };

    fn from(error: ServiceError) -> Self {
        match error {
            ServiceError::Failed => Trouble::ReadFailed,
            ServiceError::OutOfMemory => Trouble::OutOfMemory,
            ServiceError::SetupMissing => Trouble::Missing(FileKind::Setup),
            ServiceError::SetupRefused(fault) => Trouble::SetupRefused(fault),
            ServiceError::WordsMissing => Trouble::Missing(FileKind::Words),
            ServiceError::WordsRefused(fault) => Trouble::WordsRefused(fault),
        }
    }
}

impl From<RecoverError> for Trouble {
    ghost from_gives = { λ error trouble. trouble ≡ trouble_of_log error };

    fn from(error: RecoverError) -> Self {
        match error {
            RecoverError::NoLog => Trouble::LogRefused(LogFault::Record { number: 0 }),
            RecoverError::Line { number } => Trouble::LogRefused(LogFault::Record { number }),
            RecoverError::OutOfMemory => Trouble::OutOfMemory,
        }
    }
}
