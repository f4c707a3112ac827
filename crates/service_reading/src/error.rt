//! Why there is nothing to serve with.

ghost use Rattle.std.specs.Prelude.{◌≡◌};
ghost use Rattle.service_reading.specs.Errors.{error_of_list, error_of_setup};

use account_file::SetupFault;
use file_front::ListError;
use otp_words::DictFault;
use setup_reading::SetupFileError;

/// Why a setup and its word list were not read.
#[derive(Clone, Copy, PartialEq, Eq)]
pub enum ServiceError {
    /// A reading failed.
    Failed,
    /// No memory was found.
    OutOfMemory,
    /// There is no file of the setup's name.
    SetupMissing,
    /// The setup is refused; with the rule `no-hook` also where a number of information can't be said.
    SetupRefused(SetupFault),
    /// There is no file of the name that the setup gives the word list.
    WordsMissing,
    /// The word list is refused.
    WordsRefused(DictFault),
}

impl From<SetupFileError> for ServiceError {
    ghost from_gives = { λ unread error. error ≡ error_of_setup unread };

    fn from(error: SetupFileError) -> Self {
        match error {
            SetupFileError::Failed => ServiceError::Failed,
            SetupFileError::OutOfMemory => ServiceError::OutOfMemory,
            SetupFileError::Missing => ServiceError::SetupMissing,
            SetupFileError::Refused(fault) => ServiceError::SetupRefused(fault),
        }
    }
}

impl From<ListError> for ServiceError {
    ghost from_gives = { λ unread error. error ≡ error_of_list unread };

    fn from(error: ListError) -> Self {
        match error {
            ListError::Failed => ServiceError::Failed,
            ListError::OutOfMemory => ServiceError::OutOfMemory,
            ListError::Missing => ServiceError::WordsMissing,
            ListError::Refused(fault) => ServiceError::WordsRefused(fault),
        }
    }
}
