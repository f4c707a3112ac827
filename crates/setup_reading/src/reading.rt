//! The setup of a file.

ghost use Rattle.std.specs.Prelude.{◌≡◌, ◌∷◌, [], Err, IfOk};
ghost use Rattle.outside.specs.FilesNow.{OnlyReads, files_now};
ghost use Rattle.outside.specs.Told.{Rose};
ghost use Rattle.account_file.specs.declared.fault.SetupError.TheVariants.{Refused};
ghost use Rattle.account_file.specs.Entries.{entries_of};
ghost use Rattle.account_file.specs.Faults.{Answers};
ghost use Rattle.setup_reading.specs.declared.reading.SetupFileError.{SetupFileError};
ghost use Rattle.setup_reading.specs.Read.{IsSetupError, IsSetupIn, error_of_front, error_of_setup, judged_setup};

use account_file::{SetupError, SetupFault, SetupKey, SetupRule, read_setup};
use file_front::{FrontError, read_front};
use outside::Files;
use policy_model::Setup;
use std::alloc::Global;

/// The most bytes of a setup's file.
const SETUP_MAX: usize = 8_388_608;

/// Why a setup was not read.
#[derive(Clone, Copy, PartialEq, Eq)]
pub enum SetupFileError {
    /// A reading failed.
    Failed,
    /// No memory was found for the setup.
    OutOfMemory,
    /// There is no file of the setup's name.
    Missing,
    /// The setup is refused.
    Refused(SetupFault),
}

impl From<FrontError> for SetupFileError {
    ghost from_gives = { λ error e. e ≡ error_of_front error };

    fn from(error: FrontError) -> Self {
        match error {
            FrontError::Failed => SetupFileError::Failed,
            FrontError::OutOfMemory => SetupFileError::OutOfMemory,
        }
    }
}

impl From<SetupError> for SetupFileError {
    ghost from_gives = { λ error e. e ≡ error_of_setup error };

    fn from(error: SetupError) -> Self {
        match error {
            SetupError::Refused(fault) => SetupFileError::Refused(fault),
            SetupError::OutOfMemory => SetupFileError::OutOfMemory,
        }
    }
}

/// Reads the setup of a file of at most 8,388,608 bytes.
pub fn read_setup_file<F: Files>(
    alloc: Global,
    files: &mut F,
    name: &str,
) -> Result<Setup, SetupFileError>
    ensures setup { IfOk result (IsSetupIn (F.contents files.new) name.now) }
    ensures error { (error : SetupFileError) → result ≡ Err error → IsSetupError (F.contents files.new)
        name.now (Rose (F.read_faults files.old) (F.read_faults files.new)) error }
    ensures files { let now = files_now F.contents F.read_faults F.replace_faults F.touched in
        OnlyReads (name.now ∷ []) (now files.old) (now files.new) }
{
    let Some(bytes) = read_front(alloc, files, name, SETUP_MAX + 1)? else {
        return Err(SetupFileError::Missing);
    };
    Ok(judged_setup(alloc, bytes.as_slice())?)
}

/// The setup that the bytes of a file spell.
#[tactic(auto, unfolding(crate::specs::Read::judged_setup))]
fn judged_setup(alloc: Global, bytes: &[u8]) -> Result<Setup, SetupError>
    ensures { Answers entries_of result (judged_setup bytes.now) }
{
    if bytes.len() > SETUP_MAX {
        return too_long();
    }
    read_setup(alloc, bytes)
}

/// A file has too many bytes for a setup.
fn too_long() -> Result<Setup, SetupError>
    ensures { result ≡ Err (Refused (record { key = SetupKey.File; rule = SetupRule.TooLong; account = 0 })) }
{
    Err(SetupError::Refused(SetupFault {
        key: SetupKey::File,
        rule: SetupRule::TooLong,
        account: 0,
    }))
}
