//! The word list of a file.

ghost use Rattle.std.specs.Prelude.{◌≡◌, ◌∷◌, [], Ok, IfOk};
ghost use Rattle.outside.specs.FilesNow.{OnlyReads, files_now};
ghost use Rattle.outside.specs.Told.{Rose};
ghost use Rattle.otp_words.specs.declared.fault.DictError.{DictError};
ghost use Rattle.file_front.specs.declared.list.ListError.{ListError};
ghost use Rattle.file_front.specs.Lists.{IsListFault, IsJudgedSo, error_of_front, error_of_list};

use crate::front::{FrontError, read_front};
use otp_words::{DictError, DictFault, Dictionary};
use outside::Files;
use std::alloc::Global;

/// How many bytes of a word list's file are read: one more than a list of 16,384 bytes has, and more
/// than any list that is accepted.
const LIST_MAX: usize = 16_385;

/// Why a word list was not read.
#[derive(Clone, Copy, PartialEq, Eq)]
pub enum ListError {
    /// A reading failed.
    Failed,
    /// No memory was found for the list.
    OutOfMemory,
    /// There is no file of the list's name.
    Missing,
    /// The list is refused.
    Refused(DictFault),
}

impl From<FrontError> for ListError {
    ghost from_gives = { λ error e. e ≡ error_of_front error };

    fn from(error: FrontError) -> Self {
        match error {
            FrontError::Failed => ListError::Failed,
            FrontError::OutOfMemory => ListError::OutOfMemory,
        }
    }
}

impl From<DictError> for ListError {
    ghost from_gives = { λ error e. e ≡ error_of_list error };

    fn from(error: DictError) -> Self {
        match error {
            DictError::Refused(fault) => ListError::Refused(fault),
            DictError::OutOfMemory => ListError::OutOfMemory,
        }
    }
}

/// Reads the word list of a file, of which the first 16,385 bytes count: no list that is accepted
/// has so many.
pub fn read_list<F: Files>(
    alloc: Global,
    files: &mut F,
    name: &str,
) -> Result<Dictionary, ListError>
    ensures words { IfOk result (λ words. IsJudgedSo (F.contents files.new) name.now (Ok words)) }
    ensures fault { (error : ListError) → result ≡ Err error → IsListFault (F.contents files.new)
        name.now (Rose (F.read_faults files.old) (F.read_faults files.new)) error }
    ensures files { let now = files_now F.contents F.read_faults F.replace_faults F.touched in
        OnlyReads (name.now ∷ []) (now files.old) (now files.new) }
{
    let Some(text) = read_front(alloc, files, name, LIST_MAX)? else {
        return Err(ListError::Missing);
    };
    Ok(Dictionary::read(alloc, text.as_slice())?)
}
