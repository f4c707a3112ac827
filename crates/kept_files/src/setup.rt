//! The setup of a run, and the word list that it names.

ghost use Rattle.std.specs.Prelude.{◌≡◌, ◌∷◌, [], Err, IfOk, OnOk, option_map};
ghost use Rattle.std.specs.Option.{option_to_list};
ghost use Rattle.outside.specs.FilesNow.{files_now};
ghost use Rattle.outside.specs.Told.{Rose};
ghost use Rattle.file_front.specs.declared.front.FrontError.TheVariants as errors;
ghost use Rattle.kept_files.specs.Files.{kept_now, kept_of, under_of};
ghost use Rattle.kept_files.specs.Kept.{KeepsMore};
ghost use Rattle.kept_files.specs.Setups.{IsListOf, KeepsThese, ReadsKept};

use crate::files::KeptFiles;
use account_file::{SetupError, read_setup};
use file_front::FrontError;
use outside::{Files, Word};
use std::alloc::{AllocError, Global};

/// The most bytes of a setup's file.
const SETUP_MAX: usize = 8_388_608;

/// Keeps the file of a setup, that of the word list that it names, and that of a log, if one is named.
///
/// # Errors
///
/// The first reading that failed, or there isn't the memory.
pub fn keep_service<F: Files>(
    alloc: Global,
    files: &mut KeptFiles<F>,
    setup: &str,
    log: Option<&str>,
) -> Result<(), FrontError>
    ensures reads { let now = kept_now (files_now F.contents F.read_faults F.replace_faults F.touched) in
        ReadsKept (setup.now ∷ option_to_list (option_map (λ name. name.now) log.entry)) (setup.now ∷ [])
        (now files.old) (now files.new) }
    ensures kept { OnOk result (KeepsThese (setup.now ∷ option_to_list (option_map (λ name. name.now) log.entry))
        (setup.now ∷ []) (kept_of files.new)) }
    ensures failed { result ≡ Err errors.Failed → Rose (F.read_faults (under_of files.old))
        (F.read_faults (under_of files.new)) }
{
    keep_setup(alloc, files, setup)?;
    keep_file(files, log)
}

/// Keeps a file, if one is named.
///
/// # Errors
///
/// The reading failed, or there isn't the memory.
pub fn keep_file<F: Files>(files: &mut KeptFiles<F>, name: Option<&str>) -> Result<(), FrontError>
    ensures reads { let now = kept_now (files_now F.contents F.read_faults F.replace_faults F.touched) in
        KeepsMore (option_to_list (option_map (λ name. name.now) name.entry)) (now files.old) (now files.new) }
    ensures kept { OnOk result (KeepsThese (option_to_list (option_map (λ name. name.now) name.entry)) []
        (kept_of files.new)) }
    ensures failed { result ≡ Err errors.Failed → Rose (F.read_faults (under_of files.old))
        (F.read_faults (under_of files.new)) }
{
    match name {
        Some(name) => files.keep(name),
        None => Ok(()),
    }
}

/// Keeps the file of a setup, and that of the word list that it names.
fn keep_setup<F: Files>(
    alloc: Global,
    files: &mut KeptFiles<F>,
    name: &str,
) -> Result<(), FrontError>
    ensures reads { let now = kept_now (files_now F.contents F.read_faults F.replace_faults F.touched) in
        ReadsKept (name.now ∷ []) (name.now ∷ []) (now files.old) (now files.new) }
    ensures kept { OnOk result (KeepsThese (name.now ∷ []) (name.now ∷ []) (kept_of files.new)) }
    ensures failed { result ≡ Err errors.Failed → Rose (F.read_faults (under_of files.old))
        (F.read_faults (under_of files.new)) }
{
    files.keep(name)?;
    match list_named(alloc, files.file(name))? {
        Some(list) => files.keep(list.as_str()),
        None => Ok(()),
    }
}

/// The word list that the setup in a text names, if the text is one.
fn list_named(alloc: Global, text: Option<&[u8]>) -> Result<Option<Word>, AllocError>
    ensures { IfOk result (IsListOf (option_map (λ text. text.now) text.entry)) }
{
    let Some(bytes) = text else {
        return Ok(None);
    };
    if bytes.len() > SETUP_MAX {
        return Ok(None);
    }
    match read_setup(alloc, bytes) {
        Ok(setup) => Ok(Some(Word::of(alloc, setup.parts().words.as_str().as_bytes())?)),
        Err(SetupError::OutOfMemory) => Err(AllocError),
        Err(SetupError::Refused(_)) => Ok(None),
    }
}
