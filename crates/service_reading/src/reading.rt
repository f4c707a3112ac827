//! The reading.

ghost use Rattle.std.specs.Prelude.{◌≡◌, ◌∷◌, [], Err, IfOk, Ok};
ghost use Rattle.file_front.specs.declared.list.ListError.{ListError};
ghost use Rattle.file_front.specs.Lists.{IsJudgedSo, IsListFault};
ghost use Rattle.outside.specs.FilesNow.{OnlyReads, files_now};
ghost use Rattle.outside.specs.Told.{Rose};
ghost use Rattle.setup_reading.specs.Touching.{ReadsNamed};
ghost use Rattle.service_reading.specs.declared.error.ServiceError.{ServiceError};
ghost use Rattle.service_reading.specs.Errors.{IsServiceError};
ghost use Rattle.service_reading.specs.Found.{IsServiceIn};

use crate::error::ServiceError;
use crate::information::Information;
use crate::informed::informed;
use file_front::{ListError, read_list};
use otp_words::Dictionary;
use outside::Files;
use policy_model::Setup;
use setup_reading::read_setup_file;
use std::alloc::Global;

/// A setup, and the word list that it names.
#[derive(Drop)]
pub struct ServiceParts {
    pub setup: Setup,
    pub dictionary: Dictionary,
}

/// Reads the setup in the file of a name, and then the word list that it names.
///
/// # Errors
///
/// The first error, in this order: of the setup's file, the setup, a number of information that can't be
/// said, the list's file, the list. Memory may run out at each file.
pub fn read_service<F: Files, I: Information>(
    alloc: Global,
    files: &mut F,
    name: &str,
    information: &I,
) -> Result<ServiceParts, ServiceError>
    ensures service { IfOk result (λ parts. IsServiceIn (I.forms information.now) (F.contents files.new) name.now
        parts.setup parts.dictionary) }
    ensures error { (error : ServiceError) → result ≡ Err error → IsServiceError (I.forms information.now)
        (F.contents files.new)
        name.now (Rose (F.read_faults files.old) (F.read_faults files.new)) error }
    ensures files { let now = files_now F.contents F.read_faults F.replace_faults F.touched in
        ReadsNamed (name.now ∷ []) (name.now ∷ []) (now files.old) (now files.new) }
{
    let setup = read_setup_file(alloc, files, name)?;
    match informed(setup, information) {
        Ok(setup) => Ok(with_list(alloc, files, setup)?),
        Err(fault) => Err(ServiceError::SetupRefused(fault)),
    }
}

/// A setup with the word list that it names, which is read here. That it is read apart from the setup's
/// own file is what keeps the proof short.
fn with_list<F: Files>(
    alloc: Global,
    files: &mut F,
    setup: Setup,
) -> Result<ServiceParts, ListError>
    ensures setup { IfOk result (λ parts. parts.setup ≡ setup) }
    ensures words { IfOk result (λ parts. IsJudgedSo (F.contents files.new) setup.words (Ok parts.dictionary)) }
    ensures fault { (error : ListError) → result ≡ Err error → IsListFault (F.contents files.new)
        setup.words (Rose (F.read_faults files.old) (F.read_faults files.new)) error }
    ensures files { let now = files_now F.contents F.read_faults F.replace_faults F.touched in
        OnlyReads (setup.words ∷ []) (now files.old) (now files.new) }
{
    let dictionary = read_list(alloc, files, setup.parts().words.as_str())?;
    Ok(ServiceParts { setup, dictionary })
}
