//! The mode.

ghost use Rattle.std.specs.Prelude.{◌≡◌, ◌≤◌, ◌∷◌, [], Err, IfOk, IfSome, Ok, true};
ghost use Rattle.outside.specs.FilesNow.{files_now};
ghost use Rattle.outside.specs.Told.{Rose};
ghost use Rattle.account_file.specs.Entries.{entries_of};
ghost use Rattle.setup_reading.specs.Touching.{ReadsNamed};
ghost use Rattle.trouble.specs.declared.trouble.Trouble.{Trouble};
ghost use Rattle.trouble.specs.Reading.{IsUnreadService};
ghost use Rattle.check_mode.specs.Findings.{finding_of, found_in, is_told};
ghost use Rattle.check_mode.specs.Outcome.{IsOutcome, ends_before_line};

use crate::finding::Finding;
use crate::line::line_of;
use outside::{Files, Stream};
use service_reading::{Information, ServiceParts, read_service};
use std::alloc::Global;
use trouble::{FileKind, Trouble};

/// Runs the mode: reads the setup and then its word list, and sends one line that says whether they
/// are right. A setup that lists a number of information that can't be said is refused.
///
/// # Errors
///
/// A file that is missing or refused, once the line that says so is sent. A reading that failed, lack of
/// memory, and ends that failed.
pub fn run_check<F: Files, I: Information, E: Stream>(
    alloc: Global,
    setup: &str,
    information: &I,
    files: &mut F,
    ends: &mut E,
) -> Result<Finding, Trouble>
    ensures outcome { IsOutcome (I.forms information.now) setup.now (F.contents files.new) (E.link ends.old)
        (E.link ends.new)
        (Rose (F.read_faults files.old) (F.read_faults files.new))
        (Rose (E.faults ends.old) (E.faults ends.new)) result }
    ensures untold { ends_before_line result ≡ true → ends.new ≡ ends.old }
    ensures files { let now = files_now F.contents F.read_faults F.replace_faults F.touched in
        ReadsNamed (setup.now ∷ []) (setup.now ∷ []) (now files.old) (now files.new) }
    ensures faults { E.faults ends.old ≤ E.faults ends.new }
{
    let found = find(alloc, setup, information, files);
    if !is_told(found) {
        return found;
    }
    let line = line_of(alloc, found)?;
    ends.send(line.as_bytes())?;
    found
}

/// What the files say of the setup in the file of a name.
fn find<F: Files, I: Information>(
    alloc: Global,
    name: &str,
    information: &I,
    files: &mut F,
) -> Result<Finding, Trouble>
    ensures found { IfOk result (λ finding. IfSome (F.contents files.new)
        (λ there. found_in (I.forms information.now) there name.now ≡ Ok finding)) }
    ensures unread { (trouble : Trouble) → result ≡ Err trouble → IsUnreadService (I.forms information.now)
        (F.contents files.new) name.now (Rose (F.read_faults files.old) (F.read_faults files.new)) trouble }
    ensures files { let now = files_now F.contents F.read_faults F.replace_faults F.touched in
        ReadsNamed (name.now ∷ []) (name.now ∷ []) (now files.old) (now files.new) }
{
    let parts = read_service(alloc, files, name, information)?;
    Ok(finding_of(parts))
}

/// What a setup and its word list tell.
fn finding_of(parts: ServiceParts) -> Finding
    ensures { result ≡ finding_of (record { entries = entries_of parts.setup; words = parts.dictionary }) }
{
    Finding {
        accounts: parts.setup.parts().accounts.as_slice().len(),
        workers: parts.setup.workers(),
        requests: parts.setup.requests(),
    }
}

/// Whether a line tells what was found.
fn is_told(found: Result<Finding, Trouble>) -> bool
    ensures { result ≡ is_told found }
{
    match found {
        Ok(_) | Err(Trouble::SetupRefused(_) | Trouble::WordsRefused(_)) => true,
        Err(Trouble::Missing(FileKind::Setup | FileKind::Words)) => true,
        Err(_) => false,
    }
}
