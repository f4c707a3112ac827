//! The mode.

ghost use Rattle.std.specs.Prelude.{◌≡◌, ◌≤◌, ◌∷◌, [], Err, IfOk, IfSome, true};
ghost use Rattle.outside.specs.FilesNow.{OnlyReads, files_now};
ghost use Rattle.outside.specs.Told.{Rose};
ghost use Rattle.trouble.specs.declared.trouble.Trouble.{Trouble};
ghost use Rattle.audit_mode.specs.Commands.{command_parts};
ghost use Rattle.audit_mode.specs.Words.{names_of};
ghost use Rattle.audit_mode.specs.Outcome.{IsAnswered, IsAnswerOf, IsFileTrouble, IsLogTrouble, IsOutcome};
ghost use Rattle.audit_mode.specs.Outcome.{answer_status, audit_status, ends_before_line};

use crate::command::AuditCommand;
use crate::line::answer_line;
use crate::text::audited_text;
use audit_check::{Audit, audit};
use file_front::read_front;
use outside::{Files, Stream};
use policy_model::Setup;
use setup_reading::read_setup_file;
use std::alloc::Global;
use trouble::{FileKind, Trouble};

/// How many bytes of a log are read: one more than 1,048,576 lines of 256 bytes have.
const LOG_MAX: usize = 268_435_457;

/// The exit status of a program that ends by what came of the mode: 0 for a legal log and 14 for
/// another, else 3, 4, 5, 9 or 11.
pub fn status(outcome: Result<Audit, Trouble>) -> u8
    ensures { result ≡ audit_status outcome }
{
    match outcome {
        Ok(answer) => answer_status(answer),
        Err(trouble) => trouble.status(),
    }
}

/// The exit status of a program that has told an answer.
fn answer_status(answer: Audit) -> u8
    ensures { result ≡ answer_status answer }
{
    match answer {
        Audit::Yes { .. } => 0,
        Audit::No { .. } => 14,
    }
}

/// Runs the mode: reads the setup and then the log, of whose file the first 268,435,457 bytes count,
/// and sends one line that says whether the log is legal. Of a file that begins with `OTJ1` the log is
/// the lines of its records.
///
/// # Errors
///
/// The first trouble, in this order: of the setup, of the log, of sending the line. Memory may run out at
/// each.
pub fn run_audit<F: Files, E: Stream>(
    alloc: Global,
    command: &AuditCommand<'_>,
    files: &mut F,
    ends: &mut E,
) -> Result<Audit, Trouble>
    ensures outcome { IsOutcome (command_parts command.now) (F.contents files.new) (E.link ends.old)
        (E.link ends.new) (Rose (F.read_faults files.old) (F.read_faults files.new))
        (Rose (E.faults ends.old) (E.faults ends.new)) result }
    ensures untold { ends_before_line result ≡ true → ends.new ≡ ends.old }
    ensures files { let now = files_now F.contents F.read_faults F.replace_faults F.touched in
        OnlyReads (names_of (command_parts command.now)) (now files.old) (now files.new) }
    ensures faults { E.faults ends.old ≤ E.faults ends.new }
{
    let answer = audit_files(alloc, command, files)?;
    let line = answer_line(alloc, answer)?;
    ends.send(line.as_bytes())?;
    Ok(answer)
}

/// The answer for the setup and the log of two files.
fn audit_files<F: Files>(
    alloc: Global,
    command: &AuditCommand<'_>,
    files: &mut F,
) -> Result<Audit, Trouble>
    ensures answer { IfOk result (IsAnswered (F.contents files.new) (command_parts command.now)) }
    ensures trouble { (trouble : Trouble) → result ≡ Err trouble → IsFileTrouble (F.contents files.new)
        (command_parts command.now) (Rose (F.read_faults files.old) (F.read_faults files.new)) trouble }
    ensures files { let now = files_now F.contents F.read_faults F.replace_faults F.touched in
        OnlyReads (names_of (command_parts command.now)) (now files.old) (now files.new) }
{
    let setup = read_setup_file(alloc, files, command.setup)?;
    audit_log(alloc, &setup, files, command.log)
}

/// The answer for the log of a file.
fn audit_log<F: Files>(
    alloc: Global,
    setup: &Setup,
    files: &mut F,
    name: &str,
) -> Result<Audit, Trouble>
    ensures answer { IfOk result (λ answer. IfSome (F.contents files.new) (λ there.
        IsAnswerOf setup.now (there name.now) answer)) }
    ensures trouble { (trouble : Trouble) → result ≡ Err trouble → IsLogTrouble (F.contents files.new)
        name.now (Rose (F.read_faults files.old) (F.read_faults files.new)) trouble }
    ensures files { let now = files_now F.contents F.read_faults F.replace_faults F.touched in
        OnlyReads (name.now ∷ []) (now files.old) (now files.new) }
{
    let Some(bytes) = read_front(alloc, files, name, LOG_MAX)? else {
        return Err(Trouble::Missing(FileKind::Log));
    };
    let text = audited_text(alloc, bytes)?;
    Ok(audit(alloc, setup, text.as_slice())?)
}
