//! The mode.

ghost use Rattle.std.specs.Prelude.{◌≡◌, ◌≤◌, ◌∷◌, [], OnErr, OnOk, false, true};
ghost use Rattle.outside.specs.Files.{SameFiles};
ghost use Rattle.outside.specs.FilesNow.{files_now};
ghost use Rattle.outside.specs.Told.{Goes, Rose};
ghost use Rattle.setup_reading.specs.Touching.{OnlyReplaces, TouchesNamed};
ghost use Rattle.recover_mode.specs.Commands.{command_parts};
ghost use Rattle.recover_mode.specs.Ends.{ends_before_line, may_be_written};
ghost use Rattle.recover_mode.specs.Outcome.{IsOutcome, Spares};
ghost use Rattle.recover_mode.specs.Recovering.{AreWritten, IsPut, MayBeWritten};
ghost use Rattle.recover_mode.specs.Returning.{BringsBack};
ghost use Rattle.recover_mode.specs.Words.{names_of};

use crate::basis::read_basis;
use crate::command::RecoverCommand;
use crate::line::Recovery;
use crate::texts::{Texts, texts_of};
use fresh_log::fresh_image;
use outside::{Failed, Files, Stream};
use std::alloc::Global;
use trouble::Trouble;

/// Runs the mode: reads the setup and then the log, of which the first 271,581,189 bytes count and which
/// has no records where its file is missing. It verifies the replies that the log accepts, replaces the
/// setup's file by one that spells the setup with what they make of the accounts, then the log's by the
/// image of no records, and sends one line that says how many lines and accepted replies the log had.
/// Comments and spacing of the setup's file are not kept. Where it is stopped between the two files, the
/// next call does the same again, since the setup has all replies then.
///
/// # Errors
///
/// The first trouble, in this order: of the setup, the log's file, its records, memory, replacing the two
/// files, sending the line. Memory may also run out at a file. A file is replaced only if no trouble came
/// before: where a replacing failed, nothing is written, or the setup alone, or both; where the sending
/// failed, both are.
pub fn run_recover<F: Files, E: Stream>(
    alloc: Global,
    command: &RecoverCommand<'_>,
    files: &mut F,
    ends: &mut E,
) -> Result<Recovery, Trouble>
    ensures outcome { IsOutcome (command_parts command.now) (F.contents files.old) (F.contents files.new)
        (E.link ends.old) (E.link ends.new) (Rose (F.read_faults files.old) (F.read_faults files.new))
        (Rose (F.replace_faults files.old) (F.replace_faults files.new))
        (Rose (E.faults ends.old) (E.faults ends.new)) result }
    ensures back { Goes (BringsBack (command_parts command.now) result) (F.contents files.old) (F.contents files.new) }
    ensures untold { ends_before_line result ≡ true → ends.new ≡ ends.old }
    ensures spares { Goes (Spares (command_parts command.now)) (F.contents files.old) (F.contents files.new) }
    ensures unwritten { may_be_written result ≡ false → Goes SameFiles (F.contents files.old) (F.contents files.new) }
    ensures files { let now = files_now F.contents F.read_faults F.replace_faults F.touched in
        TouchesNamed (names_of (command_parts command.now)) [] (names_of (command_parts command.now))
        (now files.old) (now files.new) }
    ensures faults { E.faults ends.old ≤ E.faults ends.new }
{
    let basis = read_basis(alloc, command, files)?;
    let texts = texts_of(alloc, command, &basis)?;
    put(&texts, files, ends)
}

/// Writes the setup and then the log, and then tells it.
fn put<F: Files, E: Stream>(texts: &Texts, files: &mut F, ends: &mut E) -> Result<Recovery, Trouble>
    ensures put { IsPut texts.now (F.contents files.old) (F.contents files.new) (E.link ends.old) (E.link ends.new)
        (Rose (F.replace_faults files.old) (F.replace_faults files.new))
        (Rose (E.faults ends.old) (E.faults ends.new)) result }
    ensures untold { ends_before_line result ≡ true → ends.new ≡ ends.old }
    ensures files { let now = files_now F.contents F.read_faults F.replace_faults F.touched in
        OnlyReplaces (texts.now.setup ∷ texts.now.log ∷ []) (now files.old) (now files.new) }
    ensures faults { E.faults ends.old ≤ E.faults ends.new }
{
    if write(texts, files).is_err() {
        return Err(Trouble::ReplaceFailed);
    }
    if ends.send(texts.line.as_bytes()).is_err() {
        return Err(Trouble::EndsFailed);
    }
    Ok(texts.recovery)
}

/// Writes the setup, and then the log. `Failed`: one of the replacings failed.
fn write<F: Files>(texts: &Texts, files: &mut F) -> Result<(), Failed>
    ensures ok { OnOk result (Goes (AreWritten texts.now) (F.contents files.old) (F.contents files.new)) }
    ensures err { OnErr result (Goes (MayBeWritten texts.now) (F.contents files.old) (F.contents files.new)) }
    ensures failed { OnErr result (Rose (F.replace_faults files.old) (F.replace_faults files.new)) }
    ensures files { let now = files_now F.contents F.read_faults F.replace_faults F.touched in
        OnlyReplaces (texts.now.setup ∷ texts.now.log ∷ []) (now files.old) (now files.new) }
{
    files.replace(&texts.setup, texts.bytes.as_slice())?;
    files.replace(&texts.log, fresh_image())
}
