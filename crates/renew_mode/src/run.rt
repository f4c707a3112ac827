//! The mode.

ghost use Rattle.std.specs.Prelude.{◌≡◌, ◌≤◌, ◌∷◌, [], false};
ghost use Rattle.outside.specs.Files.{SameFiles};
ghost use Rattle.outside.specs.FilesNow.{files_now};
ghost use Rattle.outside.specs.Link.{IsUnasked};
ghost use Rattle.outside.specs.Told.{Goes, Rose};
ghost use Rattle.otp_mode.specs.Asking.{AsksForLine, AsksOneLine};
ghost use Rattle.setup_reading.specs.Touching.{OnlyReplaces, TouchesNamed};
ghost use Rattle.otp_extended.specs.Commands.{command_parts};
ghost use Rattle.renew_mode.specs.Ends.{ends_before_input, may_be_written};
ghost use Rattle.renew_mode.specs.Installing.{IsInstalling};
ghost use Rattle.renew_mode.specs.Outcome.{IsOutcome, Spares, names_of};
ghost use Rattle.renew_mode.specs.Renewing.{IsPut, IsRenewing};

use crate::basis::{Basis, make_ready};
use crate::texts::{Texts, texts_of};
use otp_extended::{RenewCommand, Renewal, Renewed, receive_renewal};
use outside::{Files, Stream};
use std::alloc::Global;
use trouble::Trouble;

/// Runs the mode: reads the setup and then the word list that it names, sees that the durable log that is
/// named, if one is, has no record, receives the first line of the input, and takes it as a response for
/// the user. It replaces the setup's file by one that spells the setup with that user's new chain, and
/// sends one line that says so. Comments and spacing of the file are not kept.
///
/// # Errors
///
/// The first trouble, in this order: of the setup, the word list, the log, receiving the line, the
/// response, the renewal, memory, replacing the file, sending the line. Memory may also run out at a
/// file. The file is replaced only if no trouble came before: where the replacing failed, it is as it was
/// or has the new chain; where the sending failed, it has it.
pub fn run_renew<F: Files, E: Stream>(
    alloc: Global,
    command: &RenewCommand<'_>,
    files: &mut F,
    ends: &mut E,
) -> Result<Renewed, Trouble>
    ensures outcome { IsOutcome (command_parts command.now) (F.contents files.old) (F.contents files.new)
        (E.link ends.old) (E.link ends.new) (Rose (F.read_faults files.old) (F.read_faults files.new))
        (Rose (F.replace_faults files.old) (F.replace_faults files.new))
        (Rose (E.faults ends.old) (E.faults ends.new)) result }
    ensures asks { AsksOneLine (ends_before_input result) E.link ends.old ends.new }
    ensures spares { Goes (Spares command.now.setup.now) (F.contents files.old) (F.contents files.new) }
    ensures unwritten { may_be_written result ≡ false → Goes SameFiles (F.contents files.old) (F.contents files.new) }
    ensures files { let now = files_now F.contents F.read_faults F.replace_faults F.touched in
        TouchesNamed (names_of (command_parts command.now)) (command.now.setup.now ∷ []) (command.now.setup.now ∷ [])
        (now files.old) (now files.new) }
    ensures faults { E.faults ends.old ≤ E.faults ends.new }
{
    let basis = make_ready(alloc, command, files)?;
    renew_account(alloc, command, &basis, files, ends)
}

/// Receives the response, writes the new setup and tells it.
fn renew_account<F: Files, E: Stream>(
    alloc: Global,
    command: &RenewCommand<'_>,
    basis: &Basis,
    files: &mut F,
    ends: &mut E,
) -> Result<Renewed, Trouble>
    ensures outcome { IsRenewing (command_parts command.now) basis.now (F.contents files.old) (F.contents files.new)
        (E.link ends.old) (E.link ends.new) (Rose (F.replace_faults files.old) (F.replace_faults files.new))
        (Rose (E.faults ends.old) (E.faults ends.new)) result }
    ensures asked { Goes AsksForLine (E.link ends.old) (E.link ends.new) }
    ensures files { let now = files_now F.contents F.read_faults F.replace_faults F.touched in
        OnlyReplaces (command.now.setup.now ∷ []) (now files.old) (now files.new) }
    ensures faults { E.faults ends.old ≤ E.faults ends.new }
{
    let renewal = receive_renewal(alloc, &basis.setup, &basis.dictionary, &command.user, ends)?;
    install(alloc, command, &renewal, files, ends)
}

/// Writes the setup of a renewal, and then tells it. That the renewal stays with the caller is what
/// keeps the proof short.
fn install<F: Files, E: Stream>(
    alloc: Global,
    command: &RenewCommand<'_>,
    renewal: &Renewal,
    files: &mut F,
    ends: &mut E,
) -> Result<Renewed, Trouble>
    ensures outcome { IsInstalling (command_parts command.now) renewal.now (F.contents files.old) (F.contents files.new)
        (E.link ends.old) (E.link ends.new) (Rose (F.replace_faults files.old) (F.replace_faults files.new))
        (Rose (E.faults ends.old) (E.faults ends.new)) result }
    ensures unasked { Goes IsUnasked (E.link ends.old) (E.link ends.new) }
    ensures files { let now = files_now F.contents F.read_faults F.replace_faults F.touched in
        OnlyReplaces (command.now.setup.now ∷ []) (now files.old) (now files.new) }
    ensures faults { E.faults ends.old ≤ E.faults ends.new }
{
    let texts = texts_of(alloc, command, renewal)?;
    put(&texts, files, ends)?;
    Ok(renewal.renewed)
}

/// Writes the new setup, and then tells it.
fn put<F: Files, E: Stream>(texts: &Texts, files: &mut F, ends: &mut E) -> Result<(), Trouble>
    ensures put { IsPut texts.now (F.contents files.old) (F.contents files.new) (E.link ends.old) (E.link ends.new)
        (Rose (F.replace_faults files.old) (F.replace_faults files.new))
        (Rose (E.faults ends.old) (E.faults ends.new)) result }
    ensures unasked { Goes IsUnasked (E.link ends.old) (E.link ends.new) }
    ensures files { let now = files_now F.contents F.read_faults F.replace_faults F.touched in
        OnlyReplaces (texts.now.file ∷ []) (now files.old) (now files.new) }
    ensures faults { E.faults ends.old ≤ E.faults ends.new }
{
    if files.replace(&texts.file, texts.bytes.as_slice()).is_err() {
        return Err(Trouble::ReplaceFailed);
    }
    if ends.send(texts.line.as_slice()).is_err() {
        return Err(Trouble::EndsFailed);
    }
    Ok(())
}
