//! What a renewal rests on.

ghost use Rattle.std.specs.Prelude.{◌≡◌, ◌∷◌, [], Err, IfOk, IfSome, OnOk, option_map};
ghost use Rattle.std.specs.Option.{option_to_list};
ghost use Rattle.outside.specs.FilesNow.{OnlyReads, files_now};
ghost use Rattle.outside.specs.Told.{Rose};
ghost use Rattle.setup_reading.specs.Touching.{ReadsNamed};
ghost use Rattle.otp_extended.specs.Commands.{command_parts};
ghost use Rattle.trouble.specs.declared.trouble.Trouble.{Trouble};
ghost use Rattle.renew_mode.specs.Bases.{HasBasis, HasFreshLog, IsFileTrouble, IsReady, IsUnready};
ghost use Rattle.renew_mode.specs.Installing.{IsLogRefused};
ghost use Rattle.renew_mode.specs.Outcome.{names_of};

use file_front::read_list;
use fresh_log::is_fresh;
use otp_extended::RenewCommand;
use otp_words::Dictionary;
use outside::{Failed, Files, Word};
use policy_model::Setup;
use setup_reading::read_setup_file;
use std::alloc::Global;
use trouble::{LogFault, Trouble};

/// What a renewal rests on: a setup, and the word list that it names.
#[derive(Drop)]
pub(crate) struct Basis {
    pub setup: Setup,
    pub dictionary: Dictionary,
}

/// Reads the setup and the word list, and then sees that the durable log that is named, if one is, has
/// no record.
pub(crate) fn make_ready<F: Files>(
    alloc: Global,
    command: &RenewCommand<'_>,
    files: &mut F,
) -> Result<Basis, Trouble>
    ensures ready { IfOk result (λ basis. IfSome (F.contents files.new) (IsReady (command_parts command.now) basis)) }
    ensures trouble { (trouble : Trouble) → result ≡ Err trouble → IsUnready (command_parts command.now)
        (F.contents files.new) (Rose (F.read_faults files.old) (F.read_faults files.new)) trouble }
    ensures files { let now = files_now F.contents F.read_faults F.replace_faults F.touched in
        ReadsNamed (names_of (command_parts command.now)) (command.now.setup.now ∷ []) (now files.old) (now files.new) }
{
    let basis = read_basis(alloc, files, command.setup)?;
    check_log(alloc, command.log, files)?;
    Ok(basis)
}

/// Sees that the durable log that is named, if one is, is there and has no record.
fn check_log<F: Files>(alloc: Global, log: Option<&str>, files: &mut F) -> Result<(), Trouble>
    ensures fresh { OnOk result (IfSome (F.contents files.new)
        (HasFreshLog (option_map (λ word. word.now) log.entry))) }
    ensures trouble { (trouble : Trouble) → result ≡ Err trouble →
        IsLogRefused (option_map (λ word. word.now) log.entry) (F.contents files.new)
        (Rose (F.read_faults files.old) (F.read_faults files.new)) trouble }
    ensures files { let now = files_now F.contents F.read_faults F.replace_faults F.touched in
        OnlyReads (option_to_list (option_map (λ word. word.now) log.entry)) (now files.old) (now files.new) }
{
    let Some(log) = log else {
        return Ok(());
    };
    let Ok(name) = Word::of(alloc, log.as_bytes()) else {
        return Err(Trouble::OutOfMemory);
    };
    match is_fresh(files, &name) {
        Ok(true) => Ok(()),
        Ok(false) => Err(Trouble::LogRefused(LogFault::NotFresh)),
        Err(Failed) => Err(Trouble::ReadFailed),
    }
}

/// Reads the setup of a file, and then the word list that it names.
fn read_basis<F: Files>(alloc: Global, files: &mut F, name: &str) -> Result<Basis, Trouble>
    ensures basis { IfOk result (λ basis. IfSome (F.contents files.new) (HasBasis name.now basis)) }
    ensures trouble { (trouble : Trouble) → result ≡ Err trouble → IsFileTrouble (F.contents files.new)
        name.now (Rose (F.read_faults files.old) (F.read_faults files.new)) trouble }
    ensures files { let now = files_now F.contents F.read_faults F.replace_faults F.touched in
        ReadsNamed (name.now ∷ []) (name.now ∷ []) (now files.old) (now files.new) }
{
    let setup = read_setup_file(alloc, files, name)?;
    let dictionary = read_list(alloc, files, setup.parts().words.as_str())?;
    Ok(Basis { setup, dictionary })
}
