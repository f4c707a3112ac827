//! What a run serves by, read.

ghost use Rattle.std.specs.Prelude.{◌≡◌, [], Err, IfOk, IfSome, None, OnOk};
ghost use Rattle.std.specs.Option.{option_to_list};
ghost use Rattle.outside.specs.FilesNow.{OnlyReads, files_now};
ghost use Rattle.outside.specs.Told.{Rose};
ghost use Rattle.setup_reading.specs.Touching.{ReadsNamed};
ghost use Rattle.trouble.specs.declared.trouble.Trouble.{Trouble};
ghost use Rattle.serve_mode.specs.Commands.{source_of};
ghost use Rattle.serve_mode.specs.Services.{HasFreshLog};
ghost use Rattle.serve_mode.specs.Steps.{IsLogRefused, IsReadFrom, IsUnready, log_of};
ghost use Rattle.serve_mode.specs.Words.{Plain, files_of, setups_of};

use crate::command::ServeCommand;
use crate::house::House;
use fresh_log::is_fresh;
use otp_words::Dictionary;
use outside::{Failed, Files, Word};
use policy_model::Setup;
use service_reading::{Information, ServiceParts, read_service};
use std::alloc::{AllocError, Global};
use trouble::{LogFault, Trouble};

/// The plain setup and the plain word list.
fn plain_parts(alloc: Global) -> Result<ServiceParts, AllocError>
    ensures { IfOk result (λ parts. IsReadFrom Plain [] None parts.setup parts.dictionary) }
{
    Ok(ServiceParts {
        setup: Setup::plain(alloc)?,
        dictionary: Dictionary::plain(alloc)?,
    })
}

/// Reads what a run serves by, and sees that the durable log that is named, if one is, has no record.
///
/// # Errors
///
/// There is nothing to serve with, or the log isn't fresh; memory may run out.
pub(crate) fn make_ready<'a, F: Files, I: Information>(
    alloc: Global,
    command: &ServeCommand<'_>,
    files: &mut F,
    information: &'a I,
) -> Result<House<'a, I>, Trouble>
    ensures read { IfOk result (λ house. IsReadFrom (source_of command.now) (I.forms information.now)
        (F.contents files.new) house.setup house.dictionary) }
    ensures fresh { IfOk result
        (λ house. IfSome (F.contents files.new) (HasFreshLog (log_of (source_of command.now)))) }
    ensures information { IfOk result (λ house. house.information.now ≡ information.now) }
    ensures trouble { (trouble : Trouble) → result ≡ Err trouble → IsUnready (source_of command.now)
        (I.forms information.now) (F.contents files.new)
        (Rose (F.read_faults files.old) (F.read_faults files.new)) trouble }
    ensures plain { source_of command.now ≡ Plain → files.new ≡ files.old }
    ensures files { let source = source_of command.now in
        let now = files_now F.contents F.read_faults F.replace_faults F.touched in
        ReadsNamed (files_of source) (setups_of source) (now files.old) (now files.new) }
{
    let house = read_house(alloc, command, files, information)?;
    check_log(alloc, command, files)?;
    Ok(house)
}

/// Sees that the durable log that is named, if one is, is there and has no record.
fn check_log<F: Files>(
    alloc: Global,
    command: &ServeCommand<'_>,
    files: &mut F,
) -> Result<(), Trouble>
    ensures fresh { OnOk result (IfSome (F.contents files.new) (HasFreshLog (log_of (source_of command.now)))) }
    ensures trouble { (trouble : Trouble) → result ≡ Err trouble → IsLogRefused (log_of (source_of command.now))
        (F.contents files.new)
        (Rose (F.read_faults files.old) (F.read_faults files.new)) trouble }
    ensures plain { source_of command.now ≡ Plain → files.new ≡ files.old }
    ensures files { let now = files_now F.contents F.read_faults F.replace_faults F.touched in
        OnlyReads (option_to_list (log_of (source_of command.now))) (now files.old) (now files.new) }
{
    let ServeCommand::Named { log: Some(log), .. } = command else {
        return Ok(());
    };
    let Ok(name) = Word::of(alloc, log.as_bytes()) else {
        return Err(Trouble::OutOfMemory);
    };
    match is_fresh(files, &name) {
        Ok(true) => Ok(()),
        Ok(false) => Err(Trouble::LogRefused(LogFault::NotFresh)),
        Err(Failed) => Err(Trouble::ReadFailed),
    }
}

/// Reads what a run serves by.
///
/// # Errors
///
/// As of [`read_service`]; for the plain setup there isn't the memory.
fn read_house<'a, F: Files, I: Information>(
    alloc: Global,
    command: &ServeCommand<'_>,
    files: &mut F,
    information: &'a I,
) -> Result<House<'a, I>, Trouble>
    ensures read { IfOk result (λ house. IsReadFrom (source_of command.now) (I.forms information.now)
        (F.contents files.new) house.setup house.dictionary) }
    ensures information { IfOk result (λ house. house.information.now ≡ information.now) }
    ensures trouble { (trouble : Trouble) → result ≡ Err trouble → IsUnready (source_of command.now)
        (I.forms information.now) (F.contents files.new)
        (Rose (F.read_faults files.old) (F.read_faults files.new)) trouble }
    ensures plain { source_of command.now ≡ Plain → files.new ≡ files.old }
    ensures files { let source = source_of command.now in
        let now = files_now F.contents F.read_faults F.replace_faults F.touched in
        ReadsNamed (setups_of source) (setups_of source) (now files.old) (now files.new) }
{
    let parts = match command {
        ServeCommand::Plain => match plain_parts(alloc) {
            Ok(parts) => parts,
            Err(AllocError) => return Err(Trouble::OutOfMemory),
        },
        ServeCommand::Named { setup, .. } => read_service(alloc, files, setup, information)?,
    };
    let ServiceParts { setup, dictionary } = parts;
    Ok(House {
        setup,
        dictionary,
        information,
    })
}
