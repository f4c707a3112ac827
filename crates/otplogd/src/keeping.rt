//! The files that the words of the command line name, read once before they are done.

ghost use Rattle.std.specs.Prelude.{◌≡◌, [], Err, OnOk, option_map};
ghost use Rattle.std.specs.Option.{option_to_list};
ghost use Rattle.outside.specs.FilesNow.{files_now};
ghost use Rattle.outside.specs.Told.{Rose};
ghost use Rattle.file_front.specs.declared.front.FrontError.TheVariants as errors;
ghost use Rattle.kept_files.specs.Files.{kept_now, kept_of, under_of};
ghost use Rattle.kept_files.specs.Setups.{KeepsThese, ReadsKept};
ghost use Rattle.serve_mode.specs.Commands.{source_of};
ghost use Rattle.serve_mode.specs.Words.{files_of, setups_of};
ghost use Rattle.monitor_server.specs.Touching.{files_given, files_named, setups_given, setups_named};
ghost use Rattle.otplogd.specs.Named.{KeepsNamed, files_before};

use file_front::FrontError;
use kept_files::{KeptFiles, keep_file, keep_service};
use monitor_server::{AloneCommand, Command, Unread, read_command};
use outside::{Files, Word};
use serve_mode::ServeCommand;
use std::alloc::Global;

#[tactic(auto, using(kept_files::proofs::SetupLemmas::kept_none))]
/// Keeps the files that the words name, and the word list of a setup that they name. Files of `audit` and `recover`
/// aren't kept: a log may have any length.
///
/// # Errors
///
/// The first reading that failed, or there isn't the memory.
pub fn keep_named<F: Files>(
    alloc: Global,
    files: &mut KeptFiles<F>,
    words: &[Word],
) -> Result<(), FrontError>
    ensures reads { let now = kept_now (files_now F.contents F.read_faults F.replace_faults F.touched) in
        ReadsKept (files_named words.now) (setups_named words.now) (now files.old) (now files.new) }
    ensures kept { OnOk result (KeepsNamed words.now (kept_of files.new)) }
    ensures failed { result ≡ Err errors.Failed → Rose (F.read_faults (under_of files.old))
        (F.read_faults (under_of files.new)) }
{
    match read_command(alloc, words) {
        Ok(Command::Serve(command)) => keep_served(alloc, files, command),
        Ok(Command::Alone(command)) => keep_given(alloc, files, command),
        Ok(Command::Drill(_)) => Ok(()),
        Err(Unread::NoCommand) => Ok(()),
        Err(Unread::OutOfMemory) => Err(FrontError::OutOfMemory),
    }
}

#[tactic(auto, using(kept_files::proofs::SetupLemmas::kept_none, kept_files::proofs::ListLemmas::these_none))]
/// Keeps the files of a run.
fn keep_served<F: Files>(
    alloc: Global,
    files: &mut KeptFiles<F>,
    command: ServeCommand<'_>,
) -> Result<(), FrontError>
    ensures reads { let now = kept_now (files_now F.contents F.read_faults F.replace_faults F.touched) in
        ReadsKept (files_of (source_of command.entry)) (setups_of (source_of command.entry))
        (now files.old) (now files.new) }
    ensures kept { OnOk result (KeepsThese (files_of (source_of command.entry)) (setups_of (source_of command.entry))
        (kept_of files.new)) }
    ensures failed { result ≡ Err errors.Failed → Rose (F.read_faults (under_of files.old))
        (F.read_faults (under_of files.new)) }
{
    match command {
        ServeCommand::Plain => Ok(()),
        ServeCommand::Named { setup, log } => keep_service(alloc, files, setup, log),
    }
}

#[tactic(auto, using(kept_files::proofs::SetupLemmas::kept_files_only))]
/// Keeps a word list, if one is named.
fn keep_list<F: Files>(files: &mut KeptFiles<F>, list: Option<&str>) -> Result<(), FrontError>
    ensures reads { let now = kept_now (files_now F.contents F.read_faults F.replace_faults F.touched) in
        ReadsKept (option_to_list (option_map (λ name. name.now) list.entry)) [] (now files.old) (now files.new) }
    ensures kept { OnOk result (KeepsThese (option_to_list (option_map (λ name. name.now) list.entry)) []
        (kept_of files.new)) }
    ensures failed { result ≡ Err errors.Failed → Rose (F.read_faults (under_of files.old))
        (F.read_faults (under_of files.new)) }
{
    keep_file(files, list)
}

#[tactic(auto, using(kept_files::proofs::SetupLemmas::kept_none, kept_files::proofs::ListLemmas::these_none))]
/// Keeps the files of a command that is done without threads.
fn keep_given<F: Files>(
    alloc: Global,
    files: &mut KeptFiles<F>,
    command: AloneCommand<'_>,
) -> Result<(), FrontError>
    ensures reads { let now = kept_now (files_now F.contents F.read_faults F.replace_faults F.touched) in
        ReadsKept (files_given command.entry) (setups_given command.entry) (now files.old) (now files.new) }
    ensures kept { OnOk result (KeepsThese (files_before command.entry) (setups_given command.entry)
        (kept_of files.new)) }
    ensures failed { result ≡ Err errors.Failed → Rose (F.read_faults (under_of files.old))
        (F.read_faults (under_of files.new)) }
{
    match command {
        AloneCommand::Password(command) => keep_list(files, command.list),
        AloneCommand::Check(setup) => keep_service(alloc, files, setup, None),
        AloneCommand::Renew(command) => keep_service(alloc, files, command.setup, command.log),
        AloneCommand::Child(_) => Ok(()),
        AloneCommand::Audit(_) => Ok(()),
        AloneCommand::Recover(_) => Ok(()),
        AloneCommand::Enrol(_) => Ok(()),
    }
}
