//! The accounts, written back.

ghost use Rattle.std.specs.Prelude.{◌≡◌, ◌∷◌, []};
ghost use Rattle.outside.specs.FilesNow.{files_now};
ghost use Rattle.outside.specs.Told.{Rose};
ghost use Rattle.setup_reading.specs.Touching.{OnlyReplaces};
ghost use Rattle.serve_mode.specs.Commands.{source_of};
ghost use Rattle.serve_mode.specs.Steps.{WritesBack, WritesNamed};
ghost use Rattle.serve_mode.specs.Words.{Plain, setups_of};

use crate::command::ServeCommand;
use account_writer::write_accounts;
use outside::{Files, Word};
use policy_model::Setup;
use session_core::Core;
use std::alloc::Global;
use trouble::Trouble;

/// Replaces the file of a name by one that spells the setup with the accounts as they are known.
fn write_named<F: Files>(
    alloc: Global,
    name: &str,
    setup: &Setup,
    core: &Core,
    files: &mut F,
) -> Result<(), Trouble>
    requires { core.now.ledger.setup ≡ setup.now }
    ensures written { WritesNamed name.now setup.now core.now.ledger (F.contents files.old) (F.contents files.new)
        (Rose (F.replace_faults files.old) (F.replace_faults files.new)) result }
    ensures read_faults { F.read_faults files.new ≡ F.read_faults files.old }
    ensures files { let now = files_now F.contents F.read_faults F.replace_faults F.touched in
        OnlyReplaces (name.now ∷ []) (now files.old) (now files.new) }
{
    let Ok(name) = Word::of(alloc, name.as_bytes()) else {
        return Err(Trouble::OutOfMemory);
    };
    let Ok(bytes) = write_accounts(alloc, setup, core.ledger()) else {
        return Err(Trouble::OutOfMemory);
    };
    if files.replace(&name, bytes.as_slice()).is_err() {
        return Err(Trouble::ReplaceFailed);
    }
    Ok(())
}

/// Writes the accounts, as they are known, to where the setup came from.
pub(crate) fn write_back<F: Files>(
    alloc: Global,
    command: &ServeCommand<'_>,
    setup: &Setup,
    core: &Core,
    files: &mut F,
) -> Result<(), Trouble>
    requires { core.now.ledger.setup ≡ setup.now }
    ensures written { WritesBack (source_of command.now) setup.now core.now.ledger (F.contents files.old)
        (F.contents files.new)
        (Rose (F.replace_faults files.old) (F.replace_faults files.new)) result }
    ensures plain { source_of command.now ≡ Plain → files.new ≡ files.old }
    ensures read_faults { F.read_faults files.new ≡ F.read_faults files.old }
    ensures files { let now = files_now F.contents F.read_faults F.replace_faults F.touched in
        OnlyReplaces (setups_of (source_of command.now)) (now files.old) (now files.new) }
{
    match command {
        ServeCommand::Plain => Ok(()),
        ServeCommand::Named { setup: name, .. } => write_named(alloc, name, setup, core, files),
    }
}
