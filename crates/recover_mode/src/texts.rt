//! What is written and sent.

ghost use Rattle.std.specs.Prelude.{◌≡◌, Err, IfOk};
ghost use Rattle.trouble.specs.declared.trouble.Trouble.{Trouble};
ghost use Rattle.recover_mode.specs.Commands.{command_parts};
ghost use Rattle.recover_mode.specs.Recovering.{AreTexts, AreTextsOf, IsBroughtBack, IsLogTrouble};

use crate::basis::Basis;
use crate::command::RecoverCommand;
use crate::line::{Recovery, recovery_line};
use account_writer::write_accounts;
use ledger_journal::{RecoverError, Recovered, recover};
use outside::Word;
use policy_model::Setup;
use std::alloc::{AllocError, Global};
use trouble::Trouble;

/// What is written and sent, all of whose memory is taken before anything is written.
#[derive(Drop)]
pub(crate) struct Texts {
    /// The name of the setup's file.
    pub setup: Word,
    /// The name of the log's file.
    pub log: Word,
    /// The bytes of the setup with what was recovered.
    pub bytes: Vec<u8>,
    /// The line that is sent.
    pub line: String,
    /// What it tells.
    pub recovery: Recovery,
}

/// What is written and sent where the log brings back a ledger.
pub(crate) fn texts_of(
    alloc: Global,
    command: &RecoverCommand<'_>,
    basis: &Basis,
) -> Result<Texts, Trouble>
    ensures texts { IfOk result (AreTexts (command_parts command.now) basis.now.setup basis.now.image.items) }
    ensures trouble { (trouble : Trouble) → result ≡ Err trouble →
        IsLogTrouble basis.now.setup basis.now.image.items trouble }
{
    let recovered = bring_back(alloc, basis)?;
    Ok(recovered_texts(alloc, command, &basis.setup, &recovered)?)
}

/// What is written and sent of what was recovered. That the ledger stays with the caller is what keeps
/// the proof short.
fn recovered_texts(
    alloc: Global,
    command: &RecoverCommand<'_>,
    setup: &Setup,
    recovered: &Recovered,
) -> Result<Texts, AllocError>
    requires { recovered.now.ledger.setup ≡ setup.now }
    ensures { IfOk result (AreTextsOf (command_parts command.now) setup.now recovered.now) }
{
    let recovery = Recovery {
        lines: recovered.lines,
        accepted: recovered.accepted,
    };
    Ok(Texts {
        setup: Word::of(alloc, command.setup.as_bytes())?,
        log: Word::of(alloc, command.log.as_bytes())?,
        bytes: write_accounts(alloc, setup, &recovered.ledger)?,
        line: recovery_line(alloc, recovery)?,
        recovery,
    })
}

/// What the image of the log brings back.
fn bring_back(alloc: Global, basis: &Basis) -> Result<Recovered, RecoverError>
    ensures { IsBroughtBack basis.now.setup basis.now.image.items result }
{
    recover(alloc, &basis.setup, basis.image.as_slice())
}
