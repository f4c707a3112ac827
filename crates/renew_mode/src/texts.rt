//! What is written and sent.

ghost use Rattle.std.specs.Prelude.{◌≡◌, IfOk, Ok};
ghost use Rattle.account_file.specs.Entries.{entries_of};
ghost use Rattle.account_writer.specs.Written.{IsFileOf};
ghost use Rattle.setup_reading.specs.Read.{judged_setup};
ghost use Rattle.otp_extended.specs.Commands.{command_parts};
ghost use Rattle.renew_mode.specs.Renewing.{AreTexts};

use account_writer::write_accounts;
use otp_extended::{RenewCommand, Renewal, renewed_line};
use otp_ledger::Ledger;
use outside::Word;
use policy_model::Setup;
use std::alloc::{AllocError, Global};

/// What is written and sent, all of whose memory is taken before anything is written.
#[derive(Drop)]
pub(crate) struct Texts {
    /// The name of the file that is written.
    pub file: Word,
    /// The bytes of the new setup.
    pub bytes: Vec<u8>,
    /// The line that is sent.
    pub line: Vec<u8>,
}

/// What is written and sent of a renewal.
pub(crate) fn texts_of(
    alloc: Global,
    command: &RenewCommand<'_>,
    renewal: &Renewal,
) -> Result<Texts, AllocError>
    ensures { IfOk result (AreTexts (command_parts command.now) renewal.now) }
{
    Ok(Texts {
        file: Word::of(alloc, command.setup.as_bytes())?,
        bytes: setup_bytes(alloc, &renewal.setup)?,
        line: renewed_line(alloc, &command.user, renewal.renewed.sequence)?,
    })
}

/// The bytes of the file of a setup.
fn setup_bytes(alloc: Global, setup: &Setup) -> Result<Vec<u8>, AllocError>
    ensures spelled { IfOk result (λ bytes. judged_setup bytes.items ≡ Ok (entries_of setup.now)) }
    ensures written { IfOk result (λ bytes. IsFileOf setup.now bytes.items) }
{
    let ledger = Ledger::new(alloc, setup, 0)?;
    write_accounts(alloc, setup, &ledger)
}
