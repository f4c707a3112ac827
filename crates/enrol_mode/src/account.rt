//! The account of a new user.

ghost use Rattle.std.specs.Prelude.{◌≡◌, IfOk, true};
ghost use Rattle.policy_model.specs.Settings.{is_account};
ghost use Rattle.account_file.specs.Entries.{account_entry};
ghost use Rattle.enrol_mode.specs.Command.{command_parts};
ghost use Rattle.enrol_mode.specs.Accounts.{IsEnrolText, new_entry};

use crate::command::EnrolCommand;
use account_writer::write_account;
use otp_hash::at;
use policy_model::{Account, Grants};
use std::alloc::{AllocError, Global};

/// The table of the account that a command asks for, of a pass phrase.
pub(crate) fn account_text(
    alloc: Global,
    command: &EnrolCommand,
    phrase: &[u8],
) -> Result<Vec<u8>, AllocError>
    ensures { IfOk result (λ text. IsEnrolText (command_parts command.now) phrase.now text.items) }
{
    let account = new_account(alloc, command, phrase);
    write_account(alloc, &account)
}

/// The account that a command asks for, of a pass phrase.
fn new_account(alloc: Global, command: &EnrolCommand, phrase: &[u8]) -> Account
    ensures entry { account_entry result ≡ new_entry (command_parts command.now) phrase.now }
    ensures legal { is_account result ≡ true }
{
    let password = at(command.algo, &command.seed, phrase, command.number);
    Account {
        name: command.name,
        uid: command.uid,
        algo: command.algo,
        seed: command.seed,
        sequence: command.number,
        password,
        enabled: true,
        grants: Grants::of(Vec::new(alloc)),
    }
}
