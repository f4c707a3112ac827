//! The reading of a setup file.

ghost use Rattle.std.specs.Prelude.{◌≡◌, ◌≤◌, ◌+◌, ◌*◌, IfOk, true};
ghost use Rattle.policy_model.specs.Settings.{IsInRange, are_numbers, are_accounts};
ghost use Rattle.toml.specs.View.{table_view};
ghost use Rattle.account_file.specs.declared.fault.SetupKey.TheVariants.{File};
ghost use Rattle.account_file.specs.declared.fault.SetupRule.TheVariants.{NotToml};
ghost use Rattle.account_file.specs.Entries.{entries_of};
ghost use Rattle.account_file.specs.Faults.{Answers, demand_at};
ghost use Rattle.account_file.specs.Setups.{document_of, read_settings, setup_of};

use crate::accounts::read_accounts;
use crate::fault::{SetupError, SetupKey, SetupRule, Spot};
use crate::info::read_info;
use crate::known::{Level, are_known};
use crate::settings::{check_product, read_counts, read_frames, read_salt, read_texts};
use policy_model::{Setup, SetupParts, Text};
use std::alloc::{AllocError, Global};
use toml::Table;

/// Reads the setup that the bytes of a TOML file spell. What is refused is refused by its first
/// fault: the file, unknown keys, then each key in the order in which the faults' keys are listed.
/// How long a file may be is for its reader to say.
pub fn read_setup(alloc: Global, bytes: &[u8]) -> Result<Setup, SetupError>
    ensures { Answers entries_of result (setup_of bytes.now) }
{
    let table = document_of(alloc, bytes)?;
    if !are_known(&table, Level::File) {
        return Err(SetupError::Refused(Spot::new(SetupKey::Other, 0).breaks(SetupRule::Unknown)));
    }
    read_settings(alloc, &table)
}

/// The table of a TOML document.
fn document_of(alloc: Global, bytes: &[u8]) -> Result<Table, SetupError>
    ensures { Answers table_view result (demand_at 0 File NotToml (document_of bytes.now)) }
{
    let fault = Spot::new(SetupKey::File, 0).breaks(SetupRule::NotToml);
    let Ok(text) = std::str::from_utf8(bytes) else {
        return Err(SetupError::Refused(fault));
    };
    match toml::table_from_str(alloc, text) {
        Ok(table) => Ok(table),
        Err(e) => {
            if e.is_memory() {
                Err(SetupError::OutOfMemory)
            } else {
                Err(SetupError::Refused(fault))
            }
        }
    }
}

/// The setup of a document's table.
fn read_settings(alloc: Global, table: &Table) -> Result<Setup, SetupError>
    ensures { Answers entries_of result (read_settings (table_view table.now)) }
{
    let texts = read_texts(table)?;
    let salt = read_salt(table)?;
    let frames = read_frames(table)?;
    let counts = read_counts(table)?;
    let info = read_info(alloc, table)?;
    let counts = check_product(counts)?;
    let accounts = read_accounts(alloc, table)?;
    let parts = SetupParts {
        socket: copied(alloc, texts.socket)?,
        launcher: copied(alloc, texts.launcher)?,
        vault: copied(alloc, texts.vault)?,
        words: copied(alloc, texts.words)?,
        banner: copied(alloc, texts.banner)?,
        salt,
        frames,
        workers: counts.workers,
        connections: counts.connections,
        requests: counts.requests,
        tries: counts.tries,
        hold: counts.hold,
        info,
        accounts,
    };
    Ok(whole(parts))
}

/// The setup of parts that are in their ranges.
fn whole(parts: SetupParts) -> Setup
    requires { IsInRange parts }
    ensures { result ≡ parts }
{
    Setup::of(parts).unwrap()
}

/// A text of its own.
fn copied(alloc: Global, text: &str) -> Result<Text, AllocError>
    ensures { IfOk result (λ t. t ≡ text.now) }
{
    Ok(Text::of(String::from_str(alloc, text)?))
}
