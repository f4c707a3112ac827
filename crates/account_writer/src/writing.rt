//! The setup file that is written.

ghost use Rattle.std.specs.Prelude.{◌≡◌, ◌∷◌, IfOk, IsUtf8, Ok, false, length, map, string_bytes, true};
ghost use Rattle.std.specs.List.{list_all};
ghost use Rattle.policy_model.specs.Settings.{IsInRange, is_account};
ghost use Rattle.account_file.specs.Entries.{entries_of};
ghost use Rattle.account_file.specs.Setups.{setup_of};
ghost use Rattle.toml.specs.Data.{members_have_valid_dates};
ghost use Rattle.toml.specs.Text.{IsDocumentText};
ghost use Rattle.toml.specs.View.{table_view, view};
ghost use Rattle.account_writer.specs.CurrentSetup.{IsSetupAfter, current_accounts, current_setup};
ghost use Rattle.account_writer.specs.Puts.{is_writable};
ghost use Rattle.account_writer.specs.Tables.{account_data, setup_members};
ghost use Rattle.account_writer.specs.Written.{IsFileOf, IsTextOf};

use crate::tables::{account_table, alone_table, put_accounts, put_counts, put_texts};
use otp_ledger::Ledger;
use policy_model::{Account, Setup};
use std::alloc::{AllocError, Global};
use toml::ser::Error;
use toml::{Table, Value};

/// The bytes of a setup file that `account_file::read_setup` reads to the setup that the ledger was
/// made from, with each account's sequence and password as the ledger knows them. All keys are
/// written, but that of accounts where there are none; comments and spacing of an earlier file are not
/// kept.
///
/// # Errors
///
/// There isn't the memory.
pub fn write_accounts(alloc: Global, setup: &Setup, ledger: &Ledger) -> Result<Vec<u8>, AllocError>
    requires { ledger.now.setup ≡ setup.now }
    ensures current { IfOk result (λ bytes. setup_of bytes.items
        ≡ Ok (entries_of (current_setup setup.now ledger.now.accounts))) }
    ensures after { IfOk result (λ bytes. IsSetupAfter setup.now ledger.now bytes.items) }
    ensures written { IfOk result (λ bytes. IsFileOf (current_setup setup.now ledger.now.accounts) bytes.items) }
{
    let accounts = account_values(alloc, ledger)?;
    let table = setup_table(alloc, setup, accounts)?;
    let text = printed(alloc, &table)?;
    Ok(text.into_bytes())
}

/// The bytes of an account's table, after an empty line: what [`write_accounts`] writes for it after
/// the other accounts of a setup.
///
/// # Errors
///
/// There isn't the memory.
pub fn write_account(alloc: Global, account: &Account) -> Result<Vec<u8>, AllocError>
    requires { is_account account.now ≡ true }
    ensures { IfOk result (λ bytes. IsTextOf account.now bytes.items) }
{
    let table = alone_table(alloc, account)?;
    let text = printed(alloc, &table)?;
    spaced(alloc, text.as_str())
}

/// A table as TOML prints it.
fn printed(alloc: Global, table: &Table) -> Result<String, AllocError>
    requires { members_have_valid_dates (table_view table.now) ≡ true }
    ensures { IfOk result (λ text. IsDocumentText false (table_view table.now) (string_bytes text)) }
{
    match toml::table_to_string(alloc, table) {
        Ok(text) => Ok(text),
        Err(Error::OutOfMemory) => Err(AllocError),
        Err(Error::DateInvalid) => unreachable!(),
    }
}

/// A text after an empty line.
fn spaced(alloc: Global, text: &str) -> Result<Vec<u8>, AllocError>
    ensures bytes { IfOk result (λ bytes. bytes.items ≡ 10 ∷ text.now) }
    ensures utf8 { IfOk result (λ bytes. IsUtf8 bytes.items) }
{
    let mut bytes = String::from_str(alloc, "\n")?;
    bytes.push_str(text)?;
    Ok(bytes.into_bytes())
}

/// The tables of the accounts, with what the ledger knows of each.
fn account_values(alloc: Global, ledger: &Ledger) -> Result<Vec<Value>, AllocError>
    ensures values { IfOk result (λ values. map view values.items ≡ map account_data
        (current_accounts ledger.now.setup.accounts ledger.now.accounts)) }
    ensures writable { IfOk result
        (λ _. list_all is_writable (current_accounts ledger.now.setup.accounts ledger.now.accounts) ≡ true) }
    ensures each { length ledger.now.setup.accounts ≡ length ledger.now.accounts }
{
    let accounts = ledger.setup().parts().accounts.as_slice();
    let mut values = Vec::with_capacity(alloc, accounts.len())?;
    for (i, account) in accounts.iter().enumerate() {
        let table = account_table(alloc, account, ledger.current(i as u32))?;
        values.push(Value::from(table))?;
    }
    Ok(values)
}

/// The table of a setup, with the tables of its accounts.
#[tactic(auto, using(crate::proofs::PutLemmas::put_all))]
fn setup_table(alloc: Global, setup: &Setup, accounts: Vec<Value>) -> Result<Table, AllocError>
    ensures table { IfOk result (λ table. table_view table ≡ setup_members setup.now (map view accounts.items)) }
    ensures in_range { IsInRange setup.now }
{
    let parts = setup.parts();
    let mut table = Table::new(alloc);
    put_texts(alloc, &mut table, parts)?;
    put_counts(alloc, &mut table, parts)?;
    put_accounts(alloc, &mut table, accounts)?;
    Ok(table)
}
