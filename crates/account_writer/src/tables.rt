//! The tables of a setup file.

ghost use Rattle.std.specs.Prelude.{◌≡◌, ◌≤◌, IfOk, OnOk, map, true};
ghost use Rattle.toml.specs.Data.{no_members, string};
ghost use Rattle.toml.specs.View.{table_view, view};
ghost use Rattle.policy_model.specs.Settings.{is_account};
ghost use Rattle.account_writer.specs.Puts.{account_members, alone, grant_members, is_writable, number};
ghost use Rattle.account_writer.specs.Tables.{grant_data};
ghost use Rattle.account_writer.specs.Puts.{put_accounts, put_counts, put_member, put_texts, with_current};

use crate::values::{
    algo_value, label_value, name_value, password_value, put, seed_value, width_value,
};
use otp_ledger::Current;
use policy_model::{Account, Grant, SetupParts};
use std::alloc::{AllocError, Global};
use toml::{Table, Value};

/// The table of a grant.
fn grant_table(alloc: Global, grant: &Grant) -> Result<Table, AllocError>
    ensures { IfOk result (λ table. table_view table ≡ grant_members grant.now) }
{
    let mut table = Table::new(alloc);
    put(alloc, &mut table, "name", label_value(alloc, &grant.name)?)?;
    put(alloc, &mut table, "mode", Value::from(grant.mode))?;
    Ok(table)
}

/// The tables of grants.
fn grant_values(alloc: Global, grants: &[Grant]) -> Result<Vec<Value>, AllocError>
    ensures { IfOk result (λ values. map view values.items ≡ map grant_data grants.now) }
{
    let mut values = Vec::with_capacity(alloc, grants.len())?;
    for grant in grants {
        let table = grant_table(alloc, grant)?;
        values.push(Value::from(table))?;
    }
    Ok(values)
}

/// The table of an account, with the sequence and the password that its chain has come to.
pub(crate) fn account_table(
    alloc: Global,
    account: &Account,
    current: Current,
) -> Result<Table, AllocError>
    requires { current.sequence ≤ 9999 }
    ensures table { IfOk result (λ table. table_view table ≡ account_members (with_current account.now current)) }
    ensures writable { is_writable (with_current account.now current) ≡ true }
{
    let mut table = Table::new(alloc);
    put_account(alloc, &mut table, account, current)?;
    Ok(table)
}

/// Puts an account into a table with nothing in it. That the table stays with the caller is what keeps
/// the proof short.
fn put_account(
    alloc: Global,
    table: &mut Table,
    account: &Account,
    current: Current,
) -> Result<(), AllocError>
    requires { table_view table.now ≡ no_members }
    ensures { OnOk result (table_view table.new ≡ account_members (with_current account.now current)) }
{
    put(alloc, table, "name", name_value(alloc, &account.name)?)?;
    put(alloc, table, "uid", Value::from(account.uid))?;
    put(alloc, table, "algorithm", algo_value(alloc, account.algo)?)?;
    put(alloc, table, "seed", seed_value(alloc, &account.seed)?)?;
    let sequence = u32::from(current.sequence);
    put(alloc, table, "sequence", Value::from(sequence))?;
    let password = password_value(alloc, current.password)?;
    put(alloc, table, "password", password)?;
    put(alloc, table, "enabled", Value::from(account.enabled))?;
    let grants = grant_values(alloc, account.grants.as_slice())?;
    put(alloc, table, "grants", Value::from(grants))
}

/// Puts the tables of accounts. Without accounts it leaves the key out, so that a table may be appended.
pub(crate) fn put_accounts(
    alloc: Global,
    table: &mut Table,
    accounts: Vec<Value>,
) -> Result<(), AllocError>
    ensures { OnOk result (table_view table.new ≡ put_accounts (map view accounts.items) (table_view table.old)) }
{
    if accounts.is_empty() {
        return Ok(());
    }
    put(alloc, table, "account", Value::from(accounts))
}

/// The table that has one account alone.
pub(crate) fn alone_table(alloc: Global, account: &Account) -> Result<Table, AllocError>
    requires { is_account account.now ≡ true }
    ensures table { IfOk result (λ table. table_view table ≡ alone account.now) }
    ensures writable { IfOk result (λ _. is_writable account.now ≡ true) }
{
    let current = Current {
        sequence: account.sequence,
        password: account.password,
    };
    let mut tables = Vec::with_capacity(alloc, 1)?;
    tables.push(Value::from(account_table(alloc, account, current)?))?;
    let mut table = Table::new(alloc);
    put(alloc, &mut table, "account", Value::from(tables))?;
    Ok(table)
}

/// Puts the texts of a setup, and what is written as one.
pub(crate) fn put_texts(
    alloc: Global,
    table: &mut Table,
    parts: &SetupParts,
) -> Result<(), AllocError>
    ensures { OnOk result (table_view table.new ≡ put_texts parts.now (table_view table.old)) }
{
    put_text(alloc, table, "socket", parts.socket.as_str())?;
    put_text(alloc, table, "launcher", parts.launcher.as_str())?;
    put_text(alloc, table, "vault", parts.vault.as_str())?;
    put_text(alloc, table, "words", parts.words.as_str())?;
    put_text(alloc, table, "banner", parts.banner.as_str())?;
    put(alloc, table, "salt", seed_value(alloc, &parts.salt)?)?;
    put(alloc, table, "frames", width_value(alloc, parts.frames)?)
}

/// Puts a text at a key.
fn put_text(alloc: Global, table: &mut Table, key: &str, text: &str) -> Result<(), AllocError>
    ensures { OnOk result (table_view table.new ≡ put_member key.now (string text.now) (table_view table.old)) }
{
    let value = Value::string(alloc, text)?;
    put(alloc, table, key, value)
}

/// Puts the numbers of a setup.
pub(crate) fn put_counts(
    alloc: Global,
    table: &mut Table,
    parts: &SetupParts,
) -> Result<(), AllocError>
    ensures { OnOk result (table_view table.new ≡ put_counts parts.now (table_view table.old)) }
{
    put(alloc, table, "workers", Value::from(parts.workers))?;
    put(alloc, table, "connections", Value::from(parts.connections))?;
    put(alloc, table, "requests", Value::from(parts.requests))?;
    put(alloc, table, "tries", Value::from(parts.tries))?;
    put(alloc, table, "hold", Value::from(parts.hold))?;
    let info = number_values(alloc, parts.info.as_slice())?;
    put(alloc, table, "info", Value::from(info))
}

/// Numbers as values.
fn number_values(alloc: Global, numbers: &[u32]) -> Result<Vec<Value>, AllocError>
    ensures { IfOk result (λ values. map view values.items ≡ map number numbers.now) }
{
    let mut values = Vec::with_capacity(alloc, numbers.len())?;
    for number in numbers {
        values.push(Value::from(*number))?;
    }
    Ok(values)
}
