//! The accounts of a setup file.

ghost use Rattle.std.specs.Prelude.{◌≡◌, ℕ, ◌+◌, ◌≤◌, ◌<◌, List, [], true, false, IfOk, map, codes, length, ◌==◌};
ghost use Rattle.std.specs.List.{list_all, list_any};
ghost use Rattle.std.specs.Str.{bytes_eq};
ghost use Rattle.request_catalogue.specs.Texts.{is_name};
ghost use Rattle.request_catalogue.specs.TextBytes.{name_bytes};
ghost use Rattle.policy_model.specs.Settings.{is_account, are_accounts, are_distinct, same_name};
ghost use Rattle.toml.specs.Data.{array, get_member, no_items, table as table_data};
ghost use Rattle.toml.specs.View.{view, table_view};
ghost use Rattle.account_file.specs.declared.fault.SetupKey.TheVariants as setup_keys;
ghost use Rattle.account_file.specs.Accounts.{account_keys, next_account, read_account, untaken};
ghost use Rattle.account_file.specs.Entries.{account_entry};
ghost use Rattle.account_file.specs.Faults.{Reads, Answers};
ghost use Rattle.account_file.specs.Keys.{member_or, passed, read_number, read_spelled};
ghost use Rattle.account_file.specs.Trees.{are_known, read_behind, read_each};

use crate::fault::{SetupError, SetupFault, SetupKey, SetupRule, Spot};
use crate::grants::read_grants;
use crate::keys::{
    entry, read_algo, read_items, read_number, read_password, read_seed, read_string, read_truth,
};
use crate::known::{Level, are_known};
use policy_model::{Account, Accounts};
use request_catalogue::Name;
use std::alloc::Global;
use toml::{Table, Value};

/// The most accounts of a setup.
const ACCOUNTS_MAX: usize = 1_024;

/// The accounts of a setup, none where the key isn't there.
pub fn read_accounts(alloc: Global, table: &Table) -> Result<Accounts, SetupError>
    ensures read { Answers (map account_entry) result (read_each 0 setup_keys.Account 1024 next_account
        (member_or (array no_items) (codes "account") (table_view table.now))) }
    ensures in_range { IfOk result (λ a. are_accounts a ≡ true) }
{
    let Some(value) = entry(table, "account") else {
        return Ok(Accounts::of(Vec::new(alloc)));
    };
    let items = read_items(value, Spot::new(SetupKey::Account, 0), ACCOUNTS_MAX)?;
    Ok(Accounts::of(each_account(alloc, items)?))
}

/// The accounts that the items of an array spell.
fn each_account(alloc: Global, items: &[Value]) -> Result<Vec<Account>, SetupError>
    requires { length items.now ≤ 1024 }
    ensures read { Answers (λ v. map account_entry v.items) result (read_behind next_account [] (map view items.now)) }
    ensures len { IfOk result (λ v. length v.items ≡ length items.now) }
    ensures legal { IfOk result (λ v. list_all is_account v.items ≡ true) }
    ensures names { IfOk result (λ v. are_distinct (λ a b. same_name a.name b.name) v.items ≡ true) }
    ensures uids { IfOk result (λ v. are_distinct (λ a b. a.uid == b.uid) v.items ≡ true) }
{
    let mut accounts = Vec::new(alloc);
    for item in items {
        let place = accounts.len() as u32 + 1;
        let account = read_account(alloc, item, place, accounts.as_slice())?;
        accounts.push(account)?;
    }
    Ok(accounts)
}

/// The account at a place from 1, after others.
fn read_account(
    alloc: Global,
    item: &Value,
    place: u32,
    earlier: &[Account],
) -> Result<Account, SetupError>
    ensures read { Answers account_entry result (read_account place (map account_entry earlier.now) (view item.now)) }
    ensures new_name { IfOk result (λ a. list_any (λ e. same_name e.name a.name) earlier.now ≡ false) }
    ensures new_uid { IfOk result (λ a. list_any (λ e. e.uid == a.uid) earlier.now ≡ false) }
    ensures legal { IfOk result (λ a. is_account a ≡ true) }
{
    let Some(table) = item.as_table() else {
        return Err(SetupError::Refused(Spot::new(SetupKey::Account, place).breaks(
            SetupRule::Kind,
        )));
    };
    if !are_known(table, Level::Account) {
        return Err(SetupError::Refused(Spot::new(SetupKey::Other, place).breaks(
            SetupRule::Unknown,
        )));
    }
    keys_of(alloc, table, place, earlier)
}

/// The account of a table's keys.
fn keys_of(
    alloc: Global,
    table: &Table,
    place: u32,
    earlier: &[Account],
) -> Result<Account, SetupError>
    ensures read { are_known account_keys (table_view table.now) ≡ true
        → Answers account_entry result (read_account place (map account_entry earlier.now)
        (table_data (table_view table.now))) }
    ensures new_name { IfOk result (λ a. list_any (λ e. same_name e.name a.name) earlier.now ≡ false) }
    ensures new_uid { IfOk result (λ a. list_any (λ e. e.uid == a.uid) earlier.now ≡ false) }
    ensures legal { IfOk result (λ a. is_account a ≡ true) }
{
    let name = name_of(table, Spot::new(SetupKey::Name, place), earlier)?;
    let uid = read_uid(table, Spot::new(SetupKey::Uid, place), earlier)?;
    let algo = read_algo(table, "algorithm", Spot::new(SetupKey::Algorithm, place))?;
    let seed = read_seed(table, "seed", Spot::new(SetupKey::Seed, place))?;
    let sequence = read_number(
        table,
        "sequence",
        Spot::new(SetupKey::Sequence, place),
        0,
        9_999,
    )?;
    let password = read_password(table, "password", Spot::new(SetupKey::Password, place))?;
    let enabled = read_truth(table, "enabled", Spot::new(SetupKey::Enabled, place))?;
    let grants = read_grants(alloc, table, place)?;
    Ok(Account {
        name,
        uid,
        algo,
        seed,
        sequence: sequence as u16,
        password,
        enabled,
        grants,
    })
}

/// The name of an account, which none of the others has.
fn name_of(table: &Table, spot: Spot, others: &[Account]) -> Result<Name, SetupFault>
    ensures read { Reads name_bytes result
        (untaken spot.account spot.key
        (λ name. list_any (λ other. bytes_eq other.name name) (map account_entry others.now))
        (read_spelled spot.account spot.key (passed is_name) (get_member (codes "name") (table_view table.now)))) }
    ensures new { IfOk result (λ n. list_any (λ e. same_name e.name n) others.now ≡ false) }
{
    let text = read_string(table, "name", spot)?;
    let Some(name) = Name::of(text.as_bytes()) else {
        return Err(spot.breaks(SetupRule::Text));
    };
    if is_named(others, &name) {
        return Err(spot.breaks(SetupRule::Twice));
    }
    Ok(name)
}

/// The user number of an account, which none of the others has.
fn read_uid(table: &Table, spot: Spot, others: &[Account]) -> Result<u32, SetupFault>
    ensures read { Reads (λ n. n) result
        (untaken spot.account spot.key (λ uid. list_any (λ other. other.uid == uid) (map account_entry others.now))
        (read_number spot.account spot.key 1 4294967294 (get_member (codes "uid") (table_view table.now)))) }
    ensures new { IfOk result (λ n. list_any (λ e. e.uid == n) others.now ≡ false) }
    ensures within { IfOk result (λ n. (1 ≤ n) × (n ≤ 4294967294)) }
{
    let uid = read_number(table, "uid", spot, 1, 4_294_967_294)?;
    if is_numbered(others, uid) {
        return Err(spot.breaks(SetupRule::Twice));
    }
    Ok(uid)
}

/// Whether some account has this name.
fn is_named(accounts: &[Account], name: &Name) -> bool
    ensures { result ≡ list_any (λ a. same_name a.name name.now) accounts.now }
{
    accounts.iter().any(|account| account.name == *name)
}

/// Whether some account has this user number.
fn is_numbered(accounts: &[Account], uid: u32) -> bool
    ensures { result ≡ list_any (λ a. a.uid == uid) accounts.now }
{
    accounts.iter().any(|account| account.uid == uid)
}
