//! The grants of an account.

ghost use Rattle.std.specs.Prelude.{◌≡◌, ℕ, ◌≤◌, List, [], true, false, IfOk, map, codes, length};
ghost use Rattle.std.specs.List.{list_all, list_any};
ghost use Rattle.std.specs.Str.{bytes_eq};
ghost use Rattle.request_catalogue.specs.Texts.{is_label};
ghost use Rattle.request_catalogue.specs.TextBytes.{label_bytes};
ghost use Rattle.policy_model.specs.Settings.{is_number, are_grants, are_distinct, same_label};
ghost use Rattle.toml.specs.Data.{array, get_member, no_items};
ghost use Rattle.toml.specs.View.{view, table_view};
ghost use Rattle.account_file.specs.declared.fault.SetupKey.TheVariants as setup_keys;
ghost use Rattle.account_file.specs.Accounts.{untaken, read_grant};
ghost use Rattle.account_file.specs.Faults.{Reads, Answers};
ghost use Rattle.account_file.specs.Keys.{member_or, passed, read_spelled};
ghost use Rattle.account_file.specs.Texts.{grant_entry};
ghost use Rattle.account_file.specs.Trees.{read_behind, read_each};

use crate::fault::{SetupError, SetupFault, SetupKey, SetupRule, Spot};
use crate::keys::{entry, read_items, read_number, read_string};
use crate::known::{Level, are_known};
use policy_model::{Grant, Grants};
use request_catalogue::Label;
use std::alloc::Global;
use toml::{Table, Value};

/// The most grants of an account.
const GRANTS_MAX: usize = 64;

/// The grants of the account at a place from 1, none where the key isn't there.
pub fn read_grants(alloc: Global, table: &Table, account: u32) -> Result<Grants, SetupError>
    ensures read { Answers (map grant_entry) result (read_each account setup_keys.Grants 64 (read_grant account)
        (member_or (array no_items) (codes "grants") (table_view table.now))) }
    ensures in_range { IfOk result (λ g. are_grants g ≡ true) }
{
    let Some(value) = entry(table, "grants") else {
        return Ok(Grants::of(Vec::new(alloc)));
    };
    let items = read_items(value, Spot::new(SetupKey::Grants, account), GRANTS_MAX)?;
    Ok(Grants::of(each_grant(alloc, items, account)?))
}

/// The grants that the items of an array spell.
fn each_grant(alloc: Global, items: &[Value], account: u32) -> Result<Vec<Grant>, SetupError>
    ensures read { Answers (λ v. map grant_entry v.items) result (read_behind (read_grant account) []
        (map view items.now)) }
    ensures len { IfOk result (λ v. length v.items ≡ length items.now) }
    ensures modes { IfOk result (λ v. list_all (λ g. is_number 1 3 g.mode) v.items ≡ true) }
    ensures different { IfOk result (λ v. are_distinct (λ a b. same_label a.name b.name) v.items ≡ true) }
{
    let mut grants = Vec::new(alloc);
    for item in items {
        let grant = read_grant(item, account, grants.as_slice())?;
        grants.push(grant)?;
    }
    Ok(grants)
}

/// A grant after others of the account at a place from 1.
fn read_grant(item: &Value, account: u32, earlier: &[Grant]) -> Result<Grant, SetupFault>
    ensures read { Reads grant_entry result (read_grant account (map grant_entry earlier.now) (view item.now)) }
    ensures new { IfOk result (λ g. list_any (λ e. bytes_eq (label_bytes e.name) (label_bytes g.name)) earlier.now
        ≡ false) }
    ensures in_range { IfOk result (λ g. is_number 1 3 g.mode ≡ true) }
{
    let Some(table) = item.as_table() else {
        return Err(Spot::new(SetupKey::Grants, account).breaks(SetupRule::Kind));
    };
    if !are_known(table, Level::Grant) {
        return Err(Spot::new(SetupKey::Other, account).breaks(SetupRule::Unknown));
    }
    let name = label_of(table, Spot::new(SetupKey::GrantName, account), earlier)?;
    let mode = read_number(table, "mode", Spot::new(SetupKey::GrantMode, account), 1, 3)?;
    Ok(Grant {
        name,
        mode: mode as u8,
    })
}

/// The name of a grant, which none of the others has.
fn label_of(table: &Table, spot: Spot, others: &[Grant]) -> Result<Label, SetupFault>
    ensures read { Reads label_bytes result
        (untaken spot.account spot.key (λ name. list_any (λ other. bytes_eq other.0 name) (map grant_entry others.now))
        (read_spelled spot.account spot.key (passed is_label) (get_member (codes "name") (table_view table.now)))) }
    ensures new { IfOk result (λ l. list_any (λ e. bytes_eq (label_bytes e.name) (label_bytes l)) others.now ≡ false) }
{
    let text = read_string(table, "name", spot)?;
    let Some(name) = Label::of(text.as_bytes()) else {
        return Err(spot.breaks(SetupRule::Text));
    };
    if is_granted(others, &name) {
        return Err(spot.breaks(SetupRule::Twice));
    }
    Ok(name)
}

/// Whether some grant has this name.
fn is_granted(grants: &[Grant], name: &Label) -> bool
    ensures { result ≡ list_any (λ g. bytes_eq (label_bytes g.name) (label_bytes name.now)) grants.now }
{
    grants.iter().any(|grant| grant.name == *name)
}
