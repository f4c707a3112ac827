//! The numbers of information of a setup file.

ghost use Rattle.std.specs.Prelude.{◌≡◌, ◌≤◌, IfOk, true, map, codes, length, option_map};
ghost use Rattle.std.specs.List.{list_all};
ghost use Rattle.std.specs.Option.{is_some, option_and_then};
ghost use Rattle.policy_model.specs.Settings.{are_numbers};
ghost use Rattle.toml.specs.Data.{array, as_integer, no_items};
ghost use Rattle.toml.specs.View.{view, table_view};
ghost use Rattle.account_file.specs.Faults.{Answers};
ghost use Rattle.account_file.specs.declared.fault.SetupKey.TheVariants.{Info};
ghost use Rattle.account_file.specs.declared.fault.SetupError.TheVariants.{Refused};
ghost use Rattle.account_file.specs.Keys.{member_or, number_in};
ghost use Rattle.account_file.specs.Numbers.{all_some, info_items};
ghost use Rattle.account_file.specs.Setups.{read_info};

use crate::fault::{SetupError, SetupKey, SetupRule, Spot};
use crate::keys::{entry, number_in};
use policy_model::{Numbers, are_distinct_numbers};
use std::alloc::{AllocError, Global};
use toml::{Table, Value};

/// The most numbers of information.
const INFO_MAX: usize = 32;

/// The numbers of information, none where the key isn't there.
pub fn read_info(alloc: Global, table: &Table) -> Result<Numbers, SetupError>
    ensures read { Answers (λ n. n) result (read_info
        (member_or (array no_items) (codes "info") (table_view table.now))) }
    ensures in_range { IfOk result (λ n. are_numbers n ≡ true) }
{
    let Some(value) = entry(table, "info") else {
        return Ok(Numbers::of(Vec::new(alloc)));
    };
    let Some(items) = value.as_array() else {
        return Err(broken(SetupRule::Kind));
    };
    info_items(alloc, items.as_slice())
}

/// The numbers that the items of an array are: at most 32 different ones from 1 to 1,000.
fn info_items(alloc: Global, items: &[Value]) -> Result<Numbers, SetupError>
    ensures read { Answers (λ n. n) result (info_items (map view items.now)) }
    ensures in_range { IfOk result (λ n. are_numbers n ≡ true) }
{
    if !are_integers(items) {
        return Err(broken(SetupRule::Kind));
    }
    if items.len() > INFO_MAX {
        return Err(broken(SetupRule::Range));
    }
    let Some(info) = small_numbers(alloc, items)? else {
        return Err(broken(SetupRule::Range));
    };
    if !are_distinct_numbers(info.as_slice()) {
        return Err(broken(SetupRule::Twice));
    }
    Ok(Numbers::of(info))
}

/// The refusal by a rule that the numbers of information break.
fn broken(rule: SetupRule) -> SetupError
    ensures { result ≡ Refused (record { key = Info; rule = rule; account = 0 }) }
{
    SetupError::Refused(Spot::new(SetupKey::Info, 0).breaks(rule))
}

/// Whether all items are whole numbers.
fn are_integers(items: &[Value]) -> bool
    ensures { result ≡ list_all (λ d. is_some (as_integer d)) (map view items.now) }
{
    for item in items {
        if !item.is_integer() {
            return false;
        }
    }
    true
}

/// The numbers that the items are, if all are 1 to 1,000.
fn small_numbers(alloc: Global, items: &[Value]) -> Result<Option<Vec<u32>>, AllocError>
    ensures { IfOk result (λ o. option_map (λ v. v.items) o
        ≡ all_some (λ d. option_and_then (number_in 1 1000) (as_integer d)) (map view items.now)) }
{
    let mut small = Vec::new(alloc);
    for item in items {
        match small_number(item) {
            Some(number) => small.push(number)?,
            None => return Ok(None),
        }
    }
    Ok(Some(small))
}

/// The number that an item is, if it is 1 to 1,000.
fn small_number(item: &Value) -> Option<u32>
    ensures { result ≡ option_and_then (number_in 1 1000) (as_integer (view item.now)) }
{
    number_in(1, 1_000, item.as_integer()?)
}
