//! Single keys of a table.

ghost use Rattle.std.specs.Prelude.{◌≡◌, ℕ, ◌≤◌, ◌^◌, ◌<◌, Ok, IfOk, IfSome, option_map, map, length, true};
ghost use Rattle.otp_hash.specs.Names.{algo_named};
ghost use Rattle.otp_hash.specs.SeedBytes.{seed_bytes};
ghost use Rattle.request_catalogue.specs.Texts.{is_text};
ghost use Rattle.policy_model.specs.Settings.{is_number};
ghost use Rattle.toml.specs.Data.{as_bool, as_str, boolean, get_member};
ghost use Rattle.toml.specs.View.{view, table_view};
ghost use Rattle.account_file.specs.Faults.{Reads};
ghost use Rattle.account_file.specs.Keys.{member_or, number_in, passed, read_as, read_number, read_spelled};
ghost use Rattle.account_file.specs.Keys.{password_spelled, seed_spelled, width_named};
ghost use Rattle.account_file.specs.Spots.{read_items};

use crate::fault::{SetupFault, SetupRule, Spot};
use hex::FromHex;
use otp_hash::{Algo, Seed, algo_named};
use policy_model::is_text;
use request_catalogue::Width;
use toml::{Table, Value};

/// The value at a key.
pub fn entry<'a>(table: &'a Table, key: &str) -> Option<&'a Value>
    ensures { option_map (λ v. view v.now) result ≡ get_member key.now (table_view table.now) }
{
    table.get(key)
}

/// The string at a key that must be there.
pub fn read_string<'a>(table: &'a Table, key: &str, spot: Spot) -> Result<&'a str, SetupFault>
    ensures { Reads (λ s. s.now) result (read_as spot.account spot.key as_str
        (get_member key.now (table_view table.now))) }
{
    let Some(value) = entry(table, key) else {
        return Err(spot.breaks(SetupRule::Missing));
    };
    match value.as_str() {
        Some(text) => Ok(text),
        None => Err(spot.breaks(SetupRule::Kind)),
    }
}

/// The text at a key: of low to high bytes, each printable ASCII.
pub fn read_text<'a>(
    table: &'a Table,
    key: &str,
    spot: Spot,
    low: usize,
    high: usize,
) -> Result<&'a str, SetupFault>
    ensures read { Reads (λ s. s.now) result (read_spelled spot.account spot.key (passed (is_text low high))
        (get_member key.now (table_view table.now))) }
    ensures legal { IfOk result (λ s. is_text low high s.now ≡ true) }
{
    let text = read_string(table, key, spot)?;
    if is_text(low, high, text) {
        Ok(text)
    } else {
        Err(spot.breaks(SetupRule::Text))
    }
}

/// The number at a key, from low to high.
pub fn read_number(
    table: &Table,
    key: &str,
    spot: Spot,
    low: u32,
    high: u32,
) -> Result<u32, SetupFault>
    ensures read { Reads (λ n. n) result (read_number spot.account spot.key low high
        (get_member key.now (table_view table.now))) }
    ensures within { IfOk result (λ n. (low ≤ n) × (n ≤ high)) }
{
    let Some(value) = entry(table, key) else {
        return Err(spot.breaks(SetupRule::Missing));
    };
    let Some(number) = value.as_integer() else {
        return Err(spot.breaks(SetupRule::Kind));
    };
    number_in(low, high, number).ok_or(spot.breaks(SetupRule::Range))
}

/// The algorithm at a key: `md5` or `sha1`.
pub fn read_algo(table: &Table, key: &str, spot: Spot) -> Result<Algo, SetupFault>
    ensures { Reads (λ a. a) result (read_spelled spot.account spot.key algo_named
        (get_member key.now (table_view table.now))) }
{
    let text = read_string(table, key, spot)?;
    algo_named(text.as_bytes()).ok_or(spot.breaks(SetupRule::Text))
}

/// The width of frames at a key: `narrow` or `wide`.
pub fn read_width(table: &Table, key: &str, spot: Spot) -> Result<Width, SetupFault>
    ensures { Reads (λ w. w) result (read_spelled spot.account spot.key width_named
        (get_member key.now (table_view table.now))) }
{
    let text = read_string(table, key, spot)?;
    width_named(text.as_bytes()).ok_or(spot.breaks(SetupRule::Text))
}

/// The seed at a key: 1 to 16 ASCII letters and digits, turned into lower case.
pub fn read_seed(table: &Table, key: &str, spot: Spot) -> Result<Seed, SetupFault>
    ensures { Reads seed_bytes result (read_spelled spot.account spot.key seed_spelled
        (get_member key.now (table_view table.now))) }
{
    let text = read_string(table, key, spot)?;
    Seed::of(text.as_bytes()).ok_or(spot.breaks(SetupRule::Text))
}

/// The password at a key: 16 hexadecimal digits, the most significant first.
pub fn read_password(table: &Table, key: &str, spot: Spot) -> Result<u64, SetupFault>
    ensures { Reads (λ n. n) result (read_spelled spot.account spot.key password_spelled
        (get_member key.now (table_view table.now))) }
{
    let text = read_string(table, key, spot)?;
    match <[u8; 8] as FromHex>::from_hex(text) {
        Ok(bytes) => Ok(u64::from_be_bytes(bytes)),
        Err(_) => Err(spot.breaks(SetupRule::Text)),
    }
}

/// The truth value at a key, true where it is not there.
pub fn read_truth(table: &Table, key: &str, spot: Spot) -> Result<bool, SetupFault>
    ensures { Reads (λ b. b) result (read_as spot.account spot.key as_bool
        (member_or (boolean true) key.now (table_view table.now))) }
{
    match entry(table, key) {
        None => Ok(true),
        Some(value) => value.as_bool().ok_or(spot.breaks(SetupRule::Kind)),
    }
}

/// The items of an array of at most so many.
pub fn read_items(value: &Value, spot: Spot, most: usize) -> Result<&[Value], SetupFault>
    ensures read { Reads (λ vs. map view vs.now) result (read_items spot most (view value.now)) }
    ensures few { IfOk result (λ vs. length vs.now ≤ most) }
{
    let Some(items) = value.as_array() else {
        return Err(spot.breaks(SetupRule::Kind));
    };
    if items.len() > most {
        return Err(spot.breaks(SetupRule::Range));
    }
    Ok(items.as_slice())
}

/// A number of low to high.
pub fn number_in(low: u32, high: u32, number: i64) -> Option<u32>
    ensures value { result ≡ number_in low high number }
    ensures within { IfSome result (λ n. (low ≤ n) × (n ≤ high)) }
{
    let number = u32::try_from(number).ok()?;
    (low <= number && number <= high).then_some(number)
}

/// The width of a name.
fn width_named(name: &[u8]) -> Option<Width>
    ensures { result ≡ width_named name.now }
{
    if name == b"narrow".as_slice() {
        Some(Width::Narrow)
    } else if name == b"wide".as_slice() {
        Some(Width::Wide)
    } else {
        None
    }
}
