//! The texts, the counts and the other single values of a setup file.

ghost use Rattle.std.specs.Prelude.{◌≡◌, ◌≤◌, ◌+◌, ◌*◌, [], Some, Ok, IfOk, true, codes, nat_le};
ghost use Rattle.std.specs.Bool.{then_some};
ghost use Rattle.otp_hash.specs.SeedBytes.{seed_bytes};
ghost use Rattle.request_catalogue.specs.Texts.{is_text};
ghost use Rattle.toml.specs.Data.{string};
ghost use Rattle.toml.specs.View.{table_view};
ghost use Rattle.account_file.specs.declared.fault.SetupKey.TheVariants.{Banner, Frames, Requests, Salt};
ghost use Rattle.account_file.specs.declared.fault.SetupRule.TheVariants.{Product};
ghost use Rattle.account_file.specs.Texts.{are_legal, text_entries};
ghost use Rattle.account_file.specs.Faults.{demand_at, Reads};
ghost use Rattle.account_file.specs.Keys.{member_or, passed, read_spelled, seed_spelled, width_named};
ghost use Rattle.account_file.specs.Setups.{read_texts, read_counts};

use crate::fault::{SetupFault, SetupKey, SetupRule, Spot};
use crate::keys::{entry, read_number, read_seed, read_text, read_width};
use otp_hash::Seed;
use policy_model::{EVENTS_LIMIT, plain_salt};
use request_catalogue::Width;
use toml::Table;

/// The texts of a setup.
#[derive(Clone, Copy)]
pub struct Texts<'a> {
    pub socket: &'a str,
    pub launcher: &'a str,
    pub vault: &'a str,
    pub words: &'a str,
    pub banner: &'a str,
}

/// The counts of a setup, and its hold.
#[derive(Clone, Copy, PartialEq, Eq)]
pub struct Counts {
    pub workers: u32,
    pub connections: u32,
    pub requests: u32,
    pub tries: u32,
    pub hold: u32,
}

/// The texts at their keys.
pub fn read_texts(table: &Table) -> Result<Texts<'_>, SetupFault>
    ensures read { Reads text_entries result (read_texts (table_view table.now)) }
    ensures legal { IfOk result (λ t. are_legal t ≡ true) }
{
    let socket = read_text(table, "socket", top(SetupKey::Socket), 1, 100)?;
    let launcher = read_text(table, "launcher", top(SetupKey::Launcher), 1, 255)?;
    let vault = read_text(table, "vault", top(SetupKey::Vault), 1, 255)?;
    let words = read_text(table, "words", top(SetupKey::Words), 1, 255)?;
    let banner = read_banner(table)?;
    Ok(Texts {
        socket,
        launcher,
        vault,
        words,
        banner,
    })
}

/// The banner, empty where the key isn't there.
fn read_banner(table: &Table) -> Result<&str, SetupFault>
    ensures read { Reads (λ s. s.now) result (read_spelled 0 Banner (passed (is_text 0 200))
        (member_or (string []) (codes "banner") (table_view table.now))) }
    ensures legal { IfOk result (λ s. is_text 0 200 s.now ≡ true) }
{
    match entry(table, "banner") {
        None => Ok(""),
        Some(_) => read_text(table, "banner", top(SetupKey::Banner), 0, 200),
    }
}

/// What decoys are made of, `decoy` where the key isn't there.
pub fn read_salt(table: &Table) -> Result<Seed, SetupFault>
    ensures { Reads seed_bytes result (read_spelled 0 Salt seed_spelled
        (member_or (string (codes "decoy")) (codes "salt") (table_view table.now))) }
{
    match entry(table, "salt") {
        None => Ok(plain_salt()),
        Some(_) => read_seed(table, "salt", top(SetupKey::Salt)),
    }
}

/// How long frames may be, narrow where the key isn't there.
pub fn read_frames(table: &Table) -> Result<Width, SetupFault>
    ensures { Reads (λ w. w) result (read_spelled 0 Frames width_named
        (member_or (string (codes "narrow")) (codes "frames") (table_view table.now))) }
{
    match entry(table, "frames") {
        None => Ok(Width::Narrow),
        Some(_) => read_width(table, "frames", top(SetupKey::Frames)),
    }
}

/// The counts at their keys.
pub fn read_counts(table: &Table) -> Result<Counts, SetupFault>
    ensures read { Reads (λ c. c) result (read_counts (table_view table.now)) }
    ensures workers { IfOk result (λ c. (1 ≤ c.workers) × (c.workers ≤ 64)) }
    ensures connections { IfOk result (λ c. (1 ≤ c.connections) × (c.connections ≤ 4096)) }
    ensures requests { IfOk result (λ c. (8 ≤ c.requests) × (c.requests ≤ 4096)) }
    ensures tries { IfOk result (λ c. (1 ≤ c.tries) × (c.tries ≤ 10)) }
    ensures hold { IfOk result (λ c. (1 ≤ c.hold) × (c.hold ≤ 3600000)) }
{
    Ok(Counts {
        workers: read_number(table, "workers", top(SetupKey::Workers), 1, 64)?,
        connections: read_number(table, "connections", top(SetupKey::Connections), 1, 4_096)?,
        requests: read_number(table, "requests", top(SetupKey::Requests), 8, 4_096)?,
        tries: read_number(table, "tries", top(SetupKey::Tries), 1, 10)?,
        hold: read_number(table, "hold", top(SetupKey::Hold), 1, 3_600_000)?,
    })
}

/// The counts again, where a run makes at most `EVENTS_LIMIT` events by them.
pub fn check_product(counts: Counts) -> Result<Counts, SetupFault>
    requires workers { counts.workers ≤ 64 }
    requires connections { counts.connections ≤ 4096 }
    requires requests { counts.requests ≤ 4096 }
    ensures read { Reads (λ c. c) result
        (demand_at 0 Requests Product
        (then_some (nat_le (counts.workers * (counts.connections * (counts.requests + 3))) EVENTS_LIMIT) counts)) }
    ensures same { IfOk result (λ c. c ≡ counts) }
    ensures few { IfOk result (λ c. c.workers * (c.connections * (c.requests + 3)) ≤ EVENTS_LIMIT) }
{
    let quota = u64::from(counts.connections) * (u64::from(counts.requests) + 3);
    if u64::from(counts.workers) * quota > u64::from(EVENTS_LIMIT) {
        return Err(top(SetupKey::Requests).breaks(SetupRule::Product));
    }
    Ok(counts)
}

/// A key outside the accounts.
fn top(key: SetupKey) -> Spot
    ensures { result ≡ record { key = key; account = 0 } }
{
    Spot::new(key, 0)
}
