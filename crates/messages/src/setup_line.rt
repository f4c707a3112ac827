//! Where in a setup's text a fault lies.

use account_file::{SetupFault, SetupKey, SetupRule};
use std::alloc::{AllocError, Global};

/// The keys of a setup outside its accounts.
const FILE_KEYS: [SetupKey; 14] = [
    SetupKey::Socket,
    SetupKey::Launcher,
    SetupKey::Vault,
    SetupKey::Words,
    SetupKey::Banner,
    SetupKey::Salt,
    SetupKey::Frames,
    SetupKey::Workers,
    SetupKey::Connections,
    SetupKey::Requests,
    SetupKey::Tries,
    SetupKey::Hold,
    SetupKey::Info,
    SetupKey::Account,
];

/// The keys of an account.
const ACCOUNT_KEYS: [SetupKey; 8] = [
    SetupKey::Name,
    SetupKey::Uid,
    SetupKey::Algorithm,
    SetupKey::Seed,
    SetupKey::Sequence,
    SetupKey::Password,
    SetupKey::Enabled,
    SetupKey::Grants,
];

/// How a table of an account begins.
const ACCOUNT: &str = "[[account]]";

/// How many letters a misspelled key may differ from the one that was meant.
const NEAR: usize = 3;

/// A line of a setup.
#[derive(Clone, Copy)]
pub(crate) struct SetupLine<'a> {
    /// Counted from 1.
    pub(crate) number: u32,
    /// The key that stands there.
    pub(crate) key: &'a str,
}

/// The line of a fault. `None` where it can't be told: the text is read line by line, and not as TOML.
pub(crate) fn line_of<'a>(text: &'a str, fault: &SetupFault) -> Option<SetupLine<'a>> {
    let mut account = 0u32;
    let mut number = 0u32;
    for line in text.lines() {
        number = number.saturating_add(1);
        if line.starts_with(ACCOUNT) {
            account = account.saturating_add(1);
        }
        let key = key_of(line);
        if account == fault.account && is_of(key, fault) {
            return Some(SetupLine { number, key });
        }
    }
    None
}

/// The key of a line: what stands before its first `=`, or nothing.
fn key_of(line: &str) -> &str {
    match line.split_once("=") {
        Some((key, _)) => key.trim(),
        None => "",
    }
}

/// Whether a key is the one of a fault.
fn is_of(key: &str, fault: &SetupFault) -> bool {
    match fault.rule {
        SetupRule::Missing => false,
        SetupRule::Unknown => {
            !key.is_empty() && !key.starts_with("#") && !is_known(key, keys_at(fault.account))
        }
        _ => key == written_as(fault.key),
    }
}

/// The key under which a fault's value stands.
fn written_as(key: SetupKey) -> &'static str {
    match key {
        SetupKey::GrantName | SetupKey::GrantMode => "grants",
        _ => key.word(),
    }
}

/// The keys of an account, or those outside of accounts.
fn keys_at(account: u32) -> &'static [SetupKey] {
    match account {
        0 => &FILE_KEYS,
        _ => &ACCOUNT_KEYS,
    }
}

/// Whether a key is one of these.
fn is_known(key: &str, keys: &[SetupKey]) -> bool {
    for known in keys {
        if known.word() == key {
            return true;
        }
    }
    false
}

/// The key that was probably meant by a misspelled one.
pub(crate) fn nearest_key(
    alloc: Global,
    key: &str,
    account: u32,
) -> Result<Option<&'static str>, AllocError> {
    let mut nearest = None;
    let mut least = NEAR;
    for known in keys_at(account) {
        let word = known.word();
        let distance = strsim::levenshtein(alloc, key, word)?;
        if distance < least {
            least = distance;
            nearest = Some(word);
        }
    }
    Ok(nearest)
}
