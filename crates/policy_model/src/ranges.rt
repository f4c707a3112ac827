//! Whether the parts of a setup are in their ranges.

ghost use Rattle.std.specs.Prelude.{◌≡◌, ◌≤◌, ◌<◌, ◌==◌, IfSome, length, nat_le, position};
ghost use Rattle.std.specs.List.{list_all, list_any};
ghost use Rattle.request_catalogue.specs.Texts.{is_text};
ghost use Rattle.policy_model.specs.Settings.{are_accounts, are_counts, are_distinct, are_grants, are_numbers};
ghost use Rattle.policy_model.specs.Settings.{are_texts, events_max, is_account, is_number, passes, same_label};
ghost use Rattle.policy_model.specs.Settings.{same_name};

use crate::account::{Account, Grant};
use crate::parts::SetupParts;
use request_catalogue::{Label, Name, are_printable};

/// The most events of a run.
pub const EVENTS_LIMIT: u32 = 1_048_576;

/// Whether two names are the same.
pub(crate) fn same_name(a: &Name, b: &Name) -> bool
    ensures { result ≡ same_name a.now b.now }
{
    a == b
}

/// Whether two labels are the same.
pub(crate) fn same_label(a: &Label, b: &Label) -> bool
    ensures { result ≡ same_label a.now b.now }
{
    a == b
}

/// Whether a text has low to high printable bytes.
pub fn is_text(low: usize, high: usize, text: &str) -> bool
    ensures { result ≡ is_text low high text.now }
{
    let bytes = text.as_bytes();
    low <= bytes.len() && bytes.len() <= high && are_printable(bytes)
}

/// Whether the texts are in their ranges.
fn are_texts(parts: &SetupParts) -> bool
    ensures { result ≡ are_texts parts.now }
{
    is_text(1, 100, parts.socket.as_str())
        && is_text(1, 255, parts.launcher.as_str())
        && is_text(1, 255, parts.vault.as_str())
        && is_text(1, 255, parts.words.as_str())
        && is_text(0, 200, parts.banner.as_str())
}

/// Whether a number stands in a list.
fn has_number(numbers: &[u32], n: u32) -> bool
    ensures { result ≡ list_any (λ m. n == m) numbers.now }
{
    numbers.iter().any(|m| n == *m)
}

/// Whether the numbers are different.
pub fn are_distinct_numbers(numbers: &[u32]) -> bool
    ensures { result ≡ are_distinct ◌==◌ numbers.now }
{
    match numbers {
        [] => true,
        [first, rest @ ..] => !has_number(rest, *first) && are_distinct_numbers(rest),
    }
}

/// Whether some grant has this name.
fn has_label(grants: &[Grant], name: &Label) -> bool
    ensures { result ≡ list_any (λ g. same_label name.now g.name) grants.now }
{
    grants.iter().any(|g| same_label(name, &g.name))
}

/// Whether the names of the grants are different.
fn are_distinct_grants(grants: &[Grant]) -> bool
    ensures { result ≡ are_distinct (λ a b. same_label a.name b.name) grants.now }
{
    match grants {
        [] => true,
        [first, rest @ ..] => !has_label(rest, &first.name) && are_distinct_grants(rest),
    }
}

/// Whether some account has this name.
fn has_name(accounts: &[Account], name: &Name) -> bool
    ensures { result ≡ list_any (λ a. same_name name.now a.name) accounts.now }
{
    accounts.iter().any(|a| same_name(name, &a.name))
}

/// Whether the names of the accounts are different.
fn are_distinct_names(accounts: &[Account]) -> bool
    ensures { result ≡ are_distinct (λ a b. same_name a.name b.name) accounts.now }
{
    match accounts {
        [] => true,
        [first, rest @ ..] => !has_name(rest, &first.name) && are_distinct_names(rest),
    }
}

/// Whether some account has this user number.
fn has_uid(accounts: &[Account], uid: u32) -> bool
    ensures { result ≡ list_any (λ a. uid == a.uid) accounts.now }
{
    accounts.iter().any(|a| uid == a.uid)
}

/// Whether the user numbers of the accounts are different.
fn are_distinct_uids(accounts: &[Account]) -> bool
    ensures { result ≡ are_distinct (λ a b. a.uid == b.uid) accounts.now }
{
    match accounts {
        [] => true,
        [first, rest @ ..] => !has_uid(rest, first.uid) && are_distinct_uids(rest),
    }
}

/// Whether all numbers are 1 to 1,000.
fn are_small(numbers: &[u32]) -> bool
    ensures { result ≡ list_all (is_number 1 1000) numbers.now }
{
    numbers.iter().all(|n| is_number(1, 1000, *n))
}

/// Whether these are numbers of information.
fn are_numbers(info: &[u32]) -> bool
    ensures { result ≡ are_numbers info.now }
{
    info.len() <= 32 && are_small(info) && are_distinct_numbers(info)
}

/// Whether all modes are 1 to 3.
fn have_modes(grants: &[Grant]) -> bool
    ensures { result ≡ list_all (λ g. is_number 1 3 g.mode) grants.now }
{
    grants.iter().all(|g| is_number(1, 3, u32::from(g.mode)))
}

/// Whether these are the grants of an account.
fn are_grants(grants: &[Grant]) -> bool
    ensures { result ≡ are_grants grants.now }
{
    grants.len() <= 64 && have_modes(grants) && are_distinct_grants(grants)
}

/// Whether the account is in its ranges.
fn is_account(account: &Account) -> bool
    ensures { result ≡ is_account account.now }
{
    is_number(1, 4_294_967_294, account.uid)
        && account.sequence <= 9999
        && are_grants(account.grants.as_slice())
}

/// Whether each account is in its ranges.
fn are_each_accounts(accounts: &[Account]) -> bool
    ensures { result ≡ list_all is_account accounts.now }
{
    accounts.iter().all(is_account)
}

/// Whether these are the accounts of a setup.
fn are_accounts(accounts: &[Account]) -> bool
    ensures { result ≡ are_accounts accounts.now }
{
    accounts.len() <= 1024
        && are_each_accounts(accounts)
        && are_distinct_names(accounts)
        && are_distinct_uids(accounts)
}

/// Whether a number is low to high.
fn is_number(low: u32, high: u32, n: u32) -> bool
    ensures { result ≡ is_number low high n }
{
    low <= n && n <= high
}

/// Whether the counts and the hold are in their ranges.
fn are_counts(parts: &SetupParts) -> bool
    ensures { result ≡ are_counts parts.now }
{
    is_number(1, 64, parts.workers)
        && is_number(1, 4096, parts.connections)
        && is_number(8, 4096, parts.requests)
        && is_number(1, 10, parts.tries)
        && is_number(1, 3_600_000, parts.hold)
}

/// Whether a run makes at most `EVENTS_LIMIT` events.
fn are_few_events(parts: &SetupParts) -> bool
    requires workers { parts.now.workers ≤ 64 }
    requires connections { parts.now.connections ≤ 4096 }
    requires requests { parts.now.requests ≤ 4096 }
    ensures { result ≡ nat_le (events_max parts.now) EVENTS_LIMIT }
{
    let quota = parts.connections as u64 * (parts.requests as u64 + 3);
    parts.workers as u64 * quota <= EVENTS_LIMIT as u64
}

/// Whether the parts are in their ranges, their names and user numbers are different, and a run
/// makes at most 1,048,576 events.
pub(crate) fn passes(parts: &SetupParts) -> bool
    ensures { result ≡ passes parts.now }
{
    are_texts(parts)
        && are_counts(parts)
        && are_numbers(parts.info.as_slice())
        && are_few_events(parts)
        && are_accounts(parts.accounts.as_slice())
}

/// The place of the account of this name.
pub(crate) fn position_of(accounts: &[Account], user: &Name) -> Option<usize>
    ensures place { result ≡ position (λ a. same_name a.name user.now) accounts.now }
    ensures within { IfSome result (λ k. k < length accounts.now) }
{
    accounts.iter().position(|a| same_name(&a.name, user))
}
