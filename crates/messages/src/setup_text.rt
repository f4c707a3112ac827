//! What is said of a setup that is refused: where its fault lies, and what is demanded there.

use crate::setup_fault::{demand_of, is_demand, twice_text};
use crate::setup_line::{SetupLine, line_of, nearest_key};
use account_file::{SetupFault, SetupKey, SetupRule};
use std::alloc::{AllocError, Global};
use std::fs;
use std::rt::Files;

/// How many bytes of a setup are looked through.
const TEXT_MAX: u64 = 8_388_608;

/// The line that says what is wrong with the setup of a file.
pub(crate) fn setup_text<R: Files + AllocGlobal>(
    rt: &R,
    alloc: Global,
    path: &str,
    fault: &SetupFault,
) -> Result<String, AllocError> {
    let text = text_of(rt, path);
    match &text {
        Some(text) => fault_text(alloc, path, text.as_str(), fault),
        None => fault_text(alloc, path, "", fault),
    }
}

/// The text of a setup's file, if it is a file still: a pipe can't be read a second time.
fn text_of<R: Files + AllocGlobal>(rt: &R, path: &str) -> Option<String> {
    let found = fs::metadata(rt, path).ok()?;
    match found.is_file() && found.len() <= TEXT_MAX {
        true => fs::read_to_string(rt, path).ok(),
        false => None,
    }
}

/// What is wrong with a setup that has this text.
fn fault_text(
    alloc: Global,
    path: &str,
    text: &str,
    fault: &SetupFault,
) -> Result<String, AllocError> {
    match fault.rule {
        SetupRule::NotToml => not_toml(alloc, path, text),
        _ => {
            let line = line_of(text, fault);
            let place = place_text(alloc, path, line, fault.account)?;
            let what = what_text(alloc, line, fault)?;
            format!(in alloc; "otplogd: {place}: {what}\n")
        }
    }
}

/// Where a fault lies: the file, the line if it is known, and the account.
fn place_text(
    alloc: Global,
    path: &str,
    line: Option<SetupLine<'_>>,
    account: u32,
) -> Result<String, AllocError> {
    let mut place = String::from_str(alloc, path)?;
    if let Some(line) = line {
        place.push_str(format!(in alloc; ":{}", line.number)?.as_str())?;
    }
    if account > 0 {
        place.push_str(format!(in alloc; ": account {account}")?.as_str())?;
    }
    Ok(place)
}

/// What is wrong at that place.
fn what_text(
    alloc: Global,
    line: Option<SetupLine<'_>>,
    fault: &SetupFault,
) -> Result<String, AllocError> {
    let key = spoken(fault.key);
    if is_demand(fault.rule) {
        return format!(in alloc; "{key} has to be {}", demand_of(fault.key));
    }
    match fault.rule {
        SetupRule::Unknown => unknown_text(alloc, line, fault.account),
        SetupRule::Missing => format!(in alloc; "{key} is missing"),
        SetupRule::Twice => format!(in alloc; "{key} {}", twice_text(fault.key)),
        SetupRule::Product => String::from_str(
            alloc,
            "workers * connections * (requests + 3) may be at most 1,048,576",
        ),
        SetupRule::NoHook => {
            String::from_str(
                alloc,
                "info lists a number of no information: 1 and 2 are there",
            )
        }
        _ => String::from_str(alloc, "it has more than 8,388,608 bytes"),
    }
}

/// What is said of a key that doesn't belong where it stands.
fn unknown_text(
    alloc: Global,
    line: Option<SetupLine<'_>>,
    account: u32,
) -> Result<String, AllocError> {
    let of = match account {
        0 => "a setup",
        _ => "an account",
    };
    let Some(SetupLine { key, .. }) = line else {
        return format!(in alloc; "there is a key that is none of {of}");
    };
    match nearest_key(alloc, key, account)? {
        Some(meant) => format!(in alloc; "{key} is no key of {of}: is it {meant}?"),
        None => format!(in alloc; "{key} is no key of {of}"),
    }
}

/// A key as it is called.
fn spoken(key: SetupKey) -> &'static str {
    match key {
        SetupKey::GrantName => "a grant's name",
        SetupKey::GrantMode => "a grant's mode",
        _ => key.word(),
    }
}

/// What is said of a text that is no TOML.
fn not_toml(alloc: Global, path: &str, text: &str) -> Result<String, AllocError> {
    match toml::table_from_str(alloc, text) {
        Err(error) if !error.is_memory() => match error.span() {
            Some(span) => {
                let line = line_at(text, span.start);
                format!(in alloc;
                    "otplogd: {path}:{line}: it is no TOML: {}\n",
                    error.message()
                )
            }
            None => format!(in alloc; "otplogd: {path}: it is no TOML: {}\n", error.message()),
        },
        _ => format!(in alloc; "otplogd: {path}: it is no UTF-8, or no TOML\n"),
    }
}

/// The number of the line in which a byte stands, counted from 1.
fn line_at(text: &str, place: usize) -> u32 {
    let mut number = 1u32;
    for byte in text.as_bytes().iter().take(place) {
        if *byte == b'\n' {
            number = number.saturating_add(1);
        }
    }
    number
}
