//! The ranges of a setup, at both ends of each.

use super::*;

/// Workers, connections, requests, tries, hold, and whether a setup may have them.
const COUNTS: &[([u32; 5], bool)] = &[
    ([1, 1, 8, 1, 1], true),
    ([0, 1, 8, 1, 1], false),
    ([1, 0, 8, 1, 1], false),
    ([1, 1, 7, 1, 1], false),
    ([1, 1, 8, 0, 1], false),
    ([1, 1, 8, 1, 0], false),
    ([64, 1, 8, 10, 3_600_000], true),
    ([65, 1, 8, 1, 1], false),
    ([1, 4_096, 8, 1, 1], true),
    ([1, 4_097, 8, 1, 1], false),
    ([1, 1, 4_096, 1, 1], true),
    ([1, 1, 4_097, 1, 1], false),
    ([1, 1, 8, 11, 1], false),
    ([1, 1, 8, 1, 3_600_001], false),
    ([64, 64, 253, 1, 1], true),
    ([64, 64, 254, 1, 1], false),
];

/// The place of a text (socket, launcher, vault, words, banner), its length, and whether a setup may have it.
const TEXTS: &[(usize, u32, bool)] = &[
    (0, 1, true),
    (0, 100, true),
    (0, 0, false),
    (0, 101, false),
    (1, 255, true),
    (1, 0, false),
    (1, 256, false),
    (2, 255, true),
    (2, 0, false),
    (2, 256, false),
    (3, 255, true),
    (3, 0, false),
    (3, 256, false),
    (4, 0, true),
    (4, 200, true),
    (4, 201, false),
];

/// The first number of information, how many follow it in order, one more after them, and whether a setup
/// may have them.
const NUMBERS: &[(u32, u32, u32, bool)] = &[
    (1, 0, 1_000, true),
    (0, 0, 5, false),
    (1, 0, 0, false),
    (1, 0, 1_001, false),
    (7, 1, 7, false),
    (1, 30, 1_000, true),
    (1, 31, 1_000, false),
];

/// How many accounts stand before the last (`a1`, `a2` and on, with the user numbers 1, 2 and on);
/// the last one's name, user number and sequence; whether a setup may have them.
const ACCOUNTS: &[(u32, &str, u32, u16, bool)] = &[
    (0, "a", 1, 0, true),
    (0, "a", 0, 0, false),
    (0, "a", 4_294_967_294, 9_999, true),
    (0, "a", 4_294_967_295, 0, false),
    (0, "a", 1, 10_000, false),
    (1, "a", 2, 0, true),
    (1, "a1", 2, 0, false),
    (1, "a", 1, 0, false),
    (2, "a1", 3, 0, false),
    (2, "a", 1, 0, false),
    (2, "a2", 3, 0, false),
    (2, "a", 2, 0, false),
    (1_023, "a", 1_024, 0, true),
    (1_024, "a", 1_025, 0, false),
];

/// How many grants stand before the last (`f1`, `f2` and on, of mode 1); the last one's name and
/// mode; whether an account may have them.
const GRANTS: &[(u32, &str, u8, bool)] = &[
    (0, "f", 0, false),
    (0, "f", 1, true),
    (0, "f", 2, true),
    (0, "f", 3, true),
    (0, "f", 4, false),
    (1, "f1", 2, false),
    (2, "f1", 1, false),
    (2, "f2", 1, false),
    (63, "f", 1, true),
    (64, "f", 1, false),
];

/// Whether a setup may have these parts.
fn may_be(parts: SetupParts) -> bool {
    Setup::of(parts).is_ok()
}

/// Whether a setup may have these counts.
fn may_count(alloc: Global, counts: [u32; 5]) -> Result<bool, Fail> {
    let none = Vec::new(alloc);
    Ok(may_be(parts(alloc, PLAIN_TEXTS, counts, none, Vec::new(alloc))?))
}

/// Whether a setup may have these texts.
fn may_say(alloc: Global, texts: [&str; 5]) -> Result<bool, Fail> {
    let none = Vec::new(alloc);
    Ok(may_be(parts(alloc, texts, PLAIN_COUNTS, none, Vec::new(alloc))?))
}

/// Whether a setup may have these numbers of information.
fn may_inform(alloc: Global, info: Vec<u32>) -> Result<bool, Fail> {
    Ok(may_be(parts(alloc, PLAIN_TEXTS, PLAIN_COUNTS, info, Vec::new(alloc))?))
}

/// Whether a setup may have these accounts.
fn may_admit(alloc: Global, accounts: Vec<Account>) -> Result<bool, Fail> {
    let none = Vec::new(alloc);
    Ok(may_be(parts(alloc, PLAIN_TEXTS, PLAIN_COUNTS, none, accounts)?))
}

#[test]
fn counts(rt: HostRuntime) -> Result<(), Fail> {
    for (counts, may) in COUNTS {
        assert!(rt;
            may_count(rt.alloc(), *counts)? == *may,
            "workers {}",
            counts[0]
        );
    }
    Ok(())
}

/// So many letters.
fn letters(alloc: Global, count: u32) -> Result<String, AllocError> {
    let mut text = String::new(alloc);
    for _ in 0..count {
        text.push_str("a")?;
    }
    Ok(text)
}

/// Whether a setup may have a text of so many letters at this place.
fn may_say_at(alloc: Global, place: usize, count: u32) -> Result<bool, Fail> {
    let text = letters(alloc, count)?;
    let mut texts = PLAIN_TEXTS;
    if place < 5 {
        texts[place] = text.as_str();
    }
    may_say(alloc, texts)
}

#[test]
fn texts(rt: HostRuntime) -> Result<(), Fail> {
    for (place, count, may) in TEXTS {
        assert!(rt;
            may_say_at(rt.alloc(), *place, *count)? == *may,
            "{count} at {place}"
        );
    }
    assert!(rt; !may_say(rt.alloc(), ["a", "a", "a", "a", "OTP\tlogin"])?);
    Ok(())
}

/// A number, so many that follow it, and one more.
fn row_of_numbers(alloc: Global, first: u32, more: u32, last: u32) -> Result<Vec<u32>, AllocError> {
    let mut numbers = Vec::new(alloc);
    numbers.push(first)?;
    for n in 0..more {
        numbers.push(first.saturating_add(n).saturating_add(1))?;
    }
    numbers.push(last)?;
    Ok(numbers)
}

/// Whether a setup may have these numbers.
fn may_have_row(alloc: Global, first: u32, more: u32, last: u32) -> Result<bool, Fail> {
    may_inform(alloc, row_of_numbers(alloc, first, more, last)?)
}

#[test]
fn numbers(rt: HostRuntime) -> Result<(), Fail> {
    for (first, more, last, may) in NUMBERS {
        assert!(rt;
            may_have_row(rt.alloc(), *first, *more, *last)? == *may,
            "{more} after {first}"
        );
    }
    assert!(rt; may_inform(rt.alloc(), Vec::new(rt.alloc()))?);
    Ok(())
}

/// So many accounts without grants, and one more.
fn row_of_accounts(alloc: Global, before: u32, last: Account) -> Result<Vec<Account>, Fail> {
    let mut accounts = Vec::new(alloc);
    for n in 0..before {
        let uid = n.saturating_add(1);
        let text = format!(in alloc; "a{uid}")?;
        let none = Grants::of(Vec::new(alloc));
        accounts.push(account(name(text.as_str())?, uid, 0, none)?)?;
    }
    accounts.push(last)?;
    Ok(accounts)
}

/// Whether a setup may have so many accounts and one more.
fn may_admit_after(
    alloc: Global,
    before: u32,
    user: &str,
    uid: u32,
    sequence: u16,
) -> Result<bool, Fail> {
    let last = account(name(user)?, uid, sequence, Grants::of(Vec::new(alloc)))?;
    may_admit(alloc, row_of_accounts(alloc, before, last)?)
}

#[test]
fn accounts(rt: HostRuntime) -> Result<(), Fail> {
    for (before, user, uid, sequence, may) in ACCOUNTS {
        let admitted = may_admit_after(rt.alloc(), *before, user, *uid, *sequence)?;
        assert!(rt; admitted == *may, "{user} {uid} {sequence} after {before}");
    }
    assert!(rt; may_admit(rt.alloc(), Vec::new(rt.alloc()))?);
    Ok(())
}

/// So many grants of mode 1, and one more.
fn row_of_grants(alloc: Global, before: u32, last: Grant) -> Result<Vec<Grant>, Fail> {
    let mut grants = Vec::new(alloc);
    for n in 0..before {
        let text = format!(in alloc; "f{}", n.saturating_add(1))?;
        let name = label(text.as_str())?;
        grants.push(Grant { name, mode: 1 })?;
    }
    grants.push(last)?;
    Ok(grants)
}

/// Whether an account may have these grants.
fn may_grant(alloc: Global, grants: Vec<Grant>) -> Result<bool, Fail> {
    let mut accounts = Vec::new(alloc);
    accounts.push(account(name("a")?, 1, 0, Grants::of(grants))?)?;
    may_admit(alloc, accounts)
}

/// Whether an account may have so many grants and one more.
fn may_grant_after(alloc: Global, before: u32, last: &str, mode: u8) -> Result<bool, Fail> {
    let name = label(last)?;
    may_grant(alloc, row_of_grants(alloc, before, Grant { name, mode })?)
}

#[test]
fn grants(rt: HostRuntime) -> Result<(), Fail> {
    for (before, last, mode, may) in GRANTS {
        let granted = may_grant_after(rt.alloc(), *before, last, *mode)?;
        assert!(rt; granted == *may, "{last} {mode} after {before}");
    }
    assert!(rt; may_grant(rt.alloc(), Vec::new(rt.alloc()))?);
    Ok(())
}
