//! A rising array of accepted passwords.

ghost use Rattle.std.specs.Prelude.{◌≡◌, ◌<◌, ◌≤◌, ◌+◌, ◌*◌, ◌^◌, false, IfErr, IfOk, vec_capacity, vec_len};
ghost use Rattle.std.specs.List.{insert};
ghost use Rattle.std.specs.Ordering.{is_lt};
ghost use Rattle.otp_ledger.specs.Kept.{AddsEntry, IsGap, IsHere, IsRising, has_entry, kept_cmp};

use std::cmp::Ordering;

/// A password of an account that was accepted.
#[derive(Clone, Copy, PartialEq, Eq, PartialOrd, Ord)]
pub struct Kept {
    /// The account's number, counted from 0.
    pub account: u32,
    /// Its first byte is the most significant.
    pub password: u64,
}

/// How many passwords there are.
const PASSWORDS: u128 = 1 << 64;

/// The place of an entry among all that there could be.
fn rank(entry: &Kept) -> u128
    ensures value { result ≡ entry.now.account * 2 ^ 64 + entry.now.password }
    ensures bound { entry.now.password < 2 ^ 64 }
{
    u128::from(entry.account) * PASSWORDS + u128::from(entry.password)
}

/// Entries by account, and then by password. Two numbers are compared without a branch, two fields aren't.
#[tactic(auto, using(crate::proofs::KeptLemmas::ranks_cmp))]
fn compare(a: &Kept, b: &Kept) -> Ordering
    ensures { result ≡ kept_cmp a.now b.now }
{
    rank(a).cmp(&rank(b))
}

/// Whether an entry stands before another.
pub(crate) fn is_below(a: &Kept, b: &Kept) -> bool
    ensures { result ≡ is_lt (kept_cmp a.now b.now) }
{
    compare(a, b).is_lt()
}

/// Where an entry is, or where it would go.
fn search(kept: &[Kept], entry: &Kept) -> Result<usize, usize>
    requires { IsRising kept.now }
    ensures found { IfOk result (IsHere kept.now entry.now) }
    ensures absent { IfErr result (IsGap kept.now entry.now) }
{
    kept.binary_search_by(|other| compare(other, entry))
}

/// Where an entry goes that isn't there.
pub(crate) fn gap_of(kept: &[Kept], entry: &Kept) -> usize
    requires rising { IsRising kept.now }
    requires absent { has_entry entry.now.account entry.now.password kept.now ≡ false }
    ensures { IsGap kept.now entry.now result }
{
    match search(kept, entry) {
        Ok(place) => place,
        Err(place) => place,
    }
}

/// Whether an entry is there.
pub(crate) fn has_entry(kept: &[Kept], account: u32, password: u64) -> bool
    requires { IsRising kept.now }
    ensures { result ≡ has_entry account password kept.now }
{
    search(kept, &Kept { account, password }).is_ok()
}

/// The entry stands at this place of the array, which has room for it, and the later ones one place on.
/// They are copied, since `Vec::insert` takes twice the time to move entries of two fields.
fn insert_at(kept: &mut Vec<Kept>, place: usize, entry: Kept)
    requires within { place ≤ vec_len kept.old }
    requires room { vec_len kept.old < vec_capacity kept.old }
    ensures items { kept.new.items ≡ insert kept.old.items place entry }
    ensures len { vec_len kept.new ≡ vec_len kept.old + 1 }
    ensures capacity { vec_capacity kept.old ≤ vec_capacity kept.new }
{
    let end = kept.len();
    if kept.push(entry).is_ok() {
        kept.copy_within(place..end, place + 1);
        kept[place] = entry;
    }
}

/// The entry is in the array, which has room for it.
pub(crate) fn keep(kept: &mut Vec<Kept>, entry: Kept)
    requires rising { IsRising kept.old.items }
    requires room { vec_len kept.old < vec_capacity kept.old }
    ensures rising { IsRising kept.new.items }
    ensures entries { AddsEntry kept.old.items entry kept.new.items }
    ensures len { vec_len kept.new ≤ vec_len kept.old + 1 }
    ensures capacity { vec_capacity kept.old ≤ vec_capacity kept.new }
{
    if let Err(place) = search(kept.as_slice(), &entry) {
        insert_at(kept, place, entry);
    }
}
