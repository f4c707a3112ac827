//! Where the entries of each account are likely to stand in the large array of accepted passwords.

ghost use Rattle.std.specs.Prelude.{◌≡◌, ◌≤◌, IsTrue, length};
ghost use Rattle.otp_ledger.specs.Kept.{IsRising, IsStart, IsStop, has_entry};

use crate::kept::{Kept, has_entry, is_below};
use std::alloc::{AllocError, Global};

/// For each account the place at which its entries are likely to begin. A search looks there first, and only
/// where the entries around show that the account's stand nowhere else; so a wrong place costs time alone, and
/// no contract speaks of it.
#[derive(Drop)]
pub(crate) struct Places {
    firsts: Vec<usize>,
}

impl Places {
    /// The places where each account has one entry.
    pub(crate) fn new(alloc: Global, accounts: u32) -> Result<Places, AllocError> {
        let mut firsts = Vec::with_capacity(alloc, accounts as usize)?;
        for account in 0..accounts {
            firsts.push(account as usize)?;
        }
        Ok(Places { firsts })
    }

    /// Entries more stand among those of their accounts; they rise.
    pub(crate) fn shift(&mut self, entries: &[Kept]) {
        let mut later = entries;
        let mut before = 0usize;
        for (account, first) in self.firsts.iter_mut().enumerate() {
            let own = later
                .iter()
                .take_while(|entry| (entry.account as usize) < account)
                .count();
            later = later.get(own..).unwrap_or(&[]);
            before = before.wrapping_add(own);
            *first = first.wrapping_add(before);
        }
    }

    /// Where the account's entries are likely to begin and to end, in an array of so many.
    fn of(&self, account: u32, len: usize) -> (usize, usize) {
        let place = account as usize;
        let first = self.firsts.get(place).copied().unwrap_or(0);
        let end = self.firsts.get(place + 1).copied().unwrap_or(len);
        (first, end)
    }

    /// Whether an entry is there.
    pub(crate) fn has_entry(&self, kept: &[Kept], account: u32, password: u64) -> bool
        requires { IsRising kept.now }
        ensures { result ≡ has_entry account password kept.now }
    {
        let (first, end) = self.of(account, kept.len());
        let entry = Kept { account, password };
        if first <= end
            && end <= kept.len()
            && is_start(kept, first, &entry)
            && is_stop(kept, end, &entry)
        {
            has_entry(&kept[first..end], account, password)
        } else {
            has_entry(kept, account, password)
        }
    }
}

/// Whether no entry before a place can be this one.
fn is_start(kept: &[Kept], first: usize, entry: &Kept) -> bool
    requires rising { IsRising kept.now }
    requires within { first ≤ length kept.now }
    ensures { IsTrue result → IsStart kept.now first entry.now }
{
    first == 0 || is_below(&kept[first - 1], entry)
}

/// Whether no entry from a place on can be this one.
fn is_stop(kept: &[Kept], end: usize, entry: &Kept) -> bool
    requires rising { IsRising kept.now }
    requires within { end ≤ length kept.now }
    ensures { IsTrue result → IsStop kept.now end entry.now }
{
    end == kept.len() || is_below(entry, &kept[end])
}
