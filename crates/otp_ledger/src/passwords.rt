//! The accepted passwords of all accounts, in two rising arrays.

ghost use Rattle.std.specs.Prelude.{◌≡◌, ◌<◌, ◌≤◌, ◌+◌, IfOk, false, length, map, vec_capacity, vec_len};
ghost use Rattle.otp_ledger.specs.Kept.{AddsEntry, AreEntries, IsRising, has_entry};
ghost use Rattle.otp_ledger.specs.Passwords.{ArePasswords, HaveEntriesOf, all_of, room_of};
ghost use Rattle.otp_ledger.specs.Rows.{new_row, state_of};

use crate::kept::{Kept, has_entry, keep};
use crate::merging::merge;
use crate::places::Places;
use policy_model::Account;
use std::alloc::{AllocError, Global};

/// How many accepted passwords are kept apart until they are merged.
const RECENT: usize = 1_024;

/// The accepted passwords of all accounts: a large array of those that are settled, and a small one of the
/// latest. When the small one is full, it is merged into the large one. So to accept a password moves entries
/// of the small array alone, and once in 1,024 times those of the large one.
#[derive(Drop)]
pub(crate) struct Passwords {
    settled: Vec<Kept>,
    recent: Vec<Kept>,
    places: Places,
}

/// The stored passwords of accounts, with room for `cap` more.
fn stored(alloc: Global, accounts: &[Account], cap: u32) -> Result<Vec<Kept>, AllocError>
    requires { length accounts.now ≤ 1024 }
    ensures rising { IfOk result (λ kept. IsRising kept.items) }
    ensures entries { IfOk result (λ kept. AreEntries kept.items (map state_of (map new_row accounts.now))) }
    ensures room { IfOk result (λ kept. vec_len kept + cap ≤ vec_capacity kept) }
{
    let mut kept = Vec::with_capacity(alloc, accounts.len() + cap as usize)?;
    for (i, account) in accounts.iter().enumerate() {
        keep(
            &mut kept,
            Kept {
                account: i as u32,
                password: account.password,
            },
        );
    }
    Ok(kept)
}

impl Passwords {
    /// The stored passwords of accounts, with room for `cap` more.
    pub(crate) fn new(
        alloc: Global,
        accounts: &[Account],
        cap: u32,
    ) -> Result<Passwords, AllocError>
        requires { length accounts.now ≤ 1024 }
        ensures are { IfOk result ArePasswords }
        ensures entries { IfOk result (λ p. AreEntries (all_of p) (map state_of (map new_row accounts.now))) }
        ensures room { IfOk result (λ p. cap ≤ room_of p) }
    {
        let settled = stored(alloc, accounts, cap)?;
        let recent = Vec::with_capacity(alloc, RECENT)?;
        let places = Places::new(alloc, accounts.len() as u32)?;
        Ok(Passwords {
            settled,
            recent,
            places,
        })
    }

    /// Whether an account's password is there.
    pub(crate) fn has(&self, account: u32, password: u64) -> bool
        requires { ArePasswords self.now }
        ensures { result ≡ has_entry account password (all_of self.now) }
    {
        self.places
            .has_entry(self.settled.as_slice(), account, password)
            || has_entry(self.recent.as_slice(), account, password)
    }

    /// All are in the large array.
    pub(crate) fn settle(&mut self)
        requires { ArePasswords self.old }
        ensures are { ArePasswords self.new }
        ensures entries { HaveEntriesOf self.old self.new.settled.items }
        ensures none { vec_len self.new.recent ≡ 0 }
        ensures room { room_of self.old ≤ room_of self.new }
    {
        merge(&mut self.settled, self.recent.as_slice());
        self.places.shift(self.recent.as_slice());
        self.recent.clear();
    }

    /// The small array has room for an entry.
    fn make_place(&mut self)
        requires { ArePasswords self.old }
        ensures are { ArePasswords self.new }
        ensures entries { HaveEntriesOf self.old (all_of self.new) }
        ensures place { vec_len self.new.recent < vec_capacity self.new.recent }
        ensures room { room_of self.old ≤ room_of self.new }
    {
        if self.recent.len() >= self.recent.capacity() {
            self.settle();
        }
    }

    /// The entry, which wasn't there, is there.
    pub(crate) fn accept(&mut self, entry: Kept)
        requires are { ArePasswords self.old }
        requires unused { has_entry entry.account entry.password (all_of self.old) ≡ false }
        requires room { 0 < room_of self.old }
        ensures are { ArePasswords self.new }
        ensures entries { AddsEntry (all_of self.old) entry (all_of self.new) }
        ensures room { room_of self.old ≤ room_of self.new + 1 }
    {
        self.make_place();
        keep(&mut self.recent, entry);
    }

    /// The large array.
    pub(crate) fn settled(&self) -> &[Kept]
        ensures { result.now ≡ self.now.settled.items }
    {
        self.settled.as_slice()
    }
}
