//! Where the accounts of names are likely to stand.

ghost use Rattle.std.specs.Prelude.{◌≤◌, vec_len};

use policy_model::Account;
use request_catalogue::Name;
use std::alloc::{AllocError, Global};

/// A number that goes with an account's name, and the account's own.
#[derive(Clone, Copy)]
struct Key {
    mixed: u64,
    account: usize,
}

/// The accounts by numbers that go with their names, rising. They take as many steps to look through for each
/// name. What is found is a guess that is tested where it is used: so a wrong one costs time alone, and no
/// contract speaks of it.
#[derive(Drop)]
pub(crate) struct Names {
    keys: Vec<Key>,
}

/// A number that goes with a name (FNV-1a).
fn mixed(name: &Name) -> u64 {
    let mut mixed = 0xcbf2_9ce4_8422_2325u64;
    for byte in name.as_slice() {
        mixed = (mixed ^ u64::from(*byte)).wrapping_mul(0x0100_0000_01b3);
    }
    mixed
}

impl Names {
    /// Those of these accounts.
    pub(crate) fn new(alloc: Global, accounts: &[Account]) -> Result<Names, AllocError> {
        let mut names = Names {
            keys: Vec::with_capacity(alloc, accounts.len())?,
        };
        for (account, it) in accounts.iter().enumerate() {
            let mixed = mixed(&it.name);
            let place = names.place(mixed);
            names.keys.insert(place, Key { mixed, account })?;
        }
        Ok(names)
    }

    /// Where a key with such a number is, or where it would go.
    fn place(&self, mixed: u64) -> usize
        ensures { result ≤ vec_len self.now.keys }
    {
        match self.keys.binary_search_by(|key| key.mixed.cmp(&mixed)) {
            Ok(place) => place,
            Err(place) => place,
        }
    }

    /// The number that the account of a name is likely to have.
    pub(crate) fn likely(&self, user: &Name) -> usize {
        match self.keys.get(self.place(mixed(user))) {
            Some(key) => key.account,
            None => 0,
        }
    }
}
