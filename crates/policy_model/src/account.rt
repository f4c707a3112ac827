//! The accounts of a setup.

ghost use Rattle.std.specs.Prelude.{◌≡◌, IfOk, List};

use otp_hash::{Algo, Seed};
use request_catalogue::{Label, Name};
use std::alloc::{AllocError, Global};
use std::marker::Model;

/// A file that a user may open, and how.
#[derive(Clone, Copy, PartialEq, Eq)]
pub struct Grant {
    pub name: Label,
    /// 1 to read, 2 to write, 3 for both.
    pub mode: u8,
}

/// The grants of an account, at most 64 in a setup.
#[derive(Drop)]
pub struct Grants {
    items: Vec<Grant>,
}

impl Model for Grants {
    ghost use Rattle.std.specs.Prelude.{List};
    ghost use Rattle.policy_model.specs.declared.account.Grant.{Grant};

    ghost Value = { List Grant };

    ghost view = { λ g. g.items.items };
}

impl Grants {
    /// The list of these grants, without a copy.
    pub fn of(items: Vec<Grant>) -> Grants
        ensures { result ≡ items.items }
    {
        Grants { items }
    }

    /// The grants in order.
    pub fn as_slice(&self) -> &[Grant]
        ensures { result.now ≡ self.now }
    {
        self.items.as_slice()
    }

    /// A second list of the same grants.
    pub fn copy(&self, alloc: Global) -> Result<Grants, AllocError>
        ensures { IfOk result (λ copy. copy ≡ self.now) }
    {
        Ok(Grants::of(Vec::from_slice(alloc, self.as_slice())?))
    }
}

/// A user that may log in.
#[derive(Drop)]
pub struct Account {
    pub name: Name,
    /// The user's number, 1 to 4,294,967,294 in a setup.
    pub uid: u32,
    pub algo: Algo,
    pub seed: Seed,
    /// How many passwords the chain still has, at most 9,999 in a setup.
    pub sequence: u16,
    /// The password that was accepted last; its first byte is the most significant.
    pub password: u64,
    pub enabled: bool,
    pub grants: Grants,
}

impl Account {
    /// A second account of the same parts.
    pub fn copy(&self, alloc: Global) -> Result<Account, AllocError>
        ensures { IfOk result (λ copy. copy ≡ self.now) }
    {
        Ok(Account {
            name: self.name,
            uid: self.uid,
            algo: self.algo,
            seed: self.seed,
            sequence: self.sequence,
            password: self.password,
            enabled: self.enabled,
            grants: self.grants.copy(alloc)?,
        })
    }
}

/// The accounts of a setup, at most 1,024.
#[derive(Drop)]
pub struct Accounts {
    items: Vec<Account>,
}

impl Model for Accounts {
    ghost use Rattle.std.specs.Prelude.{List};
    ghost use Rattle.policy_model.specs.declared.account.Account.{Account};

    ghost Value = { List Account };

    ghost view = { λ a. a.items.items };
}

impl Accounts {
    /// The list of these accounts, without a copy.
    pub fn of(items: Vec<Account>) -> Accounts
        ensures { result ≡ items.items }
    {
        Accounts { items }
    }

    /// The accounts in order.
    pub fn as_slice(&self) -> &[Account]
        ensures { result.now ≡ self.now }
    {
        self.items.as_slice()
    }

    /// A second list of the same accounts.
    pub fn copy(&self, alloc: Global) -> Result<Accounts, AllocError>
        ensures { IfOk result (λ copy. copy ≡ self.now) }
    {
        let mut items = Vec::new(alloc);
        for account in self.as_slice() {
            items.push(account.copy(alloc)?)?;
        }
        Ok(Accounts::of(items))
    }
}
