//! The ledger, and what an event makes of an account.

ghost use Rattle.std.specs.Prelude.{◌≡◌, ◌<◌, ◌≤◌, ◌+◌, [], IfOk, IfSome, length, map, nat_le};
ghost use Rattle.std.specs.Borrow.{sem};
ghost use Rattle.policy_model.specs.Settings.{account_number};
ghost use Rattle.otp_ledger.specs.Accounts.{IsNextPassword, current_of, ledger_holding, ledger_releasing};
ghost use Rattle.otp_ledger.specs.Accounts.{ledger_spending, new_ledger, state_at, was_accepted};
ghost use Rattle.otp_ledger.specs.Kept.{AreEntries, IsRising};
ghost use Rattle.otp_ledger.specs.Lending.{StaysSame};
ghost use Rattle.otp_ledger.specs.Rows.{new_row, state_of};
ghost use Rattle.otp_ledger.specs.Standing.{IsCurrent, StandsFor, StandsLeft, StandsReplied, StandsTaken};

use crate::kept::Kept;
use crate::names::{Named, names_of, number_of};
use crate::passwords::Passwords;
use crate::rows::{AccountRow, let_go, renew, row_of, take};
use policy_model::{Account, Setup};
use request_catalogue::Name;
use std::alloc::{AllocError, Global};
use std::marker::Model;

/// What an account's chain has come to.
#[derive(Clone, Copy, PartialEq, Eq)]
pub struct Current {
    /// How many passwords the chain still has, at most 9,999.
    pub sequence: u16,
    /// The password that was accepted last; its first byte is the most significant.
    pub password: u64,
}

/// What the policy knows of each account: the accepted passwords, the sequence, the last taker and the
/// holder.
#[derive(Drop)]
pub struct Ledger {
    setup: Setup,
    names: Vec<Named>,
    rows: Vec<AccountRow>,
    passwords: Passwords,
    spent: u32,
    cap: u32,
}

impl Model for Ledger {
    ghost use Rattle.otp_ledger.specs.Accounts.{LedgerParts};

    ghost Value = { LedgerParts };

    ghost use Rattle.otp_ledger.specs.Ledger.{IsLedger, parts_of};

    ghost view = { parts_of };

    ghost invariant = { IsLedger };
}

/// The rows of accounts before the first event.
fn rows_of(alloc: Global, accounts: &[Account]) -> Result<Vec<AccountRow>, AllocError>
    ensures { IfOk result (λ rows. rows.items ≡ map new_row accounts.now) }
{
    let mut rows = Vec::with_capacity(alloc, accounts.len())?;
    for account in accounts {
        rows.push(row_of(account))?;
    }
    Ok(rows)
}

impl Ledger {
    /// The ledger of a setup before the first event. It has room for `cap` passwords that are accepted
    /// besides the setup's, and takes no memory later.
    ///
    /// # Errors
    ///
    /// There isn't the memory.
    pub fn new(alloc: Global, setup: &Setup, cap: u32) -> Result<Ledger, AllocError>
        ensures value { IfOk result (λ ledger. ledger ≡ new_ledger setup.now cap) }
        ensures stands { IfOk result (λ ledger. StandsFor ledger []) }
    {
        let accounts = setup.parts().accounts.as_slice();
        let names = names_of(alloc, accounts)?;
        let rows = rows_of(alloc, accounts)?;
        let passwords = Passwords::new(alloc, accounts, cap)?;
        Ok(Ledger {
            setup: setup.copy(alloc)?,
            names,
            rows,
            passwords,
            spent: 0,
            cap,
        })
    }

    /// The setup that the ledger was made from.
    pub fn setup(&self) -> &Setup
        ensures value { result.now ≡ self.now.setup }
        ensures accounts { length result.now.accounts ≡ length self.now.accounts }
    {
        &self.setup
    }

    /// How many accounts there are, at most 1,024.
    pub fn len(&self) -> usize
        ensures value { result ≡ length self.now.accounts }
        ensures bound { result ≤ 1024 }
    {
        self.rows.len()
    }

    /// Whether as many passwords were spent as there is room for.
    pub fn is_full(&self) -> bool
        ensures { result ≡ nat_le self.now.cap self.now.spent }
    {
        self.spent >= self.cap
    }

    /// The accepted passwords of all accounts, the setup's among them, by account and then by password.
    pub fn kept(&mut self) -> &[Kept]
        ensures rising { IsRising result.now }
        ensures entries { AreEntries result.now self.old.accounts }
        ensures* same { sem 𝓛 (StaysSame self.entry) }
    {
        self.passwords.settle();
        self.passwords.settled()
    }

    /// The number of the user's account, counted from 0.
    pub fn find(&self, user: &Name) -> Option<u32>
        ensures value { result ≡ account_number self.now.setup user.now }
        ensures within { IfSome result (λ n. n < length self.now.accounts) }
    {
        number_of(self.names.as_slice(), user)
    }

    /// What is kept of an account.
    pub(crate) fn row(&self, account: u32) -> &AccountRow
        requires { account < length self.now.accounts }
        ensures state { state_of result.now ≡ state_at self.now account }
        ensures password { result.now.password ≡ current_of (state_at self.now account) }
        ensures few { result.now.sequence ≤ 9999 }
    {
        &self.rows[account as usize]
    }

    /// Whether a password of the account was accepted before.
    pub fn was_accepted(&self, account: u32, password: u64) -> bool
        requires { account < length self.now.accounts }
        ensures { result ≡ was_accepted (state_at self.now account) password }
    {
        self.passwords.has(account, password)
    }

    /// The account's sequence and the password that was accepted last.
    pub fn current(&self, account: u32) -> Current
        requires { account < length self.now.accounts }
        ensures sequence { result.sequence ≡ (state_at self.now account).sequence }
        ensures few { result.sequence ≤ 9999 }
        ensures password { result.password ≡ current_of (state_at self.now account) }
        ensures stands { IsCurrent self.now account result }
    {
        let row = self.row(account);
        Current {
            sequence: row.sequence,
            password: row.password,
        }
    }

    /// The session is the account's last taker, at a moment in milliseconds since the run began, and its
    /// holder.
    pub fn hold(&mut self, account: u32, session: u32, now: u64)
        requires { account < length self.old.accounts }
        ensures value { self.new ≡ ledger_holding self.old account session now }
        ensures stands { StandsTaken self.old account session now self.new }
    {
        take(&mut self.rows, account, session, now);
    }

    /// The password is accepted: it is the account's current one, and the chain has one less.
    pub fn spend(&mut self, account: u32, password: u64)
        requires account { account < length self.old.accounts }
        requires next { IsNextPassword (state_at self.old account) password }
        requires some { 0 < (state_at self.old account).sequence }
        requires cap { self.old.spent < self.old.cap }
        ensures value { self.new ≡ ledger_spending self.old account password }
        ensures stands { StandsReplied self.old account password self.new }
    {
        self.passwords.accept(Kept { account, password });
        renew(&mut self.rows, account, password);
        self.spent += 1;
    }

    /// The account has no holder where the session holds it; else nothing changes.
    pub fn release(&mut self, account: u32, session: u32)
        requires { account < length self.old.accounts }
        ensures value { self.new ≡ ledger_releasing self.old account session }
        ensures stands { StandsLeft self.old account session self.new }
    {
        let_go(&mut self.rows, account, session);
    }
}
