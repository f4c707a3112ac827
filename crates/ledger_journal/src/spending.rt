//! Replies verified and spent.

ghost use Rattle.std.specs.Prelude.{◌≡◌, ◌≤◌, ◌<◌, ◌+◌, ◌&&◌, ◌∷◌, [], Some, length, nat_lt};
ghost use Rattle.std.specs.List.{AllByRecursion};
ghost use Rattle.otp_ledger.specs.Accounts.{state_at};
ghost use Rattle.otp_ledger.specs.Decisions.{is_next};
ghost use Rattle.ledger_journal.specs.Reads.{IsWithin};
ghost use Rattle.ledger_journal.specs.Recovering.{HasAccepted};
ghost use Rattle.ledger_journal.specs.Spending.{AreSpent, IsOfSetup, IsSpending};

use crate::login::Login;
use otp_hash::step;
use otp_ledger::Ledger;

/// Whether the account has a sequence above 0 and the password is its next one.
fn verifies(ledger: &Ledger, account: u32, password: u64) -> bool
    requires account { account < length ledger.now.accounts }
    requires known { IsOfSetup ledger.now }
    ensures { result ≡ (nat_lt 0 (state_at ledger.now account).sequence && is_next (state_at ledger.now account)
        password) }
{
    let algo = ledger.setup().parts().accounts.as_slice()[account as usize].algo;
    let current = ledger.current(account);
    current.sequence > 0
        && step(algo, password) == current.password
        && !ledger.was_accepted(account, password)
}

/// Spends a reply where it verifies, and says whether it does.
fn spend(ledger: &mut Ledger, login: &Login) -> bool
    requires within { IsWithin ledger.old.setup login.now }
    requires known { IsOfSetup ledger.old }
    requires room { ledger.old.spent < ledger.old.cap }
    ensures { IsSpending login.now ledger.old ledger.new result }
{
    match login.account {
        Some(account) if verifies(ledger, account, login.password) => {
            ledger.spend(account, login.password);
            true
        }
        _ => false,
    }
}

/// Spends replies in order, to the first that doesn't verify, and gives that one's line.
pub(crate) fn spend_all(ledger: &mut Ledger, logins: &[Login]) -> Option<u32>
    requires within { AllByRecursion (IsWithin ledger.old.setup) logins.now }
    requires room { ledger.old.spent + length logins.now ≤ ledger.old.cap }
    requires own { HasAccepted ledger.old.setup [] ledger.old }
    ensures { AreSpent ledger.old.setup logins.now ledger.new result }
{
    for login in logins {
        if !spend(ledger, login) {
            return Some(login.line);
        }
    }
    None
}
