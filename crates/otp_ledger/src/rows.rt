//! What is kept of an account besides its accepted passwords.

ghost use Rattle.std.specs.Prelude.{◌≡◌, ◌<◌, length};
ghost use Rattle.otp_ledger.specs.Rows.{new_row, row_at, rows_holding, rows_releasing, rows_spending};

use otp_hash::Algo;
use policy_model::{Account, is_holder};

/// What is kept of an account.
#[derive(Clone, Copy, PartialEq, Eq)]
pub(crate) struct AccountRow {
    pub(crate) algo: Algo,
    pub(crate) enabled: bool,
    /// The setup's sequence.
    pub(crate) start: u16,
    /// How many passwords the chain still has.
    pub(crate) sequence: u16,
    /// The password that was accepted last.
    pub(crate) password: u64,
    /// The session that took the account last, or 0.
    pub(crate) taker: u32,
    /// When the account was taken last, in milliseconds since the run began.
    pub(crate) moment: u64,
    pub(crate) holder: Option<u32>,
}

/// What is kept of an account before the first event.
pub(crate) fn row_of(account: &Account) -> AccountRow
    ensures { result ≡ new_row account.now }
{
    AccountRow {
        algo: account.algo,
        enabled: account.enabled,
        start: account.sequence,
        sequence: account.sequence,
        password: account.password,
        taker: 0,
        moment: 0,
        holder: None,
    }
}

/// The session takes the account.
pub(crate) fn take(rows: &mut Vec<AccountRow>, account: u32, session: u32, now: u64)
    requires { account < length rows.old.items }
    ensures { rows.new.items ≡ rows_holding rows.old.items account session now }
{
    let row = &mut rows[account as usize];
    row.taker = session;
    row.moment = now;
    row.holder = Some(session);
}

/// The account isn't the session's any more.
pub(crate) fn let_go(rows: &mut Vec<AccountRow>, account: u32, session: u32)
    requires { account < length rows.old.items }
    ensures { rows.new.items ≡ rows_releasing rows.old.items account session }
{
    let row = &mut rows[account as usize];
    row.holder = if is_holder(session, row.holder) {
        None
    } else {
        row.holder
    };
}

/// The password is the account's current one.
pub(crate) fn renew(rows: &mut Vec<AccountRow>, account: u32, password: u64)
    requires account { account < length rows.old.items }
    requires some { 0 < (row_at rows.old.items account).sequence }
    ensures { rows.new.items ≡ rows_spending rows.old.items account password }
{
    let row = &mut rows[account as usize];
    row.sequence -= 1;
    row.password = password;
}
