//! What an event makes of the accounts and the rows.

ghost use Rattle.std.specs.Prelude.{◌≡◌, ◌≤◌, ◌<◌, ◌-◌, ◌^◌, if◌then◌else◌, length, nat_le, Some, true, unwrap_or};
ghost use Rattle.policy_model.specs.declared.reading.TheConstants.{DECOYS_FROM};
ghost use Rattle.policy_model.specs.Asks.{accepts, value_of};
ghost use Rattle.session_core.specs.Settling.{grant_for, grant_in, ledger_accepting, ledger_after, ledger_by};
ghost use Rattle.session_core.specs.Settling.{ledger_leaving, ledger_taking, may_hold, number_for, session_at};
ghost use Rattle.session_core.specs.Settling.{table_next};
ghost use Rattle.session_core.specs.Standing.{FitsAccounts, FitsRows, IsSpendable};
ghost use Rattle.session_laws.specs.Judged.{event_session};
ghost use Rattle.session_table.specs.Standing.{grant_number, grants_at};
ghost use Rattle.std.specs.Option.{option_copied};
ghost use Rattle.session_table.specs.Tables.{row_at};

use crate::reading::{closes, is_challenged};
use otp_ledger::Ledger;
use policy_model::{Ask, DECOYS_FROM, Decision, Event, Grants, Setup};
use request_catalogue::Label;
use session_table::{SessionRow, Table, find_grant, is_use};

/// The session of a worker's row, 0 where it has none.
pub(crate) fn session_of(row: Option<&SessionRow>) -> u32
    ensures { result ≡ session_at (option_copied row.entry) }
{
    match row {
        None => 0,
        Some(row) => row.session,
    }
}

/// The session of an event, where so many sessions were opened and the worker has this one.
pub(crate) fn session_for(begun: u32, session: u32, ask: &Ask, decision: &Decision) -> u32
    requires { begun < 2 ^ 32 - 1 }
    ensures { result ≡ event_session session begun ask.now decision.now }
{
    match (ask, decision) {
        (Ask::Begin, Decision::Permit { .. }) => begun + 1,
        _ => session,
    }
}

/// The number of the user's account, and that of accounts for a decoy. It stays a call, so that the user is
/// looked for before it, whichever it is: so the time doesn't tell which.
#[inline(never)]
fn number_by(value: u64, number: Option<u32>, accounts: u32) -> u32
    ensures { result ≡ if nat_le DECOYS_FROM value then accounts else unwrap_or number accounts }
{
    if value < DECOYS_FROM {
        number.unwrap_or(accounts)
    } else {
        accounts
    }
}

/// The number of the account that a CHALLENGE is for, and that of accounts for a decoy and for any other
/// ask.
fn number_for(ledger: &Ledger, event: &Event) -> u32
    ensures { result ≡ number_for ledger.now event.now }
{
    let none = ledger.len() as u32;
    match event.ask {
        Ask::Challenge { user, .. } => number_by(event.decision.value(), ledger.find(&user), none),
        _ => none,
    }
}

/// The number of the grant of a file's name, 0 where there is none.
fn number_of(grants: &Grants, name: &Label) -> u32
    requires { length grants.now ≤ 64 }
    ensures { result ≡ unwrap_or (grant_number grants.now (Some name.now)) 0 }
{
    match find_grant(grants, name) {
        None => 0,
        Some(number) => number as u32,
    }
}

/// The number of the account's grant of a file's name, 0 where there is none.
fn grant_of(setup: &Setup, account: u32, name: &Label) -> u32
    ensures { result ≡ unwrap_or (grant_number (grants_at setup.now account) (Some name.now)) 0 }
{
    match setup.parts().accounts.as_slice().get(account as usize) {
        None => 0,
        Some(account) => number_of(&account.grants, name),
    }
}

/// The grant that an OPEN is for.
fn grant_in(setup: &Setup, row: &SessionRow, event: &Event) -> u32
    ensures { result ≡ grant_in setup.now row.now event.now }
{
    match &event.ask {
        Ask::OpenFile { name, .. } => grant_of(setup, row.account, name),
        _ => 0,
    }
}

/// The grant that an OPEN of the worker of this row is for.
fn grant_for(setup: &Setup, row: Option<&SessionRow>, event: &Event) -> u32
    ensures { result ≡ grant_for setup.now (option_copied row.entry) event.now }
{
    match row {
        None => 0,
        Some(row) => grant_in(setup, row, event),
    }
}

/// Whether a session may hold the user of its account.
fn may_hold(ledger: &Ledger, row: &SessionRow) -> bool
    ensures { result ≡ may_hold ledger.now row.now }
{
    is_challenged(row.phase) && (row.account as usize) < ledger.len()
}

/// A permitted CHALLENGE for the account of this number takes its user.
fn take(ledger: &mut Ledger, number: u32, event: &Event)
    ensures { ledger.new ≡ ledger_taking ledger.old number event.now }
{
    if (number as usize) < ledger.len() {
        ledger.hold(number, event.session, event.ask.moment());
    }
}

/// A permitted REPLY spends the password, and the session holds the user no more.
fn accept(ledger: &mut Ledger, account: u32, event: &Event)
    requires { IsSpendable ledger.old account (value_of event.now.decision) }
    ensures { ledger.new ≡ ledger_accepting ledger.old account event.now }
{
    ledger.spend(account, event.decision.value());
    ledger.release(account, event.session);
}

/// A session that gives up what it holds, or ends, holds the user no more.
fn leave(ledger: &mut Ledger, row: &SessionRow, event: &Event)
    ensures { ledger.new ≡ ledger_leaving ledger.old row.now event.now }
{
    if event.leaves() && may_hold(ledger, row) {
        ledger.release(row.account, event.session);
    }
}

/// What an event of a session makes of the accounts, where its CHALLENGE is for the account of this number.
fn settle_session(ledger: &mut Ledger, row: &SessionRow, event: &Event, number: u32)
    requires number { number ≡ number_for ledger.old event.now }
    requires spends { accepts event.now ≡ true → IsSpendable ledger.old row.now.account (value_of event.now.decision) }
    ensures { ledger.new ≡ ledger_by ledger.old row.now event.now }
{
    if event.takes() {
        take(ledger, number, event);
    } else if event.accepts() {
        accept(ledger, row.account, event);
    } else {
        leave(ledger, row, event);
    }
}

/// What an event of the worker of this row makes of the accounts, where its CHALLENGE is for the account of this
/// number.
fn settle_accounts(ledger: &mut Ledger, row: Option<&SessionRow>, event: &Event, number: u32)
    requires fits { FitsAccounts ledger.old (option_copied row) event.now }
    requires number { number ≡ number_for ledger.old event.now }
    ensures { ledger.new ≡ ledger_after ledger.old (option_copied row.entry) event.now }
{
    if let Some(row) = row {
        settle_session(ledger, row, event, number);
    }
}

/// What an event makes of the rows, where its CHALLENGE is for the account of this number and its OPEN
/// for this grant.
fn settle_rows(table: &mut Table, event: &Event, number: u32, grant: u32)
    requires { FitsRows table.old event.now }
    ensures { table.new ≡ table_next table.old event.now number grant }
{
    if event.opens() {
        table.begin(event.worker);
    } else if closes(event) {
        table.end(event.worker);
    } else {
        table.advance(event.worker, event, number, grant);
    }
}

/// What an event makes of the accounts and the rows. It stays a call, so that the short way beside it keeps
/// its words in registers.
#[inline(never)]
fn settle_each(ledger: &mut Ledger, table: &mut Table, event: &Event)
    requires accounts { FitsAccounts ledger.old (row_at table.old event.now.worker) event.now }
    requires rows { FitsRows table.old event.now }
    ensures accounts { ledger.new ≡ ledger_after ledger.old (row_at table.old event.now.worker) event.now }
    ensures rows { table.new ≡ table_next table.old event.now (number_for ledger.old event.now)
        (grant_for ledger.old.setup (row_at table.old event.now.worker) event.now) }
{
    let number = number_for(ledger, event);
    let row = table.row(event.worker);
    let grant = grant_for(ledger.setup(), row, event);
    settle_accounts(ledger, row, event, number);
    settle_rows(table, event, number, grant);
}

/// What an event makes of the accounts and the rows. Most are a READ or WRITE, which changes a few words of one
/// row. The others are copied first: of an event that no call is given the address of, single words are read.
pub(crate) fn settle(ledger: &mut Ledger, table: &mut Table, event: &Event)
    requires accounts { FitsAccounts ledger.old (row_at table.old event.now.worker) event.now }
    requires rows { FitsRows table.old event.now }
    ensures accounts { ledger.new ≡ ledger_after ledger.old (row_at table.old event.now.worker) event.now }
    ensures rows { table.new ≡ table_next table.old event.now (number_for ledger.old event.now)
        (grant_for ledger.old.setup (row_at table.old event.now.worker) event.now) }
{
    if is_use(event) {
        table.advance_use(event.worker, event);
    } else {
        let copy = *event;
        settle_each(ledger, table, &copy);
    }
}
