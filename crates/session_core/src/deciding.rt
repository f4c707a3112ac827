//! What is decided by the accounts and the rows.

ghost use Rattle.std.specs.Prelude.{◌≡◌, ◌<◌, IfSome, length, nat_eq};
ghost use Rattle.std.specs.List.{list_any};
ghost use Rattle.std.specs.Option.{option_copied};
ghost use Rattle.session_core.specs.Deciding.{account_at, challenge_by, idle_worker_decision, info_by, kind_by};
ghost use Rattle.session_core.specs.Deciding.{open_by, open_worker_decision, reply_by, sequence_at, worker_decision};

use otp_ledger::Ledger;
use policy_model::{Ask, Decision, READ, Setup, WRITE};
use request_catalogue::{Label, Name, rules};
use session_table::SessionRow;

/// The number of the account that a session is challenged for, none for a decoy.
fn account_at(ledger: &Ledger, row: &SessionRow) -> Option<u32>
    ensures value { result ≡ account_at ledger.now row.now }
    ensures within { IfSome result (λ n. n < length ledger.now.accounts) }
{
    let account = row.account;
    ((account as usize) < ledger.len()).then_some(account)
}

/// Rules 8 and 12 of a CHALLENGE, at a moment in milliseconds since the run began.
fn judge_challenge(ledger: &Ledger, row: &SessionRow, user: &Name, now: u64) -> Decision
    ensures { result ≡ challenge_by ledger.now row.now user.now now }
{
    let tries = ledger.setup().parts().tries;
    if row.tries >= tries {
        return Decision::deny(rules::TRIES_SPENT, tries);
    }
    ledger.judge_challenge(user, row.session, now)
}

/// Rules 13 to 16 of a REPLY, where the account of some number stands in for a decoy.
fn judge_reply(
    ledger: &Ledger,
    row: &SessionRow,
    stand_in: u64,
    words: Option<u64>,
    hex: Option<u64>,
) -> Decision
    ensures { result ≡ reply_by ledger.now row.now words hex }
{
    match account_at(ledger, row) {
        None => ledger.judge_decoy(stand_in, words, hex),
        Some(account) => ledger.judge_reply(account, row.session, words, hex),
    }
}

/// Rules 19 to 21 of an OPEN.
fn judge_open(ledger: &Ledger, row: &SessionRow, mode: u8, name: &Label) -> Decision
    ensures { result ≡ open_by ledger.now row.now mode name.now }
{
    let accounts = ledger.setup().parts().accounts.as_slice();
    match accounts.get(row.account as usize) {
        None => Decision::deny(rules::NOT_GRANTED, 0),
        Some(account) => row.handles.judge_open(&account.grants, mode, name),
    }
}

/// Whether the setup has information of this number.
fn has_information(setup: &Setup, number: u32) -> bool
    ensures { result ≡ list_any (nat_eq number) setup.now.info }
{
    setup.parts().info.as_slice().iter().any(|n| number == *n)
}

/// How many passwords the account's chain has left.
fn sequence_at(ledger: &Ledger, account: Option<u32>) -> u64
    requires { IfSome account (λ n. n < length ledger.now.accounts) }
    ensures { result ≡ sequence_at ledger.now account }
{
    match account {
        None => 0,
        Some(account) => u64::from(ledger.current(account).sequence),
    }
}

/// Rule 22 of an INFO.
fn judge_info(ledger: &Ledger, row: &SessionRow, number: u32) -> Decision
    ensures { result ≡ info_by ledger.now row.now number }
{
    if !has_information(ledger.setup(), number) {
        return Decision::deny(rules::NO_INFORMATION, number);
    }
    Decision::Permit {
        value: sequence_at(ledger, account_at(ledger, row)),
    }
}

/// The rules of a request's own kind, else a permit with its value.
fn judge_kind(ledger: &Ledger, row: &SessionRow, stand_in: u64, ask: &Ask) -> Decision
    ensures { result ≡ kind_by ledger.now row.now ask.now }
{
    match ask {
        Ask::Challenge { user, now } => judge_challenge(ledger, row, user, *now),
        Ask::Reply { words, hex } => judge_reply(ledger, row, stand_in, *words, *hex),
        Ask::Export { .. } => Decision::Permit {
            value: u64::from(row.account),
        },
        Ask::ReadAt { handle, .. } => row.handles.judge_use(*handle, READ),
        Ask::WriteAt { handle, .. } => row.handles.judge_use(*handle, WRITE),
        Ask::OpenFile { mode, name } => judge_open(ledger, row, *mode, name),
        Ask::CloseFile { handle } => row.handles.judge_close(*handle),
        Ask::Info { number } => judge_info(ledger, row, *number),
        _ => Decision::Permit { value: 0 },
    }
}

/// An ask of a worker that has a session.
fn judge_open_worker(ledger: &Ledger, row: &SessionRow, stand_in: u64, ask: &Ask) -> Decision
    ensures { result ≡ open_worker_decision ledger.now row.now ask.now }
{
    match ask {
        Ask::Begin => Decision::deny(rules::NOT_IN_PHASE, 0),
        Ask::End { .. } => Decision::Permit { value: 0 },
        _ => match row.refusal(ledger.setup().requests(), ask) {
            Some(refusal) => refusal,
            None => judge_kind(ledger, row, stand_in, ask),
        },
    }
}

/// An ask of a worker that has none, where so many sessions were opened.
fn judge_idle_worker(begun: u32, ask: &Ask) -> Decision
    ensures { result ≡ idle_worker_decision begun ask.now }
{
    match ask {
        Ask::Begin => Decision::Permit {
            value: u64::from(begun) + 1,
        },
        _ => Decision::deny(rules::NOT_IN_PHASE, ask.number()),
    }
}

/// What is decided on an ask of the worker of this row, where so many sessions were opened, and the account of
/// some number stands in for a decoy.
pub(crate) fn judge(
    ledger: &Ledger,
    row: Option<&SessionRow>,
    begun: u32,
    stand_in: u64,
    ask: &Ask,
) -> Decision
    ensures { result ≡ worker_decision ledger.now begun (option_copied row.entry) ask.now }
{
    match row {
        None => judge_idle_worker(begun, ask),
        Some(row) => judge_open_worker(ledger, row, stand_in, ask),
    }
}
