//! What is decided by the accounts, where a session's own events decide nothing else.

ghost use Rattle.std.specs.Prelude.{◌≡◌, ◌≢◌, ◌<◌, ◌&&◌, List, [], ◌∷◌, None, Some, length, nat_eq, not, slice_get};
ghost use Rattle.std.specs.Prelude.{unwrap_or};
ghost use Rattle.std.specs.List.{last_or, list_any};
ghost use Rattle.policy_model.specs.declared.account.Account.{Account};
ghost use Rattle.policy_model.specs.declared.event.Decision.TheVariants.{Permit};
ghost use Rattle.policy_model.specs.declared.event.Event.{Event};
ghost use Rattle.policy_model.specs.Journal.{open_session_of};
ghost use Rattle.policy_model.specs.Logins.{account_of, current_sequence, verified_user};
ghost use Rattle.policy_model.specs.Cases.{is_decoy, user_named, account_named, sequence_of};
ghost use Rattle.policy_model.specs.Verdict.{account_verdict, is_next_password, reply_verdict, user_verdict};
ghost use Rattle.audit_check.specs.History.{HasLog, IsKept, challenge_by, is_next_by, silent_by, standing_by};
ghost use Rattle.audit_check.specs.Legal.{is_password_of};

use crate::history::{History, Hold};
use crate::sessions::{is_decoy, login_of, recent, user_named};
use otp_hash::step;
use policy_model::{
    Account, Decision, Event, Setup, is_holder, is_other, is_within, open_session, verified_user,
};
use request_catalogue::{Name, rules};

/// How many passwords an account's chain still has.
fn sequence(setup: &Setup, history: &History, account: u32) -> u64
    requires kept { HasLog setup.now history.now }
    requires account { account < length setup.now.accounts }
    ensures { (events : List Event) → IsKept setup.now events history.now → (a : Account)
        → slice_get setup.now.accounts account ≡ Some a → result ≡ current_sequence events a }
{
    let first = setup.parts().accounts.as_slice()[account as usize].sequence;
    u64::from(first).saturating_sub(history.replies[account as usize].len() as u64)
}

/// What is kept of an account.
#[derive(Clone, Copy)]
pub(crate) struct Standing {
    pub(crate) enabled: bool,
    /// How many passwords its chain still has.
    pub(crate) sequence: u64,
    pub(crate) hold: Hold,
}

/// What is kept of the account of a number.
fn standing_of(setup: &Setup, history: &History, account: u32) -> Standing
    requires kept { HasLog setup.now history.now }
    requires account { account < length setup.now.accounts }
    ensures { (events : List Event) → IsKept setup.now events history.now → (a : Account)
        → slice_get setup.now.accounts account ≡ Some a → result ≡ standing_by events a }
{
    Standing {
        enabled: setup.parts().accounts.as_slice()[account as usize].enabled,
        sequence: sequence(setup, history, account),
        hold: history.holds[account as usize],
    }
}

/// A CHALLENGE of a session for the user of an account at a moment.
fn challenge_by(setup: &Setup, user: &Name, session: u32, now: u64, standing: Standing) -> Decision
    ensures { result ≡ challenge_by setup.now user.now session now standing }
{
    let hold = standing.hold;
    if !standing.enabled || standing.sequence == 0 {
        setup.challenge_decoy(user)
    } else if is_other(session, hold.holder) && is_within(now, hold.moment, setup.parts().hold) {
        Decision::Deny {
            rule: rules::USER_HELD,
            detail: hold.taker,
        }
    } else {
        Decision::Permit {
            value: standing.sequence - 1,
        }
    }
}

/// A CHALLENGE of a session for a user at a moment, where nothing but the user's account decides.
pub(crate) fn judge_challenge(
    setup: &Setup,
    history: &History,
    session: u32,
    user: &Name,
    now: u64,
) -> Decision
    requires { HasLog setup.now history.now }
    ensures { (events : List Event) → IsKept setup.now events history.now → result ≡ account_verdict setup.now events
        session user.now now (account_of setup.now user.now) }
{
    match setup.find(user) {
        None => setup.challenge_decoy(user),
        Some(account) => challenge_by(
            setup,
            user,
            session,
            now,
            standing_of(setup, history, account),
        ),
    }
}

/// A REPLY without readings of a session for a user, by the user's hold.
fn silent_by(session: u32, hold: Hold) -> Decision
    ensures { result ≡ silent_by session hold }
{
    if is_holder(session, hold.holder) {
        Decision::deny(rules::NO_READING, 0)
    } else {
        Decision::deny(rules::HOLD_LOST, hold.taker)
    }
}

/// A REPLY without readings of a session for a user.
fn judge_user(setup: &Setup, history: &History, session: u32, user: &Name) -> Decision
    requires { HasLog setup.now history.now }
    ensures { (events : List Event) → IsKept setup.now events history.now → result ≡ user_verdict setup.now events
        session [] user.now }
{
    match setup.find(user) {
        None => Decision::Deny {
            rule: rules::HOLD_LOST,
            detail: 0,
        },
        Some(account) => silent_by(session, history.holds[account as usize]),
    }
}

/// A REPLY without readings of a worker's open session, where nothing but its login decides.
pub(crate) fn judge_reply(setup: &Setup, history: &History, worker: u32) -> Decision
    requires kept { HasLog setup.now history.now }
    requires worker { worker < length history.now.recent.items }
    ensures { (events : List Event) → IsKept setup.now events history.now → open_session_of events worker ≢ 0 →
        result ≡ reply_verdict setup.now events (open_session_of events worker) None None }
{
    let taking = login_of(history, worker);
    if is_decoy(&taking) {
        return Decision::Deny {
            rule: rules::NO_READING,
            detail: 0,
        };
    }
    match user_named(&taking) {
        None => Decision::Deny {
            rule: rules::HOLD_LOST,
            detail: 0,
        },
        Some(user) => judge_user(
            setup,
            history,
            open_session(recent(history, worker), worker),
            &user,
        ),
    }
}

/// The current sequence of a user that is there and has an account, or 0.
fn sequence_of(setup: &Setup, history: &History, user: Option<Name>) -> u64
    requires { HasLog setup.now history.now }
    ensures { (events : List Event) → IsKept setup.now events history.now
        → result ≡ sequence_of events (account_named setup.now user) }
{
    let Some(user) = user else {
        return 0;
    };
    match setup.find(&user) {
        None => 0,
        Some(account) => sequence(setup, history, account),
    }
}

/// An INFO of a session that is logged in: the user's sequence.
pub(crate) fn judge_info(setup: &Setup, history: &History, worker: u32) -> Decision
    requires kept { HasLog setup.now history.now }
    requires worker { worker < length history.now.recent.items }
    ensures { (events : List Event) → IsKept setup.now events history.now → open_session_of events worker ≢ 0 →
        result
        ≡ Permit (sequence_of events (account_named setup.now (verified_user events (open_session_of events worker)))) }
{
    let recent = recent(history, worker);
    let user = verified_user(recent, open_session(recent, worker));
    Decision::Permit {
        value: sequence_of(setup, history, user),
    }
}

/// The last of the passwords, or another.
fn last_or(passwords: &[u64], other: u64) -> u64
    ensures { result ≡ unwrap_or (last_or None passwords.now) other }
{
    match passwords {
        [.., last] => *last,
        [] => other,
    }
}

/// Whether a password is one of the replies.
fn was_replied(replies: &[u64], password: u64) -> bool
    ensures { result ≡ list_any (nat_eq password) replies.now }
{
    // All are looked at, without a branch, since most often none is the one.
    let mut found = false;
    for reply in replies {
        found |= password == *reply;
    }
    found
}

/// Whether a password is an account's first or one of its replies.
fn is_used(first: u64, replies: &[u64], password: u64) -> bool
    ensures { result ≡ list_any (nat_eq password) (first ∷ replies.now) }
{
    password == first || was_replied(replies, password)
}

/// Whether a password is the next one of an account with these replies.
fn is_next_by(account: &Account, replies: &[u64], password: u64) -> bool
    ensures { result ≡ is_next_by account.now replies.now password }
{
    step(account.algo, password) == last_or(replies, account.password)
        && !is_used(account.password, replies, password)
}

/// Whether a password is the next one of an account.
fn is_next(setup: &Setup, history: &History, account: u32, password: u64) -> bool
    requires kept { HasLog setup.now history.now }
    requires account { account < length setup.now.accounts }
    ensures { (events : List Event) → IsKept setup.now events history.now → (a : Account)
        → slice_get setup.now.accounts account ≡ Some a → result ≡ is_next_password events a password }
{
    is_next_by(
        &setup.parts().accounts.as_slice()[account as usize],
        history.replies[account as usize].as_slice(),
        password,
    )
}

/// Whether a reply with this reading is permitted, after the session's last permitted CHALLENGE.
pub(crate) fn permits(
    setup: &Setup,
    history: &History,
    taking: &Option<Event>,
    password: u64,
) -> bool
    requires { HasLog setup.now history.now }
    ensures { (events : List Event) → IsKept setup.now events history.now → result ≡ (not (is_decoy taking.now)
        && is_password_of events (account_named setup.now (user_named taking.now)) password) }
{
    if is_decoy(taking) {
        return false;
    }
    let Some(user) = user_named(taking) else {
        return false;
    };
    match setup.find(&user) {
        None => false,
        Some(account) => is_next(setup, history, account, password),
    }
}
