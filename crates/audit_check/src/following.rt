//! Whether an event may stand after others in a log.

ghost use Rattle.std.specs.Prelude.{◌≡◌, ◌≤◌, ◌^◌, ◌-◌, ◌<◌, IfSome, List, false, true, length};
ghost use Rattle.std.specs.Bool.{MatchBool};
ghost use Rattle.policy_model.specs.Journal.{open_session_of};
ghost use Rattle.policy_model.specs.Legal.{opening_session, session_of};
ghost use Rattle.policy_model.specs.declared.event.Event.{Event};
ghost use Rattle.policy_model.specs.Settings.{Settings};
ghost use Rattle.policy_model.specs.Verdict.{verdict_of};
ghost use Rattle.policy_laws.specs.Strangers.{without_readings};
ghost use Rattle.audit_check.specs.Following.{is_local, is_no_reading, may_be_denied, rests_on_accounts};
ghost use Rattle.audit_check.specs.History.{HasLog, IsKept};
ghost use Rattle.audit_check.specs.Legal.{IsDecided, MayFollow, is_open, may_be_decided, readings_decide};

use crate::accounts::{judge_challenge, judge_info, judge_reply, permits};
use crate::history::History;
use crate::seats::judge_by_seat;
use crate::sessions::{is_decoy, login_of, recent};
use policy_model::{Ask, Decision, Event, Setup, judge, open_session};
use request_catalogue::rules;

/// Whether the verdict on an ask rests on its own session alone.
fn is_local(ask: &Ask) -> bool
    ensures { result ≡ is_local ask.now }
{
    !matches!(
        ask,
        Ask::Begin | Ask::Challenge { .. } | Ask::Reply { .. } | Ask::Info { .. }
    )
}

/// Whether a decision may rest on what stands before its session: a permit, or a denial by one of the
/// rules 12 to 16.
fn rests_on_accounts(decision: &Decision) -> bool
    ensures { result ≡ rests_on_accounts decision.now }
{
    match *decision {
        Decision::Permit { .. } => true,
        Decision::Deny { rule, .. } => rules::USER_HELD <= rule && rule <= rules::NO_MATCH,
        Decision::Lost => false,
    }
}

/// The policy's verdict on an opening, a CHALLENGE, a REPLY or an INFO.
fn verdict_by_accounts(setup: &Setup, history: &History, event: &Event) -> Decision
    requires kept { HasLog setup.now history.now }
    requires worker { event.now.worker < length history.now.recent.items }
    requires shown { without_readings event.now.ask ≡ event.now.ask }
    requires other { is_local event.now.ask ≡ false }
    ensures { (events : List Event) → IsKept setup.now events history.now →
        result ≡ verdict_of setup.now events event.now.worker event.now.ask }
{
    let recent = recent(history, event.worker);
    let verdict = judge(setup, recent, event.worker, &event.ask);
    if !rests_on_accounts(&verdict) {
        return verdict;
    }
    let session = open_session(recent, event.worker);
    match event.ask {
        Ask::Challenge { user, now } => judge_challenge(setup, history, session, &user, now),
        Ask::Reply { .. } => judge_reply(setup, history, event.worker),
        Ask::Info { .. } => judge_info(setup, history, event.worker),
        _ => Decision::Permit {
            value: u64::from(history.opened) + 1,
        },
    }
}

/// The policy's verdict on the event's ask, where what its worker's open session has come to decides it.
fn verdict_by_seat(setup: &Setup, history: &History, event: &Event) -> Option<Decision>
    requires kept { HasLog setup.now history.now }
    requires worker { event.now.worker < length history.now.seats.items }
    ensures { (events : List Event) → IsKept setup.now events history.now →
        IfSome result (λ d. d ≡ verdict_of setup.now events event.now.worker event.now.ask) }
{
    judge_by_seat(
        setup.requests(),
        history.opened,
        history.seats[event.worker as usize],
        &event.ask,
    )
}

/// The policy's verdict on the event's ask, by its worker's events and the accounts.
fn verdict_by_events(setup: &Setup, history: &History, event: &Event) -> Decision
    requires kept { HasLog setup.now history.now }
    requires worker { event.now.worker < length history.now.recent.items }
    requires shown { without_readings event.now.ask ≡ event.now.ask }
    ensures { (events : List Event) → IsKept setup.now events history.now →
        result ≡ verdict_of setup.now events event.now.worker event.now.ask }
{
    if is_local(&event.ask) {
        let recent = recent(history, event.worker);
        judge(setup, recent, event.worker, &event.ask)
    } else {
        verdict_by_accounts(setup, history, event)
    }
}

/// The policy's verdict on the event's ask.
fn verdict(setup: &Setup, history: &History, event: &Event) -> Decision
    requires kept { HasLog setup.now history.now }
    requires worker { event.now.worker < length history.now.recent.items }
    requires shown { without_readings event.now.ask ≡ event.now.ask }
    ensures { (events : List Event) → IsKept setup.now events history.now →
        result ≡ verdict_of setup.now events event.now.worker event.now.ask }
{
    match verdict_by_seat(setup, history, event) {
        None => verdict_by_events(setup, history, event),
        Some(verdict) => verdict,
    }
}

/// Whether a denial says that a reply had no reading.
fn is_no_reading(verdict: &Decision) -> bool
    ensures { result ≡ is_no_reading verdict.now }
{
    matches!(
        verdict,
        Decision::Deny {
            rule: rules::NO_READING,
            ..
        }
    )
}

/// Whether a denial may be one on a reply whose readings decide.
fn may_be_denied(rule: u8, detail: u32, decoyed: bool) -> bool
    ensures { result ≡ may_be_denied rule detail decoyed }
{
    detail == 0
        && (rule == rules::NO_READING
            || rule == rules::NO_MATCH
            || rule == rules::PASSWORD_USED && !decoyed)
}

/// Whether the decision may be one on a reply whose readings decide.
fn may_be_decided(setup: &Setup, history: &History, event: &Event) -> bool
    requires kept { HasLog setup.now history.now }
    requires worker { event.now.worker < length history.now.recent.items }
    ensures { (events : List Event) → IsKept setup.now events history.now → readings_decide setup.now events
        (open_session_of events event.now.worker) ≡ true →
        result ≡ may_be_decided setup.now events (open_session_of events event.now.worker) event.now.decision }
{
    let taking = login_of(history, event.worker);
    match event.decision {
        Decision::Permit { value } => permits(setup, history, &taking, value),
        Decision::Deny { rule, detail } => may_be_denied(rule, detail, is_decoy(&taking)),
        Decision::Lost => false,
    }
}

/// Whether an event is a reply whose readings decide, by the policy's verdict on it: the policy denies
/// it only for lack of a reading.
fn is_open(event: &Event, verdict: &Decision) -> bool
    requires { without_readings event.now.ask ≡ event.now.ask }
    ensures { (setup : Settings) (before : List Event) → verdict.now ≡ verdict_of setup before event.now.worker
        event.now.ask →
        result ≡ is_open setup before event.now }
{
    event.ask.is_reply() && is_no_reading(verdict)
}

/// Whether a decision is the policy's verdict.
fn is_verdict(decision: &Decision, verdict: &Decision) -> bool
    ensures { MatchBool result (decision.now ≡ verdict.now) (decision.now ≡ verdict.now → ⊥) }
{
    decision == verdict
}

/// Whether the policy may give the event's decision.
fn is_decided(setup: &Setup, history: &History, event: &Event) -> bool
    requires kept { HasLog setup.now history.now }
    requires worker { event.now.worker < length history.now.recent.items }
    requires shown { without_readings event.now.ask ≡ event.now.ask }
    ensures { (events : List Event) → IsKept setup.now events history.now →
        MatchBool result (IsDecided setup.now events event.now) (IsDecided setup.now events event.now → ⊥) }
{
    let verdict = verdict(setup, history, event);
    if is_open(event, &verdict) {
        may_be_decided(setup, history, event)
    } else {
        is_verdict(&event.decision, &verdict)
    }
}

/// The session of a worker's opening with this decision.
fn opening_session(history: &History, worker: u32, decision: &Decision) -> u32
    requires few { history.now.count < 2 ^ 32 - 1 }
    requires opened { history.now.opened ≤ history.now.count }
    requires worker { worker < length history.now.seats.items }
    ensures { (setup : Settings) (events : List Event) → IsKept setup events history.now →
        result ≡ opening_session events worker decision.now }
{
    match decision {
        Decision::Permit { .. } => history.opened + 1,
        Decision::Deny { .. } => history.seats[worker as usize].session,
        Decision::Lost => 0,
    }
}

/// The session that an event with this ask and decision has after these.
fn session_after(history: &History, event: &Event) -> u32
    requires few { history.now.count < 2 ^ 32 - 1 }
    requires opened { history.now.opened ≤ history.now.count }
    requires worker { event.now.worker < length history.now.seats.items }
    ensures { (setup : Settings) (events : List Event) → IsKept setup events history.now →
        result ≡ session_of events event.now.worker event.now.ask event.now.decision }
{
    if event.ask.is_begin() {
        opening_session(history, event.worker, &event.decision)
    } else {
        history.seats[event.worker as usize].session
    }
}

/// Whether an event may stand in a log after these.
pub(crate) fn may_follow(setup: &Setup, history: &History, event: &Event) -> bool
    requires kept { HasLog setup.now history.now }
    requires few { history.now.count < 2 ^ 32 - 1 }
    requires shown { without_readings event.now.ask ≡ event.now.ask }
    ensures { (events : List Event) → IsKept setup.now events history.now →
        MatchBool result (MayFollow setup.now events event.now) (MayFollow setup.now events event.now → ⊥) }
{
    event.worker < setup.workers()
        && event.session == session_after(history, event)
        && is_decided(setup, history, event)
}
