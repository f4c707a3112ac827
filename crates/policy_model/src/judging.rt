//! A plain judge: the verdict on an ask, found by looking through the whole list of events.

ghost use Rattle.std.specs.Prelude.{◌≡◌, ◌<◌, ◌^◌, ◌-◌, Some, true, length};
ghost use Rattle.policy_model.specs.Asks.{is_proper, kind_of};
ghost use Rattle.policy_model.specs.Legal.{event_with, session_of};
ghost use Rattle.policy_model.specs.Verdict.{IsVerdict, own_verdict, request_verdict, verdict_of};
ghost use Rattle.policy_model.specs.Cases.{table_verdict};

use crate::event::{Ask, Decision, Event};
use crate::journal::{asks, has_permitted, is_over, open_session, openings, phase};
use crate::setup::Setup;
use crate::table::row;
use crate::verdict::judge_kind;
use request_catalogue::{Kind, rules};

/// The verdict of the phase table on a request of a kind: rules 6 and 7, then the kind's own.
fn judge_row(setup: &Setup, journal: &[Event], session: u32, ask: &Ask, kind: Kind) -> Decision
    ensures { result ≡ table_verdict setup.now journal.now session ask.now (Some kind) }
{
    let row = row(phase(journal, session), kind);
    if !row.permitted {
        Decision::deny(rules::NOT_IN_PHASE, ask.number())
    } else if row.once && has_permitted(journal, session, kind) {
        Decision::deny(rules::ONCE_ONLY, ask.number())
    } else {
        judge_kind(setup, journal, session, ask)
    }
}

/// The verdict on an ask of a session that isn't over and has asks left.
fn judge_own(setup: &Setup, journal: &[Event], session: u32, ask: &Ask) -> Decision
    ensures { result ≡ own_verdict setup.now journal.now session ask.now }
{
    if let Ask::Bad { rule, detail } = *ask {
        return Decision::Deny { rule, detail };
    }
    match ask.kind() {
        None => Decision::Permit { value: 0 },
        Some(kind) => judge_row(setup, journal, session, ask, kind),
    }
}

/// The verdict on an ask other than an opening and an end, of the worker's open session or 0.
fn judge_request(setup: &Setup, journal: &[Event], session: u32, ask: &Ask) -> Decision
    ensures { result ≡ request_verdict setup.now journal.now session ask.now }
{
    let requests = setup.requests();
    if session == 0 || is_over(journal, session) {
        return Decision::deny(rules::NOT_IN_PHASE, ask.number());
    }
    if asks(journal, session) == requests as usize {
        return Decision::deny(rules::ASKS_SPENT, requests);
    }
    judge_own(setup, journal, session, ask)
}

/// The verdict on an ask in the session that the worker has open.
#[tactic(auto, unfolding(crate::specs::Verdict::verdict_of))]
fn judge_worker(setup: &Setup, journal: &[Event], worker: u32, ask: &Ask) -> Decision
    ensures { result ≡ verdict_of setup.now journal.now worker ask.now }
{
    let session = open_session(journal, worker);
    match ask {
        Ask::Begin if session == 0 => Decision::Permit {
            value: openings(journal) as u64 + 1,
        },
        Ask::End { .. } if session != 0 => Decision::Permit { value: 0 },
        Ask::Begin | Ask::End { .. } => Decision::deny(rules::NOT_IN_PHASE, 0),
        _ => judge_request(setup, journal, session, ask),
    }
}

/// The verdict on an ask of a worker after a list of events, legal or not: the first rule that
/// applies, or a permit with its value. It never answers `Lost`.
pub fn judge(setup: &Setup, journal: &[Event], worker: u32, ask: &Ask) -> Decision
    ensures verdict { result ≡ verdict_of setup.now journal.now worker ask.now }
    ensures decided { is_proper ask.now ≡ true → IsVerdict result }
{
    judge_worker(setup, journal, worker, ask)
}

/// The session of an event that follows the journal: of a permitted opening the next number, of a
/// lost one 0, and else the worker's open session or 0.
#[tactic(auto, unfolding(crate::specs::Legal::session_of))]
fn next_session(journal: &[Event], worker: u32, ask: &Ask, decision: &Decision) -> u32
    requires { length journal.now < 2 ^ 32 - 1 }
    ensures { result ≡ session_of journal.now worker ask.now decision.now }
{
    match (ask, decision) {
        (Ask::Begin, Decision::Permit { .. }) => openings(journal) as u32 + 1,
        (Ask::Begin, Decision::Lost) => 0,
        _ => open_session(journal, worker),
    }
}

/// The event of a worker with this ask and decision, to follow the journal.
pub fn event_after(journal: &[Event], worker: u32, ask: &Ask, decision: &Decision) -> Event
    requires { length journal.now < 2 ^ 32 - 1 }
    ensures { result ≡ event_with journal.now worker ask.now decision.now }
{
    Event {
        worker,
        session: next_session(journal, worker, ask, decision),
        ask: *ask,
        decision: *decision,
    }
}
