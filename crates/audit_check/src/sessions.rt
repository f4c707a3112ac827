//! What a worker's open session did, by the worker's events since it was opened.

ghost use Rattle.std.specs.Prelude.{◌≡◌, ◌≢◌, ◌<◌, ◌&&◌, ◌==◌, List, Some, length, if◌then◌else◌};
ghost use Rattle.policy_model.specs.declared.event.Event.{Event};
ghost use Rattle.policy_model.specs.Asks.{takes};
ghost use Rattle.policy_model.specs.Journal.{is_own, last_event, open_session_of};
ghost use Rattle.policy_model.specs.Cases.{is_decoy, user_named};
ghost use Rattle.policy_model.specs.Settings.{Settings};
ghost use Rattle.audit_check.specs.Following.{IsRecent};
ghost use Rattle.audit_check.specs.History.{IsKept};

use crate::history::History;
use policy_model::{DECOYS_FROM, Event, open_session};
use request_catalogue::Name;

/// The worker's events from its last permitted opening or end on: all that its open session did.
pub(crate) fn recent(history: &History, worker: u32) -> &[Event]
    requires { worker < length history.now.recent.items }
    ensures { (setup : Settings) (events : List Event) → IsKept setup events history.now
        → IsRecent result.now worker events }
{
    history.recent[worker as usize].as_slice()
}

/// The session's last permitted CHALLENGE, after one more event.
fn later(last: Option<Event>, event: &Event, session: u32) -> Option<Event>
    ensures { result ≡ (if is_own session takes event.now then Some event.now else last) }
{
    if event.session == session && event.takes() {
        Some(*event)
    } else {
        last
    }
}

/// The session's last permitted CHALLENGE.
fn last_taking(events: &[Event], session: u32) -> Option<Event>
    ensures { result ≡ last_event events.now session takes }
{
    let mut last = None;
    for event in events {
        last = later(last, event, session);
    }
    last
}

/// Whether a taking is there and names a decoy.
pub(crate) fn is_decoy(taking: &Option<Event>) -> bool
    ensures { result ≡ is_decoy taking.now }
{
    match taking {
        None => false,
        Some(event) => event.decision.value() >= DECOYS_FROM,
    }
}

/// The user that a taking names.
pub(crate) fn user_named(taking: &Option<Event>) -> Option<Name>
    ensures { result ≡ user_named taking.now }
{
    match taking {
        None => None,
        Some(event) => event.ask.challenge_name(),
    }
}

/// The last permitted CHALLENGE of the worker's open session.
pub(crate) fn login_of(history: &History, worker: u32) -> Option<Event>
    requires { worker < length history.now.recent.items }
    ensures { (setup : Settings) (events : List Event) → IsKept setup events history.now → open_session_of events worker
        ≢ 0 →
        result ≡ last_event events (open_session_of events worker) takes }
{
    let recent = recent(history, worker);
    last_taking(recent, open_session(recent, worker))
}
