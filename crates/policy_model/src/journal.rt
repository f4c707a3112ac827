//! What can be read off the one list of all events.

ghost use Rattle.std.specs.Prelude.{◌≡◌, ◌==◌, ◌&&◌, ◌≤◌, if◌then◌else◌, length};
ghost use Rattle.std.specs.List.{list_any};
ghost use Rattle.policy_model.specs.Asks.{accepts, ends_session, exports, is_denied_reply, is_login_step, opens};
ghost use Rattle.policy_model.specs.Asks.{permits_kind, takes};
ghost use Rattle.policy_model.specs.Journal.{ask_count, count_of, has_event, has_lost, last_event, open_session_of};
ghost use Rattle.policy_model.specs.Journal.{openings_of};
ghost use Rattle.policy_model.specs.Cases.{opened_after, is_taking};
ghost use Rattle.policy_model.specs.Phases.{is_over, phase_of};

use crate::event::Event;
use crate::phase::Phase;
use request_catalogue::Kind;

/// The open session after one more event.
fn opened_after(session: u32, event: &Event, worker: u32) -> u32
    ensures { result ≡ opened_after worker session event.now }
{
    if !event.is_turn_of(worker) {
        session
    } else if event.ask.is_begin() {
        event.session
    } else {
        0
    }
}

/// The worker's open session, or 0.
pub fn open_session(journal: &[Event], worker: u32) -> u32
    ensures { result ≡ open_session_of journal.now worker }
{
    let mut session = 0;
    for event in journal {
        session = opened_after(session, event, worker);
    }
    session
}

/// How many asks the session has made besides its opening and its end.
pub(crate) fn asks(journal: &[Event], session: u32) -> usize
    ensures { result ≡ ask_count journal.now session }
{
    journal
        .iter()
        .filter(|e| e.session == session)
        .filter(|e| e.ask.came_by_frame())
        .count()
}

/// How many sessions were opened.
pub(crate) fn openings(journal: &[Event]) -> usize
    ensures value { result ≡ openings_of journal.now }
    ensures bound { result ≤ length journal.now }
{
    journal.iter().filter(|e| e.opens()).count()
}

/// Whether some decision was lost.
pub fn has_lost(journal: &[Event]) -> bool
    ensures { result ≡ has_lost journal.now }
{
    journal.iter().any(|e| e.decision.is_lost())
}

/// Whether some event of the session opens it.
fn was_opened(journal: &[Event], session: u32) -> bool
    ensures { result ≡ has_event journal.now session opens }
{
    journal.iter().any(|e| e.session == session && e.opens())
}

/// Whether some event of the session ends it.
fn has_ended(journal: &[Event], session: u32) -> bool
    ensures { result ≡ has_event journal.now session ends_session }
{
    journal
        .iter()
        .any(|e| e.session == session && e.ends_session())
}

/// Whether the session permits no ask any more, or never did.
pub(crate) fn is_over(journal: &[Event], session: u32) -> bool
    ensures { result ≡ is_over journal.now session }
{
    !was_opened(journal, session) || has_ended(journal, session)
}

/// Whether the session has a permitted EXPORT.
fn has_exported(journal: &[Event], session: u32) -> bool
    ensures { result ≡ has_event journal.now session exports }
{
    journal.iter().any(|e| e.session == session && e.exports())
}

/// Whether the session has a permitted REPLY.
fn has_accepted(journal: &[Event], session: u32) -> bool
    ensures { result ≡ has_event journal.now session accepts }
{
    journal.iter().any(|e| e.session == session && e.accepts())
}

/// Whether the session has a permitted request of the kind.
pub(crate) fn has_permitted(journal: &[Event], session: u32, kind: Kind) -> bool
    ensures { result ≡ has_event journal.now session (permits_kind kind) }
{
    journal
        .iter()
        .any(|e| e.session == session && e.permits_kind(kind))
}

/// How many replies of the session were denied by rules 13 to 16.
pub(crate) fn denied_replies(journal: &[Event], session: u32) -> usize
    ensures { result ≡ count_of journal.now session is_denied_reply }
{
    journal
        .iter()
        .filter(|e| e.session == session && e.is_denied_reply())
        .count()
}

/// The event where it passes, else the one that passed last.
pub(crate) fn later(last: Option<Event>, event: &Event, passes: bool) -> Option<Event>
    ensures { result ≡ (if passes then Some event.now else last) }
{
    if passes { Some(*event) } else { last }
}

/// The session's last permitted CHALLENGE.
pub(crate) fn last_taking(journal: &[Event], session: u32) -> Option<Event>
    ensures { result ≡ last_event journal.now session takes }
{
    let mut last = None;
    for event in journal {
        last = later(last, event, event.is_taking_of(session));
    }
    last
}

/// The last event by which the session took a user or gave one up.
fn last_login_step(journal: &[Event], session: u32) -> Option<Event>
    ensures { result ≡ last_event journal.now session is_login_step }
{
    let mut last = None;
    for event in journal {
        last = later(last, event, event.is_login_step_of(session));
    }
    last
}

/// Whether the session's last login step takes a user.
fn is_challenged(journal: &[Event], session: u32) -> bool
    ensures { result ≡ is_taking (last_event journal.now session is_login_step) }
{
    match last_login_step(journal, session) {
        None => false,
        Some(event) => event.takes(),
    }
}

/// The phase of a session.
#[tactic(auto, unfolding(crate::specs::Phases::phase_of))]
pub(crate) fn phase(journal: &[Event], session: u32) -> Phase
    ensures { result ≡ phase_of journal.now session }
{
    if is_over(journal, session) {
        Phase::Over
    } else if has_exported(journal, session) {
        Phase::User
    } else if has_accepted(journal, session) {
        Phase::Verified
    } else if is_challenged(journal, session) {
        Phase::Challenged
    } else {
        Phase::Pre
    }
}
