//! What a journal shows: that nothing was lost and no session ended by a fault, that a user is asked for by
//! one session alone, and how many texts its client was sent before it was logged in.

ghost use Rattle.std.specs.Prelude.{◌≡◌, ◌≢◌, ◌&&◌, true, false, []};
ghost use Rattle.std.specs.List.{list_any};
ghost use Rattle.policy_model.specs.Asks.{accepts};
ghost use Rattle.policy_model.specs.Journal.{has_lost};
ghost use Rattle.service_model.specs.Ends.{is_fault_end};
ghost use Rattle.login_laws.specs.Login.{asks_for};
ghost use Rattle.welcome_laws.specs.Welcome.{tells_client, texts_told};
ghost use Rattle.welcome_rows.specs.Met.{AcceptsAfter, IsAskedAlone, asks_for_other, line_count, stands_in_way};

use crate::lines::line_count;
use crate::serving::Visit;
use policy_model::{Ask, Event, Why, has_lost};
use request_catalogue::Name;

/// Whether a fault of the outside ended a session.
fn is_fault_end(ask: &Ask) -> bool
    ensures { result ≡ is_fault_end ask.now }
{
    match ask {
        Ask::End { why } => matches!(why, Why::LinkFault | Why::KeeperFault | Why::LogLost),
        _ => false,
    }
}

/// Whether a session ended by a fault.
fn has_fault_end(journal: &[Event]) -> bool
    ensures { result ≡ list_any (λ e. is_fault_end e.ask) journal.now }
{
    journal.iter().any(|event| is_fault_end(&event.ask))
}

/// Whether no decision was lost, and no session ended by a fault.
pub fn is_whole(journal: &[Event]) -> bool
    ensures kept { result ≡ true → has_lost journal.now ≡ false }
    ensures unfaulted { result ≡ true → list_any (λ e. is_fault_end e.ask) journal.now ≡ false }
{
    !has_lost(journal) && !has_fault_end(journal)
}

/// Whether an ask is a CHALLENGE for the user.
fn asks_for(user: &Name, ask: &Ask) -> bool
    ensures { result ≡ asks_for user.now ask.now }
{
    match ask {
        Ask::Challenge { user: name, .. } => name.as_slice() == user.as_slice(),
        _ => false,
    }
}

/// Whether an ask is a CHALLENGE for another user.
fn asks_for_other(user: &Name, ask: &Ask) -> bool
    ensures { result ≡ asks_for_other user.now ask.now }
{
    match ask {
        Ask::Challenge { user: name, .. } => name.as_slice() != user.as_slice(),
        _ => false,
    }
}

/// Whether any other user is asked for.
fn asks_for_others(user: &Name, journal: &[Event]) -> bool
    ensures { result ≡ list_any (λ e. asks_for_other user.now e.ask) journal.now }
{
    journal.iter().any(|event| asks_for_other(user, &event.ask))
}

/// Whether nobody else is asked for, where a response was mistyped first.
pub fn asks_only(user: &Name, mistyped: &[u8], journal: &[Event]) -> bool
    ensures { result ≡ true → mistyped.now ≢ []
        → list_any (λ e. asks_for_other user.now e.ask) journal.now ≡ false }
{
    mistyped.is_empty() || !asks_for_others(user, journal)
}

/// Whether an event is of another session and asks for the user, or is an accepted REPLY of this one.
fn stands_in_way(user: &Name, session: u32, event: &Event) -> bool
    ensures { result ≡ stands_in_way user.now session event.now }
{
    (asks_for(user, &event.ask) && event.session != session)
        || (event.accepts() && event.session == session)
}

/// Whether an event stands in the way of one of these that ask for the user.
fn stands_before(user: &Name, event: &Event, later: &[Event]) -> bool
    ensures { result ≡ list_any (λ e. asks_for user.now e.ask && stands_in_way user.now e.session event.now) later.now }
{
    later.iter().any(|next| asks_for(user, &next.ask) && stands_in_way(user, next.session, event))
}

/// Whether a user is asked for by one session alone, and no more once a REPLY of it was accepted. So no other
/// session holds the user then or asks for the user after that.
pub fn asks_alone(user: &Name, journal: &[Event]) -> bool
    ensures { result ≡ true → IsAskedAlone journal.now user.now }
{
    for place in 0..journal.len() {
        if stands_before(user, &journal[place], &journal[place + 1..]) {
            return false;
        }
    }
    true
}

/// Whether an ask is a WRITE to the client.
fn tells_client(ask: &Ask) -> bool
    ensures { result ≡ tells_client ask.now }
{
    matches!(ask, Ask::WriteAt { handle: 0, .. })
}

/// How many times a session asked to write to its client.
fn texts_told(before: &[Event], session: u32) -> usize
    ensures { result ≡ texts_told before.now session }
{
    before
        .iter()
        .filter(|event| event.session == session && tells_client(&event.ask))
        .count()
}

/// Whether an event comes after so many texts to its client, if it is an accepted REPLY.
fn comes_after(texts: usize, before: &[Event], event: &Event) -> bool
    ensures { result ≡ true → accepts event.now ≡ true → texts_told before.now event.now.session ≡ texts }
{
    !event.accepts() || texts_told(before, event.session) == texts
}

/// Whether each accepted REPLY comes after so many texts to its client.
fn accepts_after(texts: usize, journal: &[Event]) -> bool
    ensures { result ≡ true → AcceptsAfter journal.now texts }
{
    for place in 0..journal.len() {
        if !comes_after(texts, &journal[..place], &journal[place]) {
            return false;
        }
    }
    true
}

/// Whether each accepted REPLY comes after a text for each line of a visit's login, if its client wants files
/// then.
pub fn tells_each_line(visit: &Visit, journal: &[Event]) -> bool
    ensures { result ≡ true → visit.now.wants_files ≡ true
        → AcceptsAfter journal.now (line_count visit.now.mistyped) }
{
    !visit.wants_files || accepts_after(line_count(visit.mistyped.as_slice()), journal)
}
