//! The files that a session has open.

ghost use Rattle.std.specs.Prelude.{◌≡◌, ◌≤◌, ◌&&◌, is_none, length, not};
ghost use Rattle.std.specs.List.{list_any};
ghost use Rattle.policy_model.specs.Asks.{closes_file, opens_file};
ghost use Rattle.policy_model.specs.Cases.{handle_of};
ghost use Rattle.policy_model.specs.Handles.{free_handle_of, live_handles_of, handle_opening};
ghost use Rattle.policy_model.specs.Journal.{events_of, is_own};

use crate::event::Event;

/// The numbers that handles have.
pub const HANDLE_NUMBERS: [u64; 8] = [1, 2, 3, 4, 5, 6, 7, 8];

/// Whether the session closes the handle in these events.
fn is_closed(events: &[Event], session: u32, handle: u64) -> bool
    ensures { result ≡ list_any (is_own session (closes_file handle)) events.now }
{
    events
        .iter()
        .any(|e| e.session == session && e.closes_file(handle))
}

/// Whether an event opened a handle of the session that no event after it closes.
fn is_live(event: &Event, behind: &[Event], session: u32) -> bool
    ensures { result ≡ (is_own session opens_file event.now
        && not (list_any (is_own session (closes_file (handle_of event.now))) behind.now)) }
{
    event.session == session && event.opens_file() && !is_closed(behind, session, event.handle())
}

/// How many handles of the session are live.
pub(crate) fn count_live(journal: &[Event], session: u32) -> usize
    ensures { result ≡ length (live_handles_of journal.now session) }
{
    let mut count = 0;
    for (i, event) in journal.iter().enumerate() {
        if is_live(event, &journal[i + 1..], session) {
            count += 1;
        }
    }
    count
}

/// The event that opened a live handle of the session.
pub(crate) fn opening(journal: &[Event], session: u32, handle: u64) -> Option<Event>
    ensures { result ≡ handle_opening journal.now session handle }
{
    for (i, event) in journal.iter().enumerate() {
        if is_live(event, &journal[i + 1..], session) && event.handle() == handle {
            return Some(*event);
        }
    }
    None
}

/// Whether a handle of the session isn't live.
fn is_free(journal: &[Event], session: u32, handle: u64) -> bool
    ensures { result ≡ is_none (handle_opening journal.now session handle) }
{
    opening(journal, session, handle).is_none()
}

/// The least handle of 1 to 8 that isn't live, or 0 where all are.
pub(crate) fn free_handle(journal: &[Event], session: u32) -> u64
    ensures { result ≡ free_handle_of journal.now session }
{
    for handle in &HANDLE_NUMBERS {
        if is_free(journal, session, *handle) {
            return *handle;
        }
    }
    0
}
