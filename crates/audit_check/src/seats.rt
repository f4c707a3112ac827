//! What a worker's open session has come to, which alone decides most of its asks.

ghost use Rattle.std.specs.Prelude.{◌≡◌, ◌<◌, ◌^◌, ◌-◌};
ghost use Rattle.session_laws.specs.Judged.{closing_decision, opening_decision};
ghost use Rattle.audit_check.specs.Seats.{frame_verdict, is_common, seat_after, seat_verdict};

use policy_model::{Ask, Decision, Event};
use request_catalogue::rules;

/// What a worker's open session has come to.
#[derive(Clone, Copy, PartialEq, Eq)]
pub(crate) struct Seat {
    /// The open session, or 0: then nothing else counts.
    pub(crate) session: u32,
    /// Whether it permits no ask any more.
    pub(crate) over: bool,
    /// How many asks it made besides its opening and its end.
    pub(crate) asks: u32,
}

/// What an event of its worker makes of a seat.
pub(crate) fn seat_after(seat: Seat, event: &Event) -> Seat
    requires { seat.asks < 2 ^ 32 - 1 }
    ensures { result ≡ seat_after event.now seat }
{
    if event.is_turn_of(event.worker) {
        Seat {
            session: if event.ask.is_begin() {
                event.session
            } else {
                0
            },
            over: false,
            asks: 0,
        }
    } else {
        Seat {
            session: seat.session,
            over: seat.over || event.ends_session(),
            asks: seat.asks + u32::from(event.ask.came_by_frame()),
        }
    }
}

/// Whether an ask is permitted in every session that isn't over and has asks left: a READ or WRITE of
/// the client's connection, a NOTE or a FINISH.
pub(crate) fn is_common(ask: &Ask) -> bool
    ensures { result ≡ is_common ask.now }
{
    matches!(
        ask,
        Ask::ReadAt { handle: 0, .. }
            | Ask::WriteAt { handle: 0, .. }
            | Ask::Note { .. }
            | Ask::Finish
    )
}

/// The verdict on an ask that came by a frame, in a session that may make so many, where what the session
/// has come to decides it.
fn judge_frame(requests: u32, seat: Seat, ask: &Ask) -> Option<Decision>
    ensures { result ≡ frame_verdict requests seat ask.now }
{
    if seat.session == 0 || seat.over {
        Some(Decision::deny(rules::NOT_IN_PHASE, ask.number()))
    } else if seat.asks == requests {
        Some(Decision::deny(rules::ASKS_SPENT, requests))
    } else if is_common(ask) {
        Some(Decision::Permit { value: 0 })
    } else {
        None
    }
}

/// The verdict on an opening, where so many sessions were opened.
fn judge_opening(opened: u32, seat: Seat) -> Decision
    ensures { result ≡ opening_decision seat.session opened }
{
    if seat.session == 0 {
        Decision::Permit {
            value: u64::from(opened) + 1,
        }
    } else {
        Decision::deny(rules::NOT_IN_PHASE, 0)
    }
}

/// The verdict on an end.
fn judge_end(seat: Seat) -> Decision
    ensures { result ≡ closing_decision seat.session }
{
    if seat.session == 0 {
        Decision::deny(rules::NOT_IN_PHASE, 0)
    } else {
        Decision::Permit { value: 0 }
    }
}

/// The verdict on an ask where a session may make `requests`, and `opened` sessions were opened, if what
/// the worker's open session has come to decides it: on an opening and an end, on any ask without a
/// session, in one that is over or has made all its asks, and on a common ask.
pub(crate) fn judge_by_seat(requests: u32, opened: u32, seat: Seat, ask: &Ask) -> Option<Decision>
    ensures { result ≡ seat_verdict requests opened seat ask.now }
{
    if ask.is_begin() {
        Some(judge_opening(opened, seat))
    } else if ask.is_end() {
        Some(judge_end(seat))
    } else {
        judge_frame(requests, seat, ask)
    }
}
