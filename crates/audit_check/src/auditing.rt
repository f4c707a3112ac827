//! The audit of a log.

ghost use Rattle.std.specs.Prelude.{◌≡◌, ◌≤◌, ◌+◌, ◌<◌, ◌==◌, IfOk, List, length, take, MatchResult};
ghost use Rattle.std.specs.List.{position_or_len};
ghost use Rattle.policy_model.specs.declared.event.Event.{Event};
ghost use Rattle.policy_model.specs.Journal.{kept_events};
ghost use Rattle.decision_log.specs.Log.{log_text};
ghost use Rattle.audit_check.specs.Written.{IsJournalOf};
ghost use Rattle.audit_check.specs.History.{HasLog, IsKept};
ghost use Rattle.audit_check.specs.Legal.{MayFollow};
ghost use Rattle.audit_check.specs.Said.{IsAnswer, IsFault, Says, first_line};

use crate::answer::{Audit, AuditWhy};
use crate::following::may_follow;
use crate::history::History;
use crate::said::event_said;
use decision_log::read_line;
use memchr::memchr;
use policy_model::{EVENTS_LIMIT, Event, Setup};
use std::alloc::{AllocError, Global};

/// Where the first newline of a text stands, or the text's length.
fn newline_at(text: &[u8]) -> usize
    ensures at { result ≡ position_or_len (λ c. c == 10) text.now }
    ensures within { result ≤ length text.now }
{
    match memchr(b'\n', text) {
        None => text.len(),
        Some(at) => at,
    }
}

/// How long the first line of a text is, with its newline.
fn line_len(text: &[u8]) -> usize
    ensures line { take result text.now ≡ first_line text.now }
    ensures within { result ≤ length text.now }
    ensures some { 1 ≤ length text.now → 1 ≤ result }
{
    let at = newline_at(text);
    if at < text.len() { at + 1 } else { text.len() }
}

/// The event of a line that stands after these, or what is wrong with it.
fn next_event(setup: &Setup, history: &History, line: &[u8]) -> Result<Event, AuditWhy>
    requires { HasLog setup.now history.now }
    ensures { MatchResult result
        (λ e. (history.now.count < EVENTS_LIMIT) × Says (history.now.count + 1) line.now e
        × ((events : List Event) → IsKept setup.now events history.now → MayFollow setup.now events e))
        (λ why. (events : List Event) → IsKept setup.now events history.now → IsFault setup.now events line.now why) }
{
    if history.count >= EVENTS_LIMIT {
        return Err(AuditWhy::Count);
    }
    let Ok(logged) = read_line(line) else {
        return Err(AuditWhy::Text);
    };
    if logged.number != history.count + 1 {
        return Err(AuditWhy::Count);
    }
    let event = event_said(&logged);
    if may_follow(setup, history, &event) {
        Ok(event)
    } else {
        Err(AuditWhy::Event)
    }
}

/// Reads a text to its end, or to the first line that doesn't stand in a legal log.
fn read_log(alloc: Global, setup: &Setup, text: &[u8]) -> Result<Audit, AllocError>
    ensures { IfOk result (IsAnswer setup.now text.now) }
{
    let mut history = History::new(alloc, setup)?;
    let mut rest = text;
    while !rest.is_empty() {
        let (line, behind) = rest.split_at(line_len(rest));
        match next_event(setup, &history, line) {
            Ok(event) => history.push(setup, event)?,
            Err(why) => {
                return Ok(Audit::No {
                    line: history.count + 1,
                    why,
                });
            }
        }
        rest = behind;
    }
    Ok(Audit::Yes {
        events: history.count,
    })
}

/// Whether a text is a legal log of a run with this setup.
///
/// # Errors
///
/// There isn't the memory.
pub fn audit(alloc: Global, setup: &Setup, text: &[u8]) -> Result<Audit, AllocError>
    // The text is a legal log of so many events, or the lines before the first at which it isn't one are.
    ensures said { IfOk result (IsAnswer setup.now text.now) }
    // Nothing else is true of it.
    ensures exact { (answer : Audit) → IsAnswer setup.now text.now answer → IfOk result (λ a. a ≡ answer) }
    // The text of each run's journal is a legal log of its events that were not lost.
    ensures runs { (journal : List Event) → IsJournalOf setup.now journal → text.now ≡ log_text journal →
        IfOk result (λ a. a ≡ Audit.Yes (length (kept_events journal))) }
{
    read_log(alloc, setup, text)
}
