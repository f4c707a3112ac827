//! What a run came to.

use drill_mode::Counted;
use policy_model::Event;
use std::fmt;

/// What a run came to, in one line: how many sessions were opened, how many replies were accepted, and
/// how many events there were.
#[derive(Clone, Copy)]
pub struct RunCounts {
    sessions: usize,
    logins: usize,
    events: usize,
}

impl RunCounts {
    /// The counts of a run's journal.
    pub fn of(journal: &[Event]) -> RunCounts {
        RunCounts {
            sessions: Counted::Sessions.count_in(journal),
            logins: Counted::Accepted.count_in(journal),
            events: Counted::Events.count_in(journal),
        }
    }
}

impl fmt::Display for RunCounts {
    fn fmt<W: fmt::Write>(&self, f: &mut fmt::Formatter<W>) -> fmt::Result {
        let RunCounts {
            sessions,
            logins,
            events,
        } = *self;
        write!(
            f,
            "otplogd: ended: sessions {sessions}, logins {logins}, events {events}"
        )
    }
}
