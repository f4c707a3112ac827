use drill_mode::counts_text;
use policy_model::{Ask, Decision, Event, Why};
use std::alloc::{AllocError, Global};
use std::test::*;

/// An event of the first session, permitted.
fn permitted(ask: Ask) -> Event {
    Event {
        worker: 0,
        session: 1,
        ask,
        decision: Decision::Permit { value: 0 },
    }
}

/// An event of the first session, denied by a rule.
fn denied(ask: Ask, rule: u8) -> Event {
    Event {
        worker: 0,
        session: 1,
        ask,
        decision: Decision::Deny { rule, detail: 0 },
    }
}

/// An end of the first session.
fn end(why: Why) -> Event {
    permitted(Ask::End { why })
}

/// A reply that says nothing.
const REPLY: Ask = Ask::Reply {
    words: None,
    hex: None,
};

/// What two sessions and a lost opening come to.
const TEXT: &str = "sessions 2
events 11
permitted 6
denied 4
accepted 1
rule 5 1
rule 15 2
rule 22 1
end truncated 1
end violation 1
";

/// Two sessions, of which the first is truncated and the second breaks a rule, and a lost opening.
fn journal() -> [Event; 11] {
    let lost = Event {
        worker: 0,
        session: 0,
        ask: Ask::Begin,
        decision: Decision::Lost,
    };
    let bad = Ask::Bad { rule: 5, detail: 0 };
    [
        permitted(Ask::Begin),
        denied(REPLY, 15),
        denied(REPLY, 15),
        permitted(REPLY),
        denied(Ask::Banner, 22),
        end(Why::Truncated),
        permitted(Ask::Begin),
        permitted(Ask::Banner),
        denied(bad, 5),
        end(Why::Violation { rule: 5 }),
        lost,
    ]
}

/// Whether a journal's counts are this text.
fn is_counted(alloc: Global, journal: &[Event], want: &str) -> Result<bool, AllocError> {
    Ok(counts_text(alloc, journal)?.as_str() == want)
}

/// The counts of no event.
const NOTHING: &str = "sessions 0\nevents 0\npermitted 0\ndenied 0\naccepted 0\n";

#[test]
fn counts_are_told_where_they_came(rt: HostRuntime) -> Result<(), Fail> {
    assert!(rt; is_counted(rt.alloc(), &journal(), TEXT)?);
    assert!(rt; is_counted(rt.alloc(), &[], NOTHING)?);
    Ok(())
}
