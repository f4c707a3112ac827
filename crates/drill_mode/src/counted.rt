//! What is counted of a journal.

ghost use Rattle.std.specs.Prelude.{◌≡◌, count_by};
ghost use Rattle.drill_mode.specs.Counted.{count_in, is_counted, is_denial, is_denial_by, is_end_of, is_of_kind};
ghost use Rattle.drill_mode.specs.CountsText.{kind_word};

use policy_model::{Ask, Decision, Event, Why};

/// For what kind of reason a session ended.
#[derive(Clone, Copy, PartialEq, Eq)]
pub enum EndKind {
    /// A permitted FINISH was answered.
    Finished,
    /// The child's bytes ended with none left over.
    ChildEnded,
    /// The child's bytes ended within a frame.
    Truncated,
    /// A header's length is out of range.
    BadFrame,
    /// An ask was denied by a rule of 1 to 7.
    Violation,
    /// Receiving from the child or sending to it failed.
    LinkFault,
    /// The child could not be started.
    KeeperFault,
    /// The log could not be written.
    LogLost,
}

impl EndKind {
    /// The kind as it is spelled.
    pub fn word(self) -> &'static str
        ensures { result.now ≡ kind_word self }
    {
        match self {
            EndKind::Finished => "finished",
            EndKind::ChildEnded => "child-ended",
            EndKind::Truncated => "truncated",
            EndKind::BadFrame => "bad-frame",
            EndKind::Violation => "violation",
            EndKind::LinkFault => "link-fault",
            EndKind::KeeperFault => "keeper-fault",
            EndKind::LogLost => "log-lost",
        }
    }

    /// Whether a reason is of this kind.
    fn has(self, why: Why) -> bool
        ensures { result ≡ is_of_kind self why }
    {
        match why {
            Why::Finished => matches!(self, EndKind::Finished),
            Why::ChildEnded => matches!(self, EndKind::ChildEnded),
            Why::Truncated => matches!(self, EndKind::Truncated),
            Why::BadFrame { .. } => matches!(self, EndKind::BadFrame),
            Why::Violation { .. } => matches!(self, EndKind::Violation),
            Why::LinkFault => matches!(self, EndKind::LinkFault),
            Why::KeeperFault => matches!(self, EndKind::KeeperFault),
            Why::LogLost => matches!(self, EndKind::LogLost),
        }
    }
}

/// What is counted of a journal.
#[derive(Clone, Copy, PartialEq, Eq)]
pub enum Counted {
    /// The sessions that were opened.
    Sessions,
    /// All events.
    Events,
    /// The asks that were permitted.
    Permitted,
    /// The asks that were denied.
    Denied,
    /// The replies that were accepted: a password was the right one.
    Accepted,
    /// The asks that this rule denied: 1 to 22.
    Rule(u8),
    /// The ends of this kind.
    End(EndKind),
}

impl Counted {
    /// How many of these a journal has.
    pub fn count_in(self, journal: &[Event]) -> usize
        ensures { result ≡ count_in journal.now self }
    {
        journal.iter().filter(|e| self.counts(e)).count()
    }

    /// Whether an event is one of these.
    fn counts(self, event: &Event) -> bool
        ensures { result ≡ is_counted self event.now }
    {
        match self {
            Counted::Sessions => event.opens(),
            Counted::Events => true,
            Counted::Permitted => event.decision.is_permit(),
            Counted::Denied => is_denial(&event.decision),
            Counted::Accepted => event.accepts(),
            Counted::Rule(rule) => is_denial_by(rule, &event.decision),
            Counted::End(kind) => is_end_of(kind, &event.ask),
        }
    }
}

/// Whether an ask was denied.
fn is_denial(decision: &Decision) -> bool
    ensures { result ≡ is_denial decision.now }
{
    matches!(decision, Decision::Deny { .. })
}

/// Whether an ask was denied by this rule.
fn is_denial_by(rule: u8, decision: &Decision) -> bool
    ensures { result ≡ is_denial_by rule decision.now }
{
    matches!(decision, Decision::Deny { rule: first, .. } if *first == rule)
}

/// Whether an ask ends a session for a reason of this kind.
fn is_end_of(kind: EndKind, ask: &Ask) -> bool
    ensures { result ≡ is_end_of kind ask.now }
{
    matches!(ask, Ask::End { why } if kind.has(*why))
}
