//! What an audit answers.

/// Whether a text is a legal log.
#[derive(Clone, Copy, PartialEq, Eq)]
pub enum Audit {
    /// It is one of so many events.
    Yes { events: u32 },
    /// The lines before this one, counted from 1, are a legal log, and with it they are none.
    No { line: u32, why: AuditWhy },
}

/// What is wrong with a line: the first that applies.
#[derive(Clone, Copy, PartialEq, Eq)]
pub enum AuditWhy {
    /// It is no line of a log.
    Text,
    /// Its place is above 1,048,576, or its number isn't its place.
    Count,
    /// The policy doesn't give its event over those before it.
    Event,
}
