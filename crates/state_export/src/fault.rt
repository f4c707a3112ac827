//! Why bytes are no exported state, or no import record.

/// The first fault of an exported state.
#[derive(Clone, Copy, PartialEq, Eq)]
pub enum StateFault {
    /// It does not begin with `OTS1`.
    Magic,
    /// Fewer than the three bytes before a field's content remain.
    Missing,
    /// A field has another tag than the one that is to come.
    Tag,
    /// A field's length is out of its range, or more than what remains.
    Length,
    /// Something stands after the last field.
    Trailing,
}

/// The first fault of an import record.
#[derive(Clone, Copy, PartialEq, Eq)]
pub enum ImportFault {
    /// The user number, the name's length or the name does not read.
    Head,
    /// The state after them does not read.
    State(StateFault),
}
