//! What stands beside a stored function, and why functions can't stand together.

use crate::form::Form;

/// The number of a hook, and what it says of every card.
#[derive(Clone, Copy)]
pub struct Key {
    pub number: u32,
    pub form: Form,
}

/// Why hooks can't stand together.
#[derive(Clone, Copy, PartialEq, Eq)]
pub enum HooksFault {
    /// Two hooks have this number, and no smaller one.
    Twice { number: u32 },
    OutOfMemory,
}
