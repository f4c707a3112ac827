//! What is found of a setup.

/// What the mode `check` finds of a setup that is right, with its word list.
#[derive(Clone, Copy, PartialEq, Eq)]
pub struct Finding {
    /// How many accounts it has, 0 to 1,024.
    pub accounts: usize,
    /// How many workers, 1 to 64.
    pub workers: u32,
    /// How many requests a session may make, 8 to 4,096.
    pub requests: u32,
}
