//! The tests of the outside in memory, which stand apart so that no crate waits for them.
#![tactic(auto)]

#[cfg(test)]
mod memory;
#[cfg(test)]
mod quiet;
