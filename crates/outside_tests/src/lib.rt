//! The tests of the machine's outside, which stand apart so that no crate waits for them.
#![tactic(auto)]

#[cfg(test)]
mod files;
#[cfg(test)]
mod real;
