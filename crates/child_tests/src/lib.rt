//! The tests of the children, which stand apart so that no crate waits for them.
#![tactic(auto)]

#[cfg(test)]
mod children;
