//! The tests of runs of the mode `serve`, which stand apart so that no crate waits for them.
#![tactic(auto)]

#[cfg(test)]
mod beside;
#[cfg(test)]
mod hostile;
#[cfg(test)]
mod statuses;
