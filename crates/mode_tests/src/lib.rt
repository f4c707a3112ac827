//! The tests of the modes `otp`, `check` and `audit`, of new chains, of the children's modes and of the counts,
//! which stand apart so that no crate waits for them.
#![tactic(auto)]

#[cfg(test)]
mod audits;
#[cfg(test)]
mod checks;
#[cfg(test)]
mod child_commands;
#[cfg(test)]
mod counts;
#[cfg(test)]
mod files;
#[cfg(test)]
mod passwords;
#[cfg(test)]
mod renewals;
