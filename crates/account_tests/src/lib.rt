//! The tests of the modes that write accounts, which stand apart so that no crate waits for them.
#![tactic(auto)]

#[cfg(test)]
mod enrolments;
#[cfg(test)]
mod files;
#[cfg(test)]
mod recoveries;
#[cfg(test)]
mod renewed_files;
