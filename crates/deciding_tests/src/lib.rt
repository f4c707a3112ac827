//! The tests of ledger, session table and core, which stand apart so that no crate waits for them.
#![tactic(auto)]

#[cfg(test)]
mod asked;
#[cfg(test)]
mod cores;
#[cfg(test)]
mod ledgers;
#[cfg(test)]
mod said;
#[cfg(test)]
mod tables;
