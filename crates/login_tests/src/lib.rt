//! The tests of whole logins, which stand apart so that no crate waits for them.
#![tactic(auto)]

#[cfg(test)]
mod failing;
#[cfg(test)]
mod files;
#[cfg(test)]
mod logins;
#[cfg(test)]
mod unwelcomed;
#[cfg(test)]
mod welcomes;
