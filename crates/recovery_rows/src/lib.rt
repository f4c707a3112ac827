//! The durable log by example: a whole login on a disk that stops, and what recovery makes of it. All but
//! how a row's files are recovered is tests, which stand apart so that no crate waits for them.
#![tactic(auto)]

mod recovering;

pub use recovering::{Came, recover_files};

#[cfg(test)]
mod tests;
