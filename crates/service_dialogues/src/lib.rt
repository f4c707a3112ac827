//! The whole service request by request: worked sessions with the reply to each request and each line
//! of the log, byte by byte. All but what tells whether the children were told so is tests.
#![tactic(auto)]

mod dialogue;

pub use dialogue::{Dialogue, Side, are_told};

#[cfg(test)]
mod tests;
