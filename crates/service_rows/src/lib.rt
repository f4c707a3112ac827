//! What the shipped children say, and a whole login by them. The tests that play it stand in crates
//! above, so that no crate waits for them.
#![tactic(auto)]

mod children;
mod login;

pub use children::said_by_shipped;
pub use login::{CLIENT, Login, Said, log_in};
