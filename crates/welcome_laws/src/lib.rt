//! The user gets in: the law by which the shipped children tell a client `welcome NAME` that asks for a
//! user and responds with the user's next password, and then do what it asks of its files, whatever the
//! cuts and the width of the frames are.
//! Believe `specs/`.
#![tactic(auto)]

mod laws;

pub use laws::{users_are_served, users_are_welcomed};
