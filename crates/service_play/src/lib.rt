//! Runs of the mode `serve` in memory: what a run is made of, what came of it, and frames byte by byte.
//! The tests that play stand in crates above, so that no crate waits for them.
#![tactic(auto)]

mod frames;
mod outcome;
mod playing;
mod setups;

pub use frames::{frame, header};
pub use outcome::{chain_in, is_at, lines_of, sent, setup_in, told};
pub use playing::{Came, Play, Session, come, come_with, notes, posts_of, serve};
pub use setups::{ONE, setup_with, word_list};
