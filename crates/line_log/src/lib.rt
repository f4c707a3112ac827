//! A durable log of lines, each of which is one record. Read its calls by `specs/Kept.antt`;
//! `recovery_law` says what it means for a run, and the program stands above.
#![tactic(auto)]

mod line;
mod log;

pub use line::{LINE_MAX, is_line};
pub use log::LineLog;
