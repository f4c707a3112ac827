//! Help, and what a wrong command line is told, by `clap`.
//!
//! Nothing here decides what the program does: arguments that ask for help are answered before the
//! proved calls, and what is wrong with a command line is said after these have refused it.
#![tactic(auto)]

mod command;
mod help;
mod mistake;
mod modes;

pub use help::answer_help;
pub use mistake::mistake_text;
