//! The mode `check`: an operator asks whether a setup file and its word list are right. Believe
//! `specs/Words.antt`, `specs/Outcome.antt` and the files that these name; the top call stands above.
#![tactic(auto)]

mod command;
mod finding;
mod line;
mod run;

pub use command::read_check_command;
pub use finding::Finding;
pub use run::run_check;
