//! The mode `enrol`: makes a new user's account from a pass phrase, as a table to append to a setup.
//! Believe `specs/Words.antt`, `specs/Outcome.antt` and the files that these name; the top call stands
//! above.
#![tactic(auto)]

mod account;
mod command;
mod run;
mod words;

pub use command::EnrolCommand;
pub use run::run_enrol;
pub use words::read_enrol_command;
