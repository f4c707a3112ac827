//! The mode `serve`: a setup and its word list are read, their workers serve, and the accounts are
//! written back. Believe `specs/Headline.antt` and the files that it names. The top call stands above.
#![tactic(auto)]

mod accounts;
mod command;
mod house;
mod reading;
mod run;
mod serving;

pub use command::{ServeCommand, read_serve_command};
pub use run::{Served, run_serve};
