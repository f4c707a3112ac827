//! The mode `recover`: what a durable log has is written into the setup's file, and the log begins
//! anew. Believe `specs/Words.antt`, `specs/Outcome.antt`, `specs/Returning.antt` and the files that
//! these name. The top call stands above.
#![tactic(auto)]

mod basis;
mod command;
mod line;
mod run;
mod texts;

pub use command::{RecoverCommand, read_recover_command};
pub use line::Recovery;
pub use run::run_recover;
