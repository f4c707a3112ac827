//! The mode `renew`: a user's new chain of passwords is written into the setup file, by a response that
//! proves the old one. Believe `specs/Outcome.antt` and the files that it names. The top call stands
//! above.
#![tactic(auto)]

mod basis;
mod run;
mod texts;

pub use run::run_renew;
