//! The mode `drill`: four workers serve a plan made from one number, in memory, by the same run as the
//! mode `serve`, and the counts of its journal are told: how many of its events are sessions, permits,
//! denials by each rule, ends of each kind, and the text that says so. Believe `specs/Words.antt`,
//! `specs/Outcome.antt` and the files that these name; the top call stands above.
#![tactic(auto)]

mod command;
mod counted;
mod drilling;
mod house;
mod posts;
mod run;
mod text;

pub use command::read_drill_command;
pub use counted::{Counted, EndKind};
pub use run::run_drill;
pub use text::counts_text;
