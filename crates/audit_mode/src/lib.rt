//! The mode `audit`: an operator asks whether a log is one that a monitor with this setup could have
//! written. Believe `specs/Words.antt`, `specs/Outcome.antt` and the files that these name. The top
//! call stands above.
#![tactic(auto)]

mod command;
mod line;
mod run;
mod text;

pub use command::{AuditCommand, read_audit_command};
pub use run::{run_audit, status};
