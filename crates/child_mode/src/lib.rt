//! The modes of the two child programs: `child-pre SESSION` and `child-user SESSION UID NAME`. Each
//! runs its child over the program's own ends. Believe what command lines there are (`specs/Words`) and
//! what came of a run (`specs/Outcome`), with `child_protocol` on what a child says. The top call stands
//! above.
#![tactic(auto)]

mod command;
mod run;

pub use command::{ChildCommand, read_child_command};
pub use run::{ChildRun, run_child_mode};
