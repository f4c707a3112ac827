//! The two child programs that parse the client's lines without any privilege: the child before the
//! login and the user's child. What each asks of the monitor is read off the whole list of replies
//! that it had (`says`), and each request has a cell in the policy's phase table. Believe `specs/Says`
//! with what it names and `specs/Runs`; the program's modes stand above.
#![tactic(auto)]

mod child;
mod command;
mod dialogue;
mod form;
mod frame;
mod line;
mod place;
mod reply;
pub mod rows;
mod run;
mod text;
mod turn;
mod user_command;

pub use child::Child;
pub use run::{ChildEnd, run_child};
pub use turn::Turn;
