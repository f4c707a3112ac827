//! What goes wrong with a mode of the program, by one enum, and the exit status of each. Believe
//! `specs/Status.antt` and `specs/Reading.antt`; the modes stand above.
#![tactic(auto)]

mod response;
mod trouble;

pub use response::{LineFault, RenewFault, ResponseFault};
pub use trouble::{FileKind, LogFault, ServeFault, Trouble, status_of};
