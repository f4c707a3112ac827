//! Files that are read up to a limit, and the word lists that stand in them. Believe
//! `specs/Lists.antt`; all that reads files whole stands above.
#![tactic(auto)]

mod front;
mod list;

pub use front::{FrontError, read_front};
pub use list::{ListError, read_list};
