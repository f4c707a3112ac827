//! The book: the one history of all events, the core that decides and the log that has a line of each
//! event. Believe `specs/Lines.antt`, what the log holds: a decision stands only once its line is in it.
//! What a book keeps is `Kept`. The runs stand above.
#![tactic(auto)]

mod book;
mod opened;

pub use book::Book;
pub use opened::{Held, Listed, Opened};
