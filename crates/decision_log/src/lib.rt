//! The log's lines, written and read: one for each event whose decision was not lost. Believe
//! `specs/` but for `Logged.antt` and `LineTexts.antt`; the book and the audit stand above.
#![tactic(auto)]

mod logged;
mod parts;
mod readers;
mod reading;
mod typed;
mod words;
mod writing;

pub use logged::{LineFault, Logged, LoggedAsk};
pub use reading::read_line;
pub use typed::is_typed;
pub use writing::line;
