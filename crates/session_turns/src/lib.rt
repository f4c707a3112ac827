//! A worker's turns at the book that all workers share. Whoever serves a session sees of the others
//! only that the journal may have grown by their events since (`Joins`), and that these say nothing of
//! its own session (`SessionStays`). Nothing here need be believed; the session loop stands above.
#![tactic(auto)]

mod at_cell;
mod book_cell;
mod laws;
mod turns;

pub use at_cell::{AtCell, SeenCell, SeenPass, ask_once, call_cell};
pub use book_cell::{close_cell, open_cell};
pub use laws::{new_passes_may_ask, places_are_of_all};
pub use turns::Turns;
