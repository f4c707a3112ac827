//! The session table: what the policy knows of the sessions that are open, in memory that is taken
//! once. Each worker has a row while it has a session: the phase, which kinds of requests were
//! permitted, how many asks were made and replies denied, whose account it is, and the files that are
//! open. Nothing here need be believed; the core stands above.
#![tactic(auto)]

mod bits;
mod handles;
mod judging;
mod rows;
mod table;

pub use bits::Bits;
pub use handles::{Handles, LiveHandle, find_grant};
pub use rows::{SessionRow, is_use};
pub use table::Table;
