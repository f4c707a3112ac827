//! The core: the policy's decisions over every interleaving of sessions, by what is kept between events,
//! in memory that is taken once. It stands for a journal (`Stands`), and its calls speak of each such
//! journal; the accounts are those of `otp_ledger`, the rows those of `session_table`. Nothing here need
//! be believed; the book stands above.
#![tactic(auto)]

mod deciding;
mod reading;
mod replaying;
mod settling;
mod stand_ins;
mod whole;

pub use replaying::replay;
pub use whole::Core;
