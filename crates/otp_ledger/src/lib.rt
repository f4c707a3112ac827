//! The ledger: what the policy knows of each account between events, in memory that is taken once.
//! Contracts see each account's accepted passwords in the order of acceptance, its sequence, who took
//! it last and when, and who holds it. Accepted passwords and names are found by halves. Believe
//! `specs/Accounts.antt`; the core, recovery and the account writer stand above.
#![tactic(auto)]

mod judging;
mod kept;
mod ledger;
mod merging;
mod mixing;
mod names;
mod passwords;
mod places;
mod rows;

pub use kept::Kept;
pub use ledger::{Current, Ledger};
pub use mixing::mixed;
