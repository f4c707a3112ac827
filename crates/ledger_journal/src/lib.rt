//! Recovery: the ledger that a stopped run had come to, from the records of its log. Believe
//! `specs/` but for `Spending.antt`, `Images.antt` and `Reads.antt`; the mode `recover` stands above.
#![tactic(auto)]

mod answer;
mod login;
mod passing;
mod reading;
mod records;
mod recovery;
mod spending;

pub use answer::{RecoverError, Recovered};
pub use login::Login;
pub use recovery::recover;
