//! The setup file that is written at the end of a run: the setup as it was read, with each account's
//! sequence and password as the ledger knows them; and one account's table, to append to such a file.
//! What is believed stands in `specs/CurrentSetup.antt` and `specs/Written.antt`. The modes `serve`,
//! `renew`, `recover` and `enrol` stand above.
#![tactic(auto)]

mod tables;
mod values;
mod writing;

pub use writing::{write_account, write_accounts};
