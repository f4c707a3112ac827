//! Responses of RFC 2243, and the renewal of a user's chain of passwords offline. Believe
//! `specs/Responses.antt`, `specs/Renewals.antt`, `specs/Outcome.antt` and the files that these name.
//! The mode `renew` stands above.
#![tactic(auto)]

mod command;
mod cutting;
mod params;
mod renewal;
mod response;
mod run;
mod setup;

pub use command::{RenewCommand, read_renew_command, renewed_line};
pub use renewal::{Renewed, renew};
pub use response::{Response, read_response};
pub use run::{Renewal, receive_renewal};
pub use setup::{parts_with, renewed};
