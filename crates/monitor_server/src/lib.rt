//! The monitor: what it promises of a whole run stands on its top call. Believe `specs/`, and how `World`,
//! `Sides` and `Report` are seen; the program stands above.
#![tactic(auto)]

mod alone;
mod command;
mod modes;
mod report;
mod top;
mod world;

pub use alone::run_alone;
pub use command::{AloneCommand, Command, Unread, read_command};
pub use report::{Answer, Detail, Ended, FEW_REQUESTS, Report};
pub use top::otplogd;
pub use world::{Sides, World};
