//! The plan of a drill: the setup of a whole run in memory, and what the children of its four workers say
//! in it, made from one number; and the law by which the journal of such a run is a drill's. What is to be
//! believed stands in `specs/`; the mode `drill` stands above.
#![tactic(auto)]

mod class;
mod early;
mod law;
mod passwords;
mod pen;
mod scripts;
mod setup;
mod user;

pub use class::Class;
pub use law::what_was_planned_is_a_drill;
pub use passwords::{own_algo, own_name, own_passwords, own_seed};
pub use scripts::drill_scripts;
pub use setup::{WORKERS, drill_setup};
