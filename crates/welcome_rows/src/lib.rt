//! That a user can get in and is served files, by example: a login in memory, and for each premise of the laws
//! `users_are_welcomed` and `users_are_served` a function that decides it by the journal and by what the posts tell.
//! They are read by `specs/Shown.antt`. The logins themselves are tests of `login_tests`.
#![tactic(auto)]

mod client;
mod house;
mod journal;
mod lines;
mod login;
mod serving;
mod shipped;
mod showing;
mod user;

pub use client::{are_few, client_says, comings, files_go_well};
pub use house::House;
pub use journal::{asks_alone, asks_only, is_whole, tells_each_line};
pub use lines::{are_typed, visit_lines};
pub use login::{log_in, visit_of};
pub use serving::{Served, Visit, serve};
pub use shipped::are_shipped;
pub use showing::{gets_in, is_met_in_acts, is_met_in_journal};
pub use user::can_log_in;
