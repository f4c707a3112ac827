//! The keeper of a session's children: the one before the login, and the user's, which is started by a
//! ticket alone. A ticket is made from a permitted EXPORT, and is spent by the start. Nothing here need
//! be believed; the session loop stands above.
#![tactic(auto)]

mod fault;
mod launch;
mod laws;
mod link;
mod start;
mod ticket;

pub use fault::KeeperFault;
pub use launch::{PRE_MODE, USER_MODE, launch_words};
pub use laws::{exports_hand_to_the_verified_user, no_child_outlives_a_fault};
pub use link::{LiveChild, PreLink, UserLink};
pub use start::{finish_pre, finish_user, start_pre, start_user};
pub use ticket::UserTicket;
