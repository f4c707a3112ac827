//! The sessions of a worker, served one after the other over the connections that come to its post.
//! Read `child.rt` first. Nothing here need be believed; the run stands above.
#![tactic(auto)]

mod child;
mod desk;
mod ending;
mod session;
mod worker;

pub use child::serve_child;
pub use desk::Desk;
pub use session::run_session;
pub use worker::{WorkerEnd, serve_worker};
