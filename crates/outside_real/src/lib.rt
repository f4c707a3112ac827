//! The real outside: a Unix socket, child programs, files, standard input and output, and a log to any
//! writer. Each object counts its faults and tells nothing of the bytes that pass. Its contracts say which
//! path, which command and which count a call works with; that the body then makes the right call of the
//! system with it, no contract can see. `README.md` says what is only tested for that reason; the program
//! stands above.
#![tactic(auto)]

mod limits;
mod look;
mod post;
mod site;
mod stream;
mod vault;

pub use limits::Limits;
pub use post::RealPost;
pub use site::{ListenFailure, Notice, RealSite};
pub use stream::{RealStream, close, launch};
