//! Calls of the system, with the care that each takes: files that are opened once, replaced safely or locked,
//! users' files, folders, a socket and its lock, peers that may not keep anybody waiting, and standard error
//! that makes nobody wait. No contract says what a call does to the machine, and little else is said of
//! them here: the objects that meet the traits of `outside` stand above.
#![tactic(auto)]

mod again;
mod clock;
pub mod counted;
mod ending;
mod folders;
mod log_stderr;
mod named;
mod patience;
mod reading;
mod replacing;
mod seat;
pub mod socket;
mod standard;
mod users_files;

pub use again::{fill, read_again};
pub use clock::PostClock;
pub use ending::has_ended;
pub use folders::{has_folder, is_folder, is_launcher};
pub use log_stderr::LogStderr;
pub use named::{Found, Identity, leads_to, open_alone};
pub use patience::{Patience, read_within, write_within};
pub use reading::{Reading, found_by, reading_at};
pub use replacing::replace_file;
pub use seat::Seat;
pub use standard::fill_standard_streams;
pub use users_files::{read_users_file, write_users_file};
