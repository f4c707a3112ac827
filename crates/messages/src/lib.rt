//! What the program says on standard error: why it ends with a status, what a right setup lacks, when it
//! listens, and what a run came to.
//!
//! Each text is a line of its own that begins with `otplogd: `. Nothing here decides what the program does.
#![tactic(auto)]

mod complaint;
mod complaint_line;
mod counts;
mod faults;
mod lacks;
mod notice;
mod setup_fault;
mod setup_line;
mod setup_text;

pub use complaint::Complaint;
pub use complaint_line::complaint_text;
pub use counts::RunCounts;
pub use faults::RunFaults;
pub use lacks::say_lacks;
pub use notice::notice_text;
