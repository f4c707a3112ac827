//! The real file under the durable log, and the log of a run: lines to a writer, or records of a file.
//! Each object counts its faults and tells nothing of the bytes that pass. Nothing here need be
//! believed but what `README.md` says of the machine; the program stands above.
#![tactic(auto)]

mod disk;
mod log;

pub use disk::FileDisk;
pub use log::RealLog;
