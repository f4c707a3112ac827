//! The machine's files, the standard streams, and a log to any writer. Each object counts its faults and
//! tells nothing of the bytes that pass. Its contracts say which count a call works with, and what passes
//! between a reader and a writer that report; that the body makes the right call of the system, no contract
//! can see. `README.md` says what is only tested for that reason.
#![tactic(auto)]

mod ends;
mod files;
mod seen;
mod sink;

pub use ends::RealEnds;
pub use files::RealFiles;
pub use sink::RealSink;
