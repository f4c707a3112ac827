//! The tests of the log's lines, of what audits them, of what they bring back and of logs on a disk, which
//! stand apart so that no crate waits for them.
#![tactic(auto)]

#[cfg(test)]
mod audits;
#[cfg(test)]
mod disks;
#[cfg(test)]
mod fresh_images;
#[cfg(test)]
mod line_logs;
#[cfg(test)]
mod log_lines;
#[cfg(test)]
mod real_logs;
#[cfg(test)]
mod recoveries;
#[cfg(test)]
mod tallies;
