//! A log whose records are on the disk before their append is answered. Believe
//! `specs/Records.antt` and `specs/Journal.antt`; what a crash may leave is read by `specs/Disk.antt`.
#![tactic(auto)]

mod disk;
mod journal;
mod laws;
mod memory;
mod tail;

pub use disk::Disk;
pub use journal::JournalLog;
pub use laws::{
    a_short_append_is_one_record, records_are_read, records_of_a_run_fit, what_is_read_may_be_left,
};
pub use memory::MemDisk;

#[cfg(test)]
mod tests;
