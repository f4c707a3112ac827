//! Files that are read once, before a run, and kept. They tell what was read, so that the clauses on what
//! stands in files say of the real files too by which setup a run serves. Believe `specs/Kept.antt`; the
//! program stands above.
#![tactic(auto)]

mod files;
mod setup;
mod shelf;

pub use files::KeptFiles;
pub use setup::{keep_file, keep_service};
