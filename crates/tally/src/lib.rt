//! The turn cell's worked example and test object: a sum that callers add to in turn, and any object called by all its
//! passes from threads of their own.
#![tactic(auto)]

pub mod object;
pub mod threads;

pub use object::{Added, Tally};
pub use threads::{THREADS, call_all, call_from_all, make_calls};
