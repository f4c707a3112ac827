//! What a crash at any moment of a run leaves of its log, and what recovery makes of that. The
//! laws are read by `specs/Surviving.antt`. Nothing here is code: the functions do nothing, and their
//! contracts are the laws.
#![tactic(auto)]

mod laws;

pub use laws::a_crash_loses_no_answered_event;
