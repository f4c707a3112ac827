//! What logs a session in: the law by which the CHALLENGE, the REPLY and the EXPORT of a session are
//! permitted. Believe `specs/Login.antt`; the law of the shipped children stands above.
#![tactic(auto)]

mod laws;

pub use laws::who_replies_within_the_hold_logs_in;
