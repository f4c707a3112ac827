//! No child breaks a rule: the laws by which no request of a shipped child is denied by one of the rules
//! 2 to 7, and each of them is asked where its session stands in the journal as that child takes it to
//! stand. They are read by `specs/Dialogue.antt` and `specs/Children.antt`. The functions do nothing, and
//! their contracts are the laws.
#![tactic(auto)]

mod laws;

pub use laws::{no_request_is_a_violation, shipped_children_keep_the_rules};
