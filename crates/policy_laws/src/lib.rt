//! What follows of every legal journal, whatever the setup, for users and for strangers. Believe
//! `specs/Consequences.antt` and `specs/Strangers.antt`; the monitor's headline stands above.
#![tactic(auto)]

mod laws;

pub use laws::{
    no_password_twice, one_taker_at_a_time, sequence_falls, shows_no_accounts,
    strangers_are_told_alike, verified_before_export,
};
