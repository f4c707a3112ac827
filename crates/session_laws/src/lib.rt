//! What one more event makes of what a journal says of each session, and what holds of the sessions of
//! every legal journal. Nothing here need be believed: the session table and the core stand on it.
#![tactic(auto)]

mod laws;

pub use laws::{
    events_change_one_user, events_count_once, every_ask_is_decided, handles_are_apart,
    handles_go_on, holders_are_tied, phases_go_on, sessions_are_apart, sessions_begin_fresh,
    sessions_have_users,
};
