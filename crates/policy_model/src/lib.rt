//! What the monitor decides: the setup, the asks of all sessions, the verdict on each, and the journal
//! of all events. Everything is decided by looking through the one list of events. Believe `specs/` but
//! for `Setup.antt` and `Cases.antt`; all that decides stands above.
#![tactic(auto)]

mod account;
mod decoy;
mod event;
mod handles;
mod holding;
mod journal;
mod judging;
mod logins;
mod parts;
mod phase;
mod ranges;
mod reading;
mod setup;
mod table;
mod texts;
mod verdict;

pub use account::{Account, Accounts, Grant, Grants};
pub use decoy::{Decoy, plain_salt};
pub use event::{Ask, Decision, Event, Step, Why};
pub use handles::HANDLE_NUMBERS;
pub use holding::{is_other, is_within};
pub use journal::{has_lost, open_session};
pub use judging::{event_after, judge};
pub use logins::verified_user;
pub use parts::SetupParts;
pub use phase::{Phase, Row};
pub use ranges::{EVENTS_LIMIT, are_distinct_numbers, is_text};
pub use reading::DECOYS_FROM;
pub use setup::Setup;
pub use table::row;
pub use texts::{Numbers, Text};
pub use verdict::{READ, WRITE, allows, is_holder, judge_decoy, judge_grant, shown};
