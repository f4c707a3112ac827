//! Stored functions: the information that a user may ask for by a number. Each function is kept
//! beside the fact that it says its form's text of every card, so it is called without a check.
//! Believe `specs/Said` and `specs/Texts`; the session loop stands above.
#![tactic(auto)]

mod card;
mod form;
mod hooks;
mod key;
mod saying;
mod twice;

pub use card::{Card, InfoText, Short};
pub use form::{Form, Piece};
pub use hooks::{Hook, Hooks};
pub use key::{HooksFault, Key};
