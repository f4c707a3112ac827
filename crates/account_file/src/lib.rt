//! The setup file: the setup that its bytes spell, or its first fault. Believe `specs/` but for
//! `Texts.antt`, `Levels.antt`, `Numbers.antt` and `Spots.antt`; the readers of a setup and the account
//! writer stand above.
#![tactic(auto)]

mod accounts;
mod fault;
mod grants;
mod info;
mod keys;
mod known;
mod reading;
mod settings;
mod words;

pub use fault::{SetupError, SetupFault, SetupKey, SetupRule};
pub use reading::read_setup;
