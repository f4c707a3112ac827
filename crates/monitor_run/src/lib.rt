//! A run: the workers of a setup, each in a thread of its own, at one cell over one book. Believe
//! `specs/Headline.antt`, what is promised of a whole run; read `running.rt` first. The modes `serve`
//! and `drill` stand above.
#![tactic(auto)]

mod counting;
mod gathering;
mod prepared;
mod running;
mod threads;
mod worker;

pub use prepared::{Prepared, prepare};
pub use running::{Ran, run};
