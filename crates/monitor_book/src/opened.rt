//! What is fixed of a book.

use policy_model::Setup;
use std::marker::Model;

/// Bytes, or lengths, seen as their list.
#[derive(Drop)]
pub struct Listed {
    numbers: Vec<u64>,
}

impl Model for Listed {
    ghost use Rattle.std.specs.Prelude.{List, ℕ};

    ghost Value = { List ℕ };

    ghost view = { λ l. l.numbers.items };
}

/// What a log tells that it holds. It is for contracts alone; no value of it is made.
#[derive(Drop)]
pub struct Held {
    /// Its bytes, where it tells them.
    pub bytes: Option<Listed>,
    /// The lengths of its appends, in order, where it tells them.
    pub lengths: Option<Listed>,
}

/// What is fixed of a book: its setup, and what its log told and counted when the book was made. It is for
/// contracts alone; no value of it is made.
#[derive(Drop)]
pub struct Opened {
    pub setup: Setup,
    /// What the log held.
    pub held: Held,
    /// How many faults the log had.
    pub faults: u64,
}
