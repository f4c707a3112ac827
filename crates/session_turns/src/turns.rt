//! A worker's turns at what all workers share.

ghost use Rattle.std.specs.Prelude.{◌≡◌, ◌<◌, true};
ghost use Rattle.policy_model.specs.Asks.{is_proper};
ghost use Rattle.session_turns.specs.Joins.{Joins, KeepsRights, Seat};

use policy_model::{Ask, Event};

/// Who makes a worker's asks.
pub trait Turns {
    // An ask may be made.
    ghost may: { Self → Type 0 };

    // The worker's seat.
    ghost at: { Self → Seat };

    // The same turns, later.
    ghost keeps: { Self → Self → Type 0 };

    /// Makes an ask: its event joins the journal, which others may have lengthened since.
    fn ask(&mut self, ask: Ask) -> Event
        requires may { may self.old }
        requires room { 0 < (at self.old).rights.left }
        requires proper { is_proper ask ≡ true }
        ensures joins { let seat = at self.old in
            Joins seat.setup seat.rights.worker ask seat.seen (at self.new).seen result }
        ensures rights { KeepsRights 1 (at self.old).rights (at self.new).rights }
        ensures turns { keeps self.old self.new × ((at self.new).setup ≡ (at self.old).setup) × may self.new };

    ghost keeps_none: { (a : Self) → keeps a a };

    ghost keeps_then: { (a b c : Self) → keeps a b → keeps b c → keeps a c };
}
