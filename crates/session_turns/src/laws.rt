//! Laws of passes, as contracts of functions that do nothing.

ghost use Rattle.std.specs.Prelude.{◌≡◌, ◌<◌, List, Option, ℕ};
ghost use Rattle.std.specs.List.{All};
ghost use Rattle.monitor_book.specs.Kept.{worker_of};
ghost use Rattle.monitor_book.specs.declared.opened.Opened.{Opened};
ghost use Rattle.policy_model.specs.declared.event.Event.{Event};
ghost use Rattle.policy_model.specs.Settings.{Settings};
ghost use Rattle.service_model.specs.Places.{worker_places};
ghost use Rattle.session_turns.specs.Passes.{BookPass, IsPassAt, OpenedBy, OwnsAll};
ghost use Rattle.turn_cell.specs.Facts.{AreNewPasses, CellFacts, HoldsPass};

/// A law: each pass of a new cell over a book may make asks.
pub fn new_passes_may_ask()
    ensures { (setup : Settings) (place : CellFacts (Option Opened)) (passes : List BookPass)
        → OpenedBy setup place.terms → place.passes ≡ setup.workers → AreNewPasses place passes
        → All (IsPassAt setup place) passes }
{}

/// A law: where the history of a run holds a pass, its worker's places by what the pass has seen are its places by the
/// whole history.
pub fn places_are_of_all()
    ensures { (history : List Event) (pass : BookPass) → OwnsAll pass → HoldsPass worker_of history pass
        → worker_places history pass.number ≡ worker_places pass.seen pass.number }
{}
