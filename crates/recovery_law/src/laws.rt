//! The law of the durable log.

ghost use Rattle.std.specs.Prelude.{◌≡◌, [], List, ℕ, Some};
ghost use Rattle.outside.specs.Told.{Goes};
ghost use Rattle.policy_model.specs.declared.event.Event.{Event};
ghost use Rattle.policy_model.specs.Settings.{Settings};
ghost use Rattle.line_log.specs.Kept.{IsLineLog, LineParts, first_story, given_of, last_story};
ghost use Rattle.monitor_book.specs.Lines.{HoldsLines};
ghost use Rattle.recovery_law.specs.Surviving.{IsRunOf, LosesNoEvent};

/// Of a run whose log was fresh, and is a log of lines that tells what it was given, each image that a
/// crash at any moment may leave has the lines of the run's first events, all that were answered by then
/// among them, and recovery from it comes to what those events say of each account. Where no append
/// failed, each event that was kept was answered.
pub fn a_crash_loses_no_answered_event()
    ensures { (setup : Settings) (journal : List Event) (log : LineParts) (given : List ℕ) → IsRunOf setup journal
        → IsLineLog log → given_of log ≡ Some given → HoldsLines setup journal [] given
        → Goes (LosesNoEvent setup journal log.log.stopped) (first_story log) (last_story log) }
{}
