//! What can be read off one event and one phase.

ghost use Rattle.std.specs.Prelude.{◌≡◌, ◌&&◌};
ghost use Rattle.policy_model.specs.Asks.{is_end, is_permit};
ghost use Rattle.session_core.specs.Settling.{is_challenged};

use policy_model::{Event, Phase};

/// Whether this is a permitted end of a session.
pub(crate) fn closes(event: &Event) -> bool
    ensures { result ≡ (is_end event.now.ask && is_permit event.now.decision) }
{
    event.ask.is_end() && event.decision.is_permit()
}

/// Whether a session of this phase was challenged.
pub(crate) fn is_challenged(phase: Phase) -> bool
    ensures { result ≡ is_challenged phase }
{
    matches!(phase, Phase::Challenged)
}
