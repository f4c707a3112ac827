//! The policy by example: runs that are judged decision by decision, and setups at both ends of each
//! range. All but one call is tests, which stand apart from `policy_model` so that no crate waits for
//! them.
#![tactic(auto)]

ghost use Rattle.std.specs.Prelude.{◌≡◌, ◌<◌, ◌^◌, ◌-◌, ◌++◌, ◌∷◌, [], false, length, IfErr, IfOk};
ghost use Rattle.policy_model.specs.Journal.{has_lost};
ghost use Rattle.policy_model.specs.Legal.{IsLegal, next_event};
ghost use Rattle.policy_model.specs.Verdict.{verdict_of};

use policy_model::{Ask, Decision, Event, Setup, event_after, judge};
use std::alloc::AllocError;

/// Decides one ask of a worker by looking through the events so far, and adds its event to them.
///
/// # Errors
///
/// There isn't the memory for the event; the events stay as they were.
pub fn decide(
    setup: &Setup,
    journal: &mut Vec<Event>,
    worker: u32,
    ask: &Ask,
) -> Result<Decision, AllocError>
    requires few { length journal.old.items < 2 ^ 32 - 1 }
    ensures decision { IfOk result (λ decision. decision ≡ verdict_of setup.now journal.old.items worker ask.now) }
    ensures event { IfOk result (λ decision. journal.new.items ≡ journal.old.items ++ next_event setup.now
        journal.old.items worker ask.now ∷ []) }
    ensures legal { has_lost journal.old.items ≡ false → IsLegal setup.now journal.old.items
        → IsLegal setup.now journal.new.items }
    ensures back { IfErr result (λ error. journal.new.items ≡ journal.old.items) }
{
    let decision = judge(setup, journal.as_slice(), worker, ask);
    let event = event_after(journal.as_slice(), worker, ask, &decision);
    journal.push(event)?;
    Ok(decision)
}

#[cfg(test)]
mod tests;
