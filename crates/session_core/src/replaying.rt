//! Steps from the beginning of a run.

ghost use Rattle.std.specs.Prelude.{◌≡◌, ◌≤◌, ◌-◌, ◌^◌, false, length, All, IfOk, map};
ghost use Rattle.policy_model.specs.Journal.{has_lost};
ghost use Rattle.policy_model.specs.Legal.{IsLegal};
ghost use Rattle.policy_laws.specs.Consequences.{HasConsequences};
ghost use Rattle.policy_laws.specs.Strangers.{ShowsNoAccounts};
ghost use Rattle.session_core.specs.Replayed.{IsStepOf, asked_of, stepped_of};

use crate::whole::Core;
use policy_model::{Event, Setup, Step};
use std::alloc::{AllocError, Global};

/// What the policy makes of these steps, from the beginning of a run: a legal journal without a lost
/// decision, of these workers and asks in order. Each step is of one of the setup's workers.
///
/// # Errors
///
/// There isn't the memory.
pub fn replay(alloc: Global, setup: &Setup, steps: &[Step]) -> Result<Vec<Event>, AllocError>
    requires workers { All (IsStepOf setup.now) steps.now }
    requires few { length steps.now ≤ 2 ^ 32 - 1 }
    ensures legal { IfOk result (λ events. IsLegal setup.now events.items) }
    ensures kept { IfOk result (λ events. has_lost events.items ≡ false) }
    ensures asks { IfOk result (λ events. map asked_of events.items ≡ map stepped_of steps.now) }
    ensures consequences { IfOk result (λ events. HasConsequences setup.now events.items) }
    ensures unseen { IfOk result (λ events. ShowsNoAccounts setup.now events.items) }
{
    let mut core = Core::new(alloc, setup, steps.len() as u32)?;
    let mut events = Vec::with_capacity(alloc, steps.len())?;
    for step in steps {
        let event = core.step(step);
        events.push(event)?;
    }
    Ok(events)
}
