//! What follows of every legal log: a function that does nothing, whose contract is the law.

ghost use Rattle.std.specs.Prelude.{List};
ghost use Rattle.policy_model.specs.declared.event.Event.{Event};
ghost use Rattle.policy_model.specs.Settings.{Settings};
ghost use Rattle.policy_laws.specs.Consequences.{HasConsequences};
ghost use Rattle.audit_check.specs.Legal.{IsLegalLog};

/// The policy's consequences hold of a legal log.
pub fn legal_logs_have_consequences()
    ensures { (setup : Settings) (events : List Event) → IsLegalLog setup events → HasConsequences setup events }
{}
