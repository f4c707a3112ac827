//! The laws.

ghost use Rattle.std.specs.Prelude.{◌≡◌, ◌≤◌, List, Some, length, ℕ};
ghost use Rattle.child_protocol.specs.Exchanges.{Exchange};
ghost use Rattle.child_protocol.specs.Says.{Role, next_request};
ghost use Rattle.policy_model.specs.declared.event.Event.{Event};
ghost use Rattle.policy_model.specs.Settings.{IsInRange, Settings};
ghost use Rattle.request_catalogue.specs.Catalogue.{RequestValue};
ghost use Rattle.dialogue_laws.specs.Dialogue.{AsksNext, HasDialogue, StandsAlike};
ghost use Rattle.policy_model.specs.declared.ranges.TheConstants.{EVENTS_LIMIT};
ghost use Rattle.policy_model.specs.Legal.{IsLegal};
ghost use Rattle.service_model.specs.Service.{Service};
ghost use Rattle.service_model.specs.Sittings.{AreSittingsOf, Sitting};
ghost use Rattle.dialogue_laws.specs.Children.{ChildrenKeepRules};

/// Where a session's events in a journal are those of a shipped child's dialogue, and the child asks
/// once more, the session is in the phase which that child's replies give, and the request is denied by
/// none of the rules 2 to 7.
pub fn no_request_is_a_violation()
    ensures { (setup : Settings) (journal : List Event) (worker session : ℕ) (role : Role)
        (history : List Exchange) → HasDialogue journal session role history → (request : RequestValue)
        → next_request role history ≡ Some request → (e : Event) → AsksNext setup journal worker session request e
        → StandsAlike setup journal session role history e }
{}

/// In a session whose children are the shipped ones no request is denied by one of the rules 2 to 7, and
/// the session stands where its child takes it to stand.
pub fn shipped_children_keep_the_rules()
    ensures { (service : Service) (journal : List Event) → IsLegal service.setup journal →
        length journal ≤ EVENTS_LIMIT → IsInRange service.setup → (worker : ℕ) (sittings : List Sitting) →
        AreSittingsOf service journal worker sittings → ChildrenKeepRules service sittings }
{}
