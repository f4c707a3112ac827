//! The functions do nothing, and their contracts are the laws.

ghost use Rattle.std.specs.Prelude.{ℕ, List, ◌≡◌, ◌≤◌, [], false, length};
ghost use Rattle.std.specs.List.{AllByRecursion, list_any};
ghost use Rattle.policy_model.specs.declared.event.Event.{Event};
ghost use Rattle.policy_model.specs.declared.ranges.TheConstants.{EVENTS_LIMIT};
ghost use Rattle.policy_model.specs.Journal.{has_lost};
ghost use Rattle.policy_model.specs.Legal.{IsLegal};
ghost use Rattle.policy_model.specs.Settings.{IsInRange};
ghost use Rattle.service_model.specs.Ends.{is_fault_end};
ghost use Rattle.service_model.specs.Service.{Service};
ghost use Rattle.service_model.specs.Sittings.{AreAnswered, AreSittingsOf, Sitting};
ghost use Rattle.welcome_laws.specs.Files.{UsersAreServed};
ghost use Rattle.welcome_laws.specs.Welcome.{UsersGetIn};

/// Where no decision was lost, no session ended by a fault and each child was sent its answers whole,
/// each session that comes to log in is welcomed.
pub fn users_are_welcomed()
    ensures { (service : Service) (journal : List Event) → IsLegal service.setup journal →
        length journal ≤ EVENTS_LIMIT → has_lost journal ≡ false → IsInRange service.setup →
        list_any (λ e. is_fault_end e.ask) journal ≡ false →
        (worker : ℕ) (sittings : List Sitting) → AreSittingsOf service journal worker sittings →
        AllByRecursion (λ sitting. AreAnswered service [] sitting.parts) sittings →
        UsersGetIn service journal sittings }
{}

/// Where no decision was lost, no session ended by a fault and each child was sent its answers whole,
/// each session that comes to log in, and then asks for files that its user was granted, is served
/// them.
pub fn users_are_served()
    ensures { (service : Service) (journal : List Event) → IsLegal service.setup journal →
        length journal ≤ EVENTS_LIMIT → has_lost journal ≡ false → IsInRange service.setup →
        list_any (λ e. is_fault_end e.ask) journal ≡ false →
        (worker : ℕ) (sittings : List Sitting) → AreSittingsOf service journal worker sittings →
        AllByRecursion (λ sitting. AreAnswered service [] sitting.parts) sittings →
        UsersAreServed service journal sittings }
{}
