//! What a run over a drill's scripts comes to: the law by which its journal is a drill's, as the contract
//! of a function that does nothing.

ghost use Rattle.std.specs.Prelude.{◌≡◌, ◌<◌, false, List, ℕ};
ghost use Rattle.std.specs.List.{AllByRecursion, list_any};
ghost use Rattle.policy_model.specs.Journal.{has_lost};
ghost use Rattle.policy_model.specs.Legal.{IsLegal};
ghost use Rattle.policy_model.specs.Runs.{IsOfWorker};
ghost use Rattle.policy_model.specs.declared.event.Event.{Event};
ghost use Rattle.service_model.specs.Ends.{is_fault_end};
ghost use Rattle.service_model.specs.Service.{Service};
ghost use Rattle.drill_plan.specs.Drill.{IsDrill};
ghost use Rattle.drill_plan.specs.DrillSetup.{IsDrillSetup};
ghost use Rattle.drill_plan.specs.Played.{IsPlayed};

/// A law: a legal journal of the setup of the drill of `n` is a drill's, where no decision was lost, no
/// session ended by a fault, and each of the four workers served as many sessions as the setup says over
/// children that said what the plan has for them.
#[tactic(auto, using(crate::proofs::Whole::is_drill))]
pub fn what_was_planned_is_a_drill()
    ensures { (n : ℕ) (service : Service) (journal : List Event) → IsDrillSetup n service.setup →
        IsLegal service.setup journal → AllByRecursion (IsOfWorker service.setup) journal → has_lost journal ≡ false →
        list_any (λ e. is_fault_end e.ask) journal ≡ false →
        ((worker : ℕ) → worker < 4 → IsPlayed n service journal worker) → IsDrill n journal }
{}
