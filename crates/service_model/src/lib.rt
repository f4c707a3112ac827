//! What is done and said by the whole service: the operations of an event, the answer to a message, and
//! what one child, one session and one worker had. The definitions stand in `specs/`; a law about them
//! is the contract of a function here that does nothing. Believe all of them but for `Cases.antt`; the
//! session loop stands above.
#![tactic(auto)]

ghost use Rattle.std.specs.Prelude.{◌≡◌, ◌≤◌, ◌*◌, [], count_by, length, List, ℕ};
ghost use Rattle.std.specs.List.{AllByRecursion, flat_map};
ghost use Rattle.outside.specs.Scene.{came_count};
ghost use Rattle.policy_model.specs.Asks.{is_lost};
ghost use Rattle.service_model.specs.Ends.{is_link_end, is_lost_end};
ghost use Rattle.service_model.specs.Places.{step_acts, step_places};
ghost use Rattle.service_model.specs.Service.{Service};
ghost use Rattle.service_model.specs.Sittings.{AreAnswered, IsSitting, Sitting, all_steps};
ghost use Rattle.service_model.specs.Stories.{is_stop};

/// A law: sessions are served over as many connections as there are sessions, and no accept of theirs
/// comes to nothing.
pub fn each_session_has_a_connection()
    ensures came { (service : Service) (sittings : List Sitting) → AllByRecursion (IsSitting service) sittings →
        came_count (step_acts (flat_map all_steps sittings)) ≡ length sittings }
    ensures none_stopped { (service : Service) (sittings : List Sitting) → AllByRecursion (IsSitting service) sittings →
        count_by is_stop (step_acts (flat_map all_steps sittings)) ≡ 0 }
{}

/// A law: where no session ended by a fault of its link, each child of each session was sent the answer to
/// each of its requests, whole.
pub fn children_are_answered()
    ensures { (service : Service) (sittings : List Sitting) → AllByRecursion (IsSitting service) sittings →
        count_by (λ p. is_link_end p.event.ask) (step_places (flat_map all_steps sittings)) ≡ 0 →
        AllByRecursion (λ s. AreAnswered service [] s.parts) sittings }
{}

/// A law: at most as many sessions end because a decision was lost as decisions were lost.
pub fn losses_are_behind_lost_ends()
    ensures { (service : Service) (sittings : List Sitting) → AllByRecursion (IsSitting service) sittings →
        count_by (λ p. is_lost_end p.event.ask) (step_places (flat_map all_steps sittings))
        ≤ count_by (λ p. is_lost p.event.decision) (step_places (flat_map all_steps sittings)) }
{}
