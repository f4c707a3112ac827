//! What follows of tickets and of starts: each function does nothing, and its contract is the law.

ghost use Rattle.std.specs.Prelude.{◌≡◌, List, Option, Result, Some};
ghost use Rattle.outside.specs.declared.act.Act.{Act};
ghost use Rattle.outside.specs.declared.act.Failed.{Failed};
ghost use Rattle.outside.specs.declared.act.Role.{Role};
ghost use Rattle.outside.specs.Link.{Link};
ghost use Rattle.outside.specs.Scene.{Did, GivenBack, Scene};
ghost use Rattle.policy_model.specs.declared.account.Account.{Account};
ghost use Rattle.policy_model.specs.declared.event.Event.{Event};
ghost use Rattle.policy_model.specs.Asks.{value_of};
ghost use Rattle.policy_model.specs.Logins.{verified_user};
ghost use Rattle.policy_model.specs.Settings.{Settings};
ghost use Rattle.policy_model.specs.Cases.{account_named, number_named};
ghost use Rattle.child_keeper.specs.Live.{Lives, live_after};
ghost use Rattle.child_keeper.specs.Starts.{ChangesChild};
ghost use Rattle.child_keeper.specs.Tickets.{HandsTo};

/// An EXPORT that is permitted with the number of its session's verified user, as the policy does,
/// hands the session to that user's account.
pub fn exports_hand_to_the_verified_user()
    ensures { (setup : Settings) (journal : List Event) (event : Event) (account : Account) →
        let user = verified_user journal event.session in
        value_of event.decision ≡ number_named setup user →
        account_named setup user ≡ Some account →
        HandsTo setup account event }
{}

/// A session's child that is started is its only one, no child outlives a start that fails, and none
/// one that is given back.
pub fn no_child_outlives_a_fault()
    ensures started { (role : Role) (outcome : Result (Unit {0}) Failed) (before after : Option Scene) →
        Did (Act.Start role outcome) before after → Lives 0 (live_after outcome) before after }
    ensures changed { (pre user : Role) (link : Option Link) (outcome : Result (Unit {0}) Failed)
        (before after : Option Scene) →
        ChangesChild pre link user outcome before after → Lives 1 (live_after outcome) before after }
    ensures given_back { (role : Role) (link : Option Link) (before after : Option Scene) →
        GivenBack role link before after → Lives 1 0 before after }
{}
