//! Each function does nothing, and its contract is the law.

ghost use Rattle.std.specs.Prelude.{ℕ, List, ◌≡◌, false, Option};
ghost use Rattle.request_catalogue.specs.declared.texts.Name.{Name};
ghost use Rattle.policy_model.specs.declared.account.Account.{Account};
ghost use Rattle.policy_model.specs.declared.event.Event.{Event};
ghost use Rattle.policy_model.specs.Journal.{Place, has_lost};
ghost use Rattle.policy_model.specs.Legal.{IsLegal};
ghost use Rattle.policy_model.specs.Settings.{IsInRange, Settings};
ghost use Rattle.login_laws.specs.Login.{AsksToLogIn, IsLoggedInBy, LoginPlaces};

/// A session that asks for a user who can log in, and whom no other session holds within the hold, and
/// that replies with the user's next password, is challenged, accepted and logged in, where other sessions
/// ask for that user only less than the hold after this one's challenge while this one holds the user.
pub fn who_replies_within_the_hold_logs_in()
    ensures { (setup : Settings) (journal : List Event) → IsLegal setup journal → has_lost journal ≡ false →
        IsInRange setup → (worker : ℕ) (user : Name) (account : Account) (words hex : Option ℕ) →
        (login : LoginPlaces) (rest : List Place) →
        AsksToLogIn setup journal worker user account words hex login rest →
        IsLoggedInBy setup journal user account words hex login }
{}
