//! What an event at the end of a journal makes of a session, and what follows of every legal journal:
//! each function does nothing, and its contract is the law.

ghost use Rattle.std.specs.Prelude.{ℕ, List, ◌≡◌, false};
ghost use Rattle.policy_model.specs.declared.event.Ask.{Ask};
ghost use Rattle.policy_model.specs.declared.event.Event.{Event};
ghost use Rattle.policy_model.specs.Asks.{is_lost};
ghost use Rattle.policy_model.specs.Legal.{IsLegal};
ghost use Rattle.policy_model.specs.Settings.{Settings};
ghost use Rattle.policy_model.specs.Verdict.{verdict_of};
ghost use Rattle.session_laws.specs.Handled.{HandlesGoOn};
ghost use Rattle.session_laws.specs.Laws.{BeginsFresh, ChangesOneUser, CountsOnce, FollowsLegal, HandlesAreApart};
ghost use Rattle.session_laws.specs.Laws.{HoldersAreTied, SessionsAreApart, SessionsHaveUsers};
ghost use Rattle.session_laws.specs.Phased.{IsPhasedBy};

/// A session's phase after an event follows from its phase before and from that event alone.
pub fn phases_go_on()
    ensures { (journal : List Event) (e : Event) → IsPhasedBy journal e }
{}

/// A session's live handles after an event are those before that the event doesn't close, and the one
/// that it opens.
pub fn handles_go_on()
    ensures { (journal : List Event) (e : Event) → HandlesGoOn journal e }
{}

/// An event counts for its own session and for no other.
pub fn events_count_once()
    ensures { (journal : List Event) (e : Event) → CountsOnce journal e }
{}

/// Two workers have no open session in common, and none has the number 0.
pub fn sessions_are_apart()
    ensures { (setup : Settings) (journal : List Event) → IsLegal setup journal → SessionsAreApart journal }
{}

/// A session has at most 8 live handles, each of 1 to 8, no two are the same, and before its EXPORT it
/// has none.
pub fn handles_are_apart()
    ensures { (setup : Settings) (journal : List Event) → IsLegal setup journal → HandlesAreApart journal }
{}

/// A session that was just opened has asked for nothing, was permitted nothing and holds nothing, and
/// an OPEN gives the least handle that isn't live.
pub fn sessions_begin_fresh()
    ensures { (setup : Settings) (journal : List Event) (e : Event) → FollowsLegal setup journal e
        → BeginsFresh journal e }
{}

/// A session that holds a user is in Challenged for that user, by no decoy, the user has passwords
/// left, and the session holds no other.
pub fn holders_are_tied()
    ensures { (setup : Settings) (journal : List Event) → IsLegal setup journal → HoldersAreTied setup journal }
{}

/// A session in Challenged is challenged for a user, who has an account where the challenge is no
/// decoy; a session that is verified is logged in as the user that it was challenged for.
pub fn sessions_have_users()
    ensures { (setup : Settings) (journal : List Event) → IsLegal setup journal → SessionsHaveUsers setup journal }
{}

/// A permitted CHALLENGE that isn't a decoy is for a user that can log in, and one for such a user
/// isn't a decoy; a permitted REPLY is of the session that holds the user, with the user's next
/// password; and every user but the one that is reserved and the one that the session is challenged
/// for stays as it was.
pub fn events_change_one_user()
    ensures { (setup : Settings) (journal : List Event) (e : Event) → FollowsLegal setup journal e
        → ChangesOneUser setup journal e }
{}

/// The policy decides every ask, also one that names a rule out of its range.
pub fn every_ask_is_decided()
    ensures { (setup : Settings) (journal : List Event) (worker : ℕ) (ask : Ask)
        → is_lost (verdict_of setup journal worker ask) ≡ false }
{}
