//! What follows of every legal journal, whatever the setup: each function does nothing, and its
//! contract is the law.

ghost use Rattle.std.specs.Prelude.{List, ◌≡◌};
ghost use Rattle.policy_model.specs.declared.event.Event.{Event};
ghost use Rattle.policy_laws.specs.Consequences.{NoPasswordTwice, OneTakerAtATime, SequenceFalls, VerifiedBeforeExport};
ghost use Rattle.policy_model.specs.Legal.{IsLegal};
ghost use Rattle.policy_model.specs.Settings.{Settings};
ghost use Rattle.policy_laws.specs.Strangers.{ShowsNoAccounts};
ghost use Rattle.policy_laws.specs.Verdicts.{StrangersAreToldAlike};

/// No password of a user is accepted twice.
pub fn no_password_twice()
    ensures { (setup : Settings) (journal : List Event) → IsLegal setup journal → NoPasswordTwice setup journal }
{}

/// A user's sequence falls with each accepted password.
pub fn sequence_falls()
    ensures { (setup : Settings) (journal : List Event) → IsLegal setup journal → SequenceFalls setup journal }
{}

/// Between a session's challenge for a user and its accepted reply no other session takes the user.
pub fn one_taker_at_a_time()
    ensures { (setup : Settings) (journal : List Event) → IsLegal setup journal → OneTakerAtATime setup journal }
{}

/// A session exports a user's state only after its own accepted reply for that user.
pub fn verified_before_export()
    ensures { (setup : Settings) (journal : List Event) → IsLegal setup journal → VerifiedBeforeExport setup journal }
{}

/// Strangers are told alike: take a session by which nobody has logged in, and an ask of it that is
/// neither its opening nor a CHALLENGE nor its end. What is shown of the decision depends only on the
/// ask, on what the session was told before, and on how many requests the setup gives a session.
pub fn strangers_are_told_alike()
    ensures { (setup : Settings) (journal : List Event) → IsLegal setup journal → StrangersAreToldAlike setup journal }
{}

/// Take two sessions by which nobody has logged in, of one journal or of two, under setups with as many
/// requests a session. If both ask the same, but no CHALLENGE, and were told the same before, they are
/// shown the same, whatever accounts the names stand for.
pub fn shows_no_accounts()
    ensures { (setup : Settings) (journal : List Event) → IsLegal setup journal → ShowsNoAccounts setup journal }
{}
