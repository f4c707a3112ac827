//! Whether a session holds a user at a moment.

ghost use Rattle.std.specs.Prelude.{◌≡◌, ◌+◌, nat_lt};
ghost use Rattle.policy_model.specs.Cases.{is_other};

/// Whether some other session holds.
pub fn is_other(session: u32, holder: Option<u32>) -> bool
    ensures { result ≡ is_other session holder }
{
    match holder {
        None => false,
        Some(holder) => holder != session,
    }
}

/// Whether `now` is less than `hold` milliseconds after a moment, or before it.
pub fn is_within(now: u64, moment: u64, hold: u32) -> bool
    ensures { result ≡ nat_lt now (moment + hold) }
{
    now < moment || now - moment < u64::from(hold)
}
