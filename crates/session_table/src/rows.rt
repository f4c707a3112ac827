//! The row of a session.

ghost use Rattle.std.specs.Prelude.{◌≡◌, ◌<◌, ◌-◌, ◌^◌, ◌+◌, true, if◌then◌else◌};
ghost use Rattle.policy_model.specs.Asks.{takes};
ghost use Rattle.session_laws.specs.Phased.{phase_after};
ghost use Rattle.session_table.specs.Files.{FitsFiles};
ghost use Rattle.session_table.specs.Rows.{is_use, new_row, row_after};
ghost use Rattle.session_table.specs.Standing.{StandsAfter, StandsNew};

use crate::bits::Bits;
use crate::handles::Handles;
use policy_model::{Ask, Event, Phase};
use std::mem::size_of;

/// What the policy knows of a session that is open.
#[derive(Drop)]
pub struct SessionRow {
    /// The session's number, from 1 on.
    pub session: u32,
    /// From a permitted CHALLENGE on: the number of the user's account, counted from 0, and the number
    /// of accounts where the user can't log in.
    pub account: u32,
    pub phase: Phase,
    /// Which kinds of requests were permitted.
    pub bits: Bits,
    /// How many asks were made besides the opening and the end.
    pub asked: u32,
    /// How many replies were denied for what they said.
    pub tries: u32,
    /// The files that are open.
    pub handles: Handles,
}

/// The rows of 64 workers take at most 16 KB.
const _: () = prove!(size_of::<Option<SessionRow>>() <= 256);

/// What an event of a session that doesn't open it makes of the session's phase.
fn phase_after(phase: Phase, event: &Event) -> Phase
    ensures { result ≡ phase_after phase event.now }
{
    match phase {
        Phase::Over => Phase::Over,
        _ if event.ends_session() => Phase::Over,
        Phase::User => Phase::User,
        _ if event.exports() => Phase::User,
        Phase::Verified => Phase::Verified,
        _ if event.accepts() => Phase::Verified,
        _ if event.takes() => Phase::Challenged,
        _ if event.gives_up() => Phase::Pre,
        _ => phase,
    }
}

/// The account where the session takes a user, else the one before.
fn account_after(before: u32, event: &Event, account: u32) -> u32
    ensures { result ≡ (if takes event.now then account else before) }
{
    if event.takes() { account } else { before }
}

/// Whether this is a permitted READ or WRITE: of such a one a row keeps a mark and a count alone.
pub fn is_use(event: &Event) -> bool
    ensures { result ≡ is_use event.now }
{
    matches!(event.ask, Ask::ReadAt { .. } | Ask::WriteAt { .. }) && event.decision.is_permit()
}

/// One more where something is counted.
fn count_after(count: u32, is_counted: bool) -> u32
    requires { count < 2 ^ 32 - 1 }
    ensures { result ≡ count + (if is_counted then 1 else 0) }
{
    if is_counted { count + 1 } else { count }
}

impl SessionRow {
    /// The row of a session that was just opened.
    pub fn new(session: u32) -> SessionRow
        ensures value { result ≡ new_row session }
        ensures stands { StandsNew session result }
    {
        SessionRow {
            session,
            account: 0,
            phase: Phase::Pre,
            bits: Bits::new(),
            asked: 0,
            tries: 0,
            handles: Handles::new(),
        }
    }

    /// What an event of the session that doesn't open it makes of the row. Where it is a permitted
    /// CHALLENGE, `account` is the number of the user's account, or that of accounts for a user that
    /// can't log in; where it is a permitted OPEN, `grant` is the number of the user's grant.
    pub fn advance(&mut self, event: &Event, account: u32, grant: u32)
        requires asked { self.old.asked < 2 ^ 32 - 1 }
        requires tries { self.old.tries < 2 ^ 32 - 1 }
        requires files { FitsFiles self.old.handles event.now }
        ensures value { self.new ≡ row_after self.old event.now account grant }
        ensures stands { StandsAfter self.old event.now account grant self.new }
    {
        self.account = account_after(self.account, event, account);
        self.phase = phase_after(self.phase, event);
        self.bits.advance(event);
        self.asked = count_after(self.asked, event.ask.came_by_frame());
        self.tries = count_after(self.tries, event.is_denied_reply());
        self.handles.advance(event, grant);
    }

    /// What `advance` does, where the event is a permitted READ or WRITE.
    pub fn advance_use(&mut self, event: &Event)
        requires kind { is_use event.now ≡ true }
        requires asked { self.old.asked < 2 ^ 32 - 1 }
        ensures { self.new ≡ row_after self.old event.now 0 0 }
    {
        self.bits.advance(event);
        self.asked += 1;
    }
}
