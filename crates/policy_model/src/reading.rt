//! What can be read off one event.

ghost use Rattle.std.specs.Prelude.{◌≡◌, ◌&&◌, ◌==◌, nat_le, option_and_then};
ghost use Rattle.policy_model.specs.declared.event.Decision.TheVariants.{Deny};
ghost use Rattle.policy_model.specs.Asks.{accepts, challenge_name, closes_file, ends_session, exports, gives_up};
ghost use Rattle.policy_model.specs.Asks.{is_close, is_denied_reply, is_login_denial, is_login_step, leaves, mode_of};
ghost use Rattle.policy_model.specs.Asks.{moment_of, opens, opens_file, permits_kind, reserves, takes, takes_user};
ghost use Rattle.policy_model.specs.Asks.{value_of};
ghost use Rattle.policy_model.specs.Cases.{is_challenge_for, is_reply, handle_of};
ghost use Rattle.policy_model.specs.Journal.{is_own, is_turn_of};

use crate::event::{Ask, Decision, Event};
use crate::ranges::same_name;
use request_catalogue::{Kind, Name, rules};

/// The value of a decoy is this and the decoy's number; that of any other challenge is below it.
pub const DECOYS_FROM: u64 = 10_000;

impl Ask {
    /// The user that a CHALLENGE names.
    pub fn challenge_name(&self) -> Option<Name>
        ensures { result ≡ challenge_name self.now }
    {
        match *self {
            Ask::Challenge { user, .. } => Some(user),
            _ => None,
        }
    }

    /// Whether this is a CHALLENGE for the user.
    fn is_challenge_for(&self, name: &Name) -> bool
        ensures { result ≡ is_challenge_for name.now self.now }
    {
        match self {
            Ask::Challenge { user, .. } => same_name(user, name),
            _ => false,
        }
    }

    /// Whether this is a REPLY.
    pub fn is_reply(&self) -> bool
        ensures { result ≡ is_reply self.now }
    {
        matches!(self, Ask::Reply { .. })
    }

    /// The moment of a CHALLENGE in milliseconds, or 0.
    pub fn moment(&self) -> u64
        ensures { result ≡ moment_of self.now }
    {
        match *self {
            Ask::Challenge { now, .. } => now,
            _ => 0,
        }
    }

    /// The mode of an OPEN, or 0.
    pub(crate) fn mode(&self) -> u8
        ensures { result ≡ mode_of self.now }
    {
        match *self {
            Ask::OpenFile { mode, .. } => mode,
            _ => 0,
        }
    }

    /// Whether this is a CLOSE of the handle.
    fn is_close(&self, number: u64) -> bool
        ensures { result ≡ is_close number self.now }
    {
        match *self {
            Ask::CloseFile { handle } => u64::from(handle) == number,
            _ => false,
        }
    }
}

impl Decision {
    /// A denial by a rule, of those in `request_catalogue::rules`.
    pub fn deny(rule: u8, detail: u32) -> Decision
        ensures { result ≡ Deny rule detail }
    {
        Decision::Deny { rule, detail }
    }

    /// The value of a permit, or 0.
    pub fn value(&self) -> u64
        ensures { result ≡ value_of self.now }
    {
        match *self {
            Decision::Permit { value } => value,
            _ => 0,
        }
    }

    /// Whether this is a denial by one of the rules for replies.
    pub(crate) fn is_login_denial(&self) -> bool
        ensures { result ≡ is_login_denial self.now }
    {
        matches!(
            self,
            Decision::Deny {
                rule: rules::HOLD_LOST..=rules::NO_MATCH,
                ..
            }
        )
    }
}

impl Event {
    /// Whether this is a permitted opening or end of the worker.
    pub fn is_turn_of(&self, worker: u32) -> bool
        ensures { result ≡ is_turn_of worker self.now }
    {
        self.worker == worker
            && (self.ask.is_begin() || self.ask.is_end())
            && self.decision.is_permit()
    }

    /// Whether this opens a session.
    pub fn opens(&self) -> bool
        ensures { result ≡ opens self.now }
    {
        self.ask.is_begin() && self.decision.is_permit()
    }

    /// Whether the session of this event is over after it.
    pub fn ends_session(&self) -> bool
        ensures { result ≡ ends_session self.now }
    {
        self.ask.is_end()
            || matches!(self.ask, Ask::Finish) && self.decision.is_permit()
            || matches!(self.decision, Decision::Deny { rule: 1..=7, .. })
            || self.decision.is_lost()
    }

    /// Whether this takes a user: a permitted CHALLENGE.
    pub fn takes(&self) -> bool
        ensures { result ≡ takes self.now }
    {
        matches!(self.ask, Ask::Challenge { .. }) && self.decision.is_permit()
    }

    /// Whether this is the session's and takes a user.
    pub(crate) fn is_taking_of(&self, session: u32) -> bool
        ensures { result ≡ is_own session takes self.now }
    {
        self.session == session && self.takes()
    }

    /// Whether this takes this user.
    pub(crate) fn takes_user(&self, user: &Name) -> bool
        ensures { result ≡ takes_user user.now self.now }
    {
        self.ask.is_challenge_for(user) && self.decision.is_permit()
    }

    /// Whether this names a decoy, where it takes a user.
    pub(crate) fn is_decoy(&self) -> bool
        ensures { result ≡ nat_le DECOYS_FROM (value_of self.now.decision) }
    {
        self.decision.value() >= DECOYS_FROM
    }

    /// Whether this takes this user and isn't a decoy.
    pub fn reserves(&self, user: &Name) -> bool
        ensures { result ≡ reserves user.now self.now }
    {
        self.takes_user(user) && self.decision.value() < DECOYS_FROM
    }

    /// Whether the session holds no user after this: a REPLY or a permitted ABANDON.
    pub fn gives_up(&self) -> bool
        ensures { result ≡ gives_up self.now }
    {
        match self.ask {
            Ask::Reply { .. } => true,
            Ask::Abandon => self.decision.is_permit(),
            _ => false,
        }
    }

    /// Whether the session leaves whom it holds by this: it gives up, or it ends.
    pub fn leaves(&self) -> bool
        ensures { result ≡ leaves self.now }
    {
        self.gives_up() || self.ends_session()
    }

    /// Whether this is the session's, which holds no user after it.
    pub(crate) fn is_giving_up_of(&self, session: u32) -> bool
        ensures { result ≡ is_own session gives_up self.now }
    {
        self.session == session && self.gives_up()
    }

    /// Whether this takes a user or gives one up.
    pub(crate) fn is_login_step(&self) -> bool
        ensures { result ≡ is_login_step self.now }
    {
        self.takes() || self.gives_up()
    }

    /// Whether this is the session's and takes a user or gives one up.
    pub(crate) fn is_login_step_of(&self, session: u32) -> bool
        ensures { result ≡ is_own session is_login_step self.now }
    {
        self.session == session && self.is_login_step()
    }

    /// Whether this is a permitted REPLY.
    pub fn accepts(&self) -> bool
        ensures { result ≡ accepts self.now }
    {
        self.ask.is_reply() && self.decision.is_permit()
    }

    /// Whether this is the session's and a permitted REPLY.
    pub(crate) fn is_acceptance_of(&self, session: u32) -> bool
        ensures { result ≡ is_own session accepts self.now }
    {
        self.session == session && self.accepts()
    }

    /// Whether this is a REPLY that was denied by a rule of 13 to 16.
    pub fn is_denied_reply(&self) -> bool
        ensures { result ≡ is_denied_reply self.now }
    {
        self.ask.is_reply() && self.decision.is_login_denial()
    }

    /// Whether this is a permitted EXPORT.
    pub fn exports(&self) -> bool
        ensures { result ≡ exports self.now }
    {
        matches!(self.ask, Ask::Export { .. }) && self.decision.is_permit()
    }

    /// Whether this is a permitted OPEN.
    pub(crate) fn opens_file(&self) -> bool
        ensures { result ≡ opens_file self.now }
    {
        matches!(self.ask, Ask::OpenFile { .. }) && self.decision.is_permit()
    }

    /// The handle that a permitted OPEN gave.
    pub(crate) fn handle(&self) -> u64
        ensures { result ≡ handle_of self.now }
    {
        self.decision.value()
    }

    /// Whether this is a permitted CLOSE of the handle.
    pub(crate) fn closes_file(&self, handle: u64) -> bool
        ensures { result ≡ closes_file handle self.now }
    {
        self.ask.is_close(handle) && self.decision.is_permit()
    }

    /// Whether this permits a request of the kind.
    pub(crate) fn permits_kind(&self, kind: Kind) -> bool
        ensures { result ≡ permits_kind kind self.now }
    {
        self.ask.number() == kind.number() && self.decision.is_permit()
    }
}
