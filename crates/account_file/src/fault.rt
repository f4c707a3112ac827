//! Why a setup file is refused.

ghost use Rattle.std.specs.Prelude.{◌≡◌};
ghost use Rattle.account_file.specs.declared.fault.SetupError.TheVariants.{Refused, OutOfMemory};
ghost use Rattle.account_file.specs.Spots.{spot_fault};

use std::alloc::{AllocError, AllocFailed};

/// What a fault is about.
#[derive(Clone, Copy, PartialEq, Eq, Debug)]
pub enum SetupKey {
    /// The file as a whole.
    File,
    /// A key that has no meaning where it stands.
    Other,
    Socket,
    Launcher,
    Vault,
    Words,
    Banner,
    Salt,
    Frames,
    Workers,
    Connections,
    Requests,
    Tries,
    Hold,
    Info,
    Account,
    Name,
    Uid,
    Algorithm,
    Seed,
    Sequence,
    Password,
    Enabled,
    Grants,
    /// The key `name` of a grant.
    GrantName,
    /// The key `mode` of a grant.
    GrantMode,
}

/// A rule that a setup file breaks.
#[derive(Clone, Copy, PartialEq, Eq, Debug)]
pub enum SetupRule {
    /// The file has more than 8,388,608 bytes.
    TooLong,
    /// The file is no UTF-8, or no TOML document.
    NotToml,
    /// A key has no meaning where it stands.
    Unknown,
    /// A key that must be there is not.
    Missing,
    /// A value is of another TOML type.
    Kind,
    /// A text is too long or too short, or has other characters than its key allows.
    Text,
    /// A number is too great or too small, or an array has too many items.
    Range,
    /// A number, a name or a user number is there twice.
    Twice,
    /// A run could make more than 1,048,576 events.
    Product,
    /// A number of information has no hook.
    NoHook,
}

/// The first fault of a setup file.
#[derive(Clone, Copy, PartialEq, Eq, Debug)]
pub struct SetupFault {
    pub key: SetupKey,
    pub rule: SetupRule,
    /// The place of the account from 1; 0 for what stands outside the accounts.
    pub account: u32,
}

/// Why a setup file was not read.
#[derive(Clone, Copy, PartialEq, Eq)]
pub enum SetupError {
    Refused(SetupFault),
    OutOfMemory,
}

impl From<AllocError> for SetupError {
    ghost from_gives = { λ _ e. e ≡ OutOfMemory };

    fn from(_: AllocError) -> Self {
        SetupError::OutOfMemory
    }
}

impl<T: Drop> From<AllocFailed<T>> for SetupError {
    ghost from_gives = { λ _ e. e ≡ OutOfMemory };

    fn from(_: AllocFailed<T>) -> Self {
        SetupError::OutOfMemory
    }
}

impl From<SetupFault> for SetupError {
    ghost from_gives = { λ fault e. e ≡ Refused fault };

    fn from(fault: SetupFault) -> Self {
        SetupError::Refused(fault)
    }
}

/// Where a value stands: its key, and the place of its account from 1, or 0.
#[derive(Clone, Copy, PartialEq, Eq)]
pub struct Spot {
    pub key: SetupKey,
    pub account: u32,
}

impl Spot {
    /// A key in the account at a place from 1, or 0 for a key outside the accounts.
    pub const fn new(key: SetupKey, account: u32) -> Spot
        ensures { result ≡ record { key = key; account = account } }
    {
        Spot { key, account }
    }

    /// The fault of a rule that the value breaks.
    pub fn breaks(self, rule: SetupRule) -> SetupFault
        ensures { result ≡ spot_fault self rule }
    {
        SetupFault {
            key: self.key,
            rule,
            account: self.account,
        }
    }
}
