//! The setup of a run.

ghost use Rattle.std.specs.Prelude.{◌≡◌, ◌≤◌, ◌↔◌, IfOk, IsOk, MatchResult};
ghost use Rattle.policy_model.specs.Settings.{IsInRange, account_number, events_max, plain_settings};

use crate::account::Accounts;
use crate::decoy::plain_salt;
use crate::parts::SetupParts;
use crate::ranges::{passes, position_of};
use crate::texts::{Numbers, Text};
use request_catalogue::{Name, Width};
use std::alloc::{AllocError, Global};
use std::marker::Model;

/// The setup of a run: parts in their ranges, without a name or a user number twice.
#[derive(Drop)]
pub struct Setup {
    parts: SetupParts,
}

impl Model for Setup {
    ghost use Rattle.policy_model.specs.Settings.{Settings};

    ghost Value = { Settings };

    ghost use Rattle.policy_model.specs.Setup.{settings_of, IsSetup};

    ghost view = { settings_of };

    ghost invariant = { IsSetup };
}

impl Setup {
    /// The setup of these parts. Parts that are not in their ranges are given back.
    pub fn of(parts: SetupParts) -> Result<Setup, SetupParts>
        ensures same { MatchResult result (λ setup. setup ≡ parts) (λ back. back ≡ parts) }
        ensures refused { IsOk result ↔ IsInRange parts }
    {
        if passes(&parts) {
            Ok(Setup { parts })
        } else {
            Err(parts)
        }
    }

    /// The setup that `serve` runs where no file is named: one worker that serves one connection,
    /// no accounts and no information.
    pub fn plain(alloc: Global) -> Result<Setup, AllocError>
        ensures { IfOk result (λ setup. setup ≡ plain_settings) }
    {
        Ok(Setup {
            parts: SetupParts {
                socket: Text::of(String::from_str(alloc, "otplogd.sock")?),
                launcher: Text::of(String::from_str(alloc, "otplogd")?),
                vault: Text::of(String::from_str(alloc, "vault")?),
                words: Text::of(String::from_str(alloc, "words")?),
                banner: Text::of(String::new(alloc)),
                salt: plain_salt(),
                frames: Width::Narrow,
                workers: 1,
                connections: 1,
                requests: 64,
                tries: 3,
                hold: 30_000,
                info: Numbers::of(Vec::new(alloc)),
                accounts: Accounts::of(Vec::new(alloc)),
            },
        })
    }

    /// A second setup of the same parts.
    pub fn copy(&self, alloc: Global) -> Result<Setup, AllocError>
        ensures { IfOk result (λ copy. copy ≡ self.now) }
    {
        let parts = &self.parts;
        Ok(Setup {
            parts: SetupParts {
                socket: parts.socket.copy(alloc)?,
                launcher: parts.launcher.copy(alloc)?,
                vault: parts.vault.copy(alloc)?,
                words: parts.words.copy(alloc)?,
                banner: parts.banner.copy(alloc)?,
                salt: parts.salt,
                frames: parts.frames,
                workers: parts.workers,
                connections: parts.connections,
                requests: parts.requests,
                tries: parts.tries,
                hold: parts.hold,
                info: parts.info.copy(alloc)?,
                accounts: parts.accounts.copy(alloc)?,
            },
        })
    }

    /// The parts, which are in their ranges.
    pub fn parts(&self) -> &SetupParts
        ensures value { result.now ≡ self.now }
        ensures in_range { IsInRange self.now }
    {
        &self.parts
    }

    /// The number of the user's account, counted from 0.
    pub fn find(&self, user: &Name) -> Option<u32>
        ensures { result ≡ account_number self.now user.now }
    {
        match position_of(self.parts.accounts.as_slice(), user) {
            None => None,
            Some(number) => Some(number as u32),
        }
    }

    /// The path of the socket that clients connect to.
    pub fn socket(&self) -> &str
        ensures { result.now ≡ self.now.socket }
    {
        self.parts.socket.as_str()
    }

    /// The program that is started for each child.
    pub fn launcher(&self) -> &str
        ensures { result.now ≡ self.now.launcher }
    {
        self.parts.launcher.as_str()
    }

    /// The folder of the users' files.
    pub fn vault(&self) -> &str
        ensures { result.now ≡ self.now.vault }
    {
        self.parts.vault.as_str()
    }

    /// How many workers serve beside one another, 1 to 64.
    pub fn workers(&self) -> u32
        ensures value { result ≡ self.now.workers }
        ensures in_range { IsInRange self.now }
    {
        self.parts.workers
    }

    /// How many connections each worker serves, 1 to 4,096.
    pub fn connections(&self) -> u32
        ensures value { result ≡ self.now.connections }
        ensures in_range { IsInRange self.now }
    {
        self.parts.connections
    }

    /// How many asks a session may make, 8 to 4,096.
    pub fn requests(&self) -> u32
        ensures value { result ≡ self.now.requests }
        ensures in_range { IsInRange self.now }
    {
        self.parts.requests
    }

    /// How many events a run makes at most, over all workers: at most 1,048,576.
    pub fn events_max(&self) -> usize
        ensures value { result ≡ events_max self.now }
        ensures in_range { IsInRange self.now }
    {
        let s = &self.parts;
        s.workers as usize * (s.connections as usize * (s.requests as usize + 3))
    }
}
