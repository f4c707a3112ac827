//! The parts of a setup.

use crate::account::Accounts;
use crate::texts::{Numbers, Text};
use otp_hash::Seed;
use request_catalogue::Width;

/// What an operator settles before a run, in any ranges.
#[derive(Drop)]
pub struct SetupParts {
    /// The path of the socket that clients connect to: 1 to 100 printable bytes in a setup.
    pub socket: Text,
    /// The program that is started for each child: 1 to 255 printable bytes in a setup.
    pub launcher: Text,
    /// The folder of the users' files: 1 to 255 printable bytes in a setup.
    pub vault: Text,
    /// The file of the word list: 1 to 255 printable bytes in a setup.
    pub words: Text,
    /// What a client is greeted with: at most 200 printable bytes in a setup.
    pub banner: Text,
    /// What decoys are made of, with the name: an operator who sets it keeps them from being foretold.
    pub salt: Seed,
    pub frames: Width,
    /// How many workers serve beside one another, 1 to 64 in a setup.
    pub workers: u32,
    /// How many connections each worker serves, 1 to 4,096 in a setup.
    pub connections: u32,
    /// How many asks a session may make, 8 to 4,096 in a setup.
    pub requests: u32,
    /// How many denied replies a session may have, 1 to 10 in a setup.
    pub tries: u32,
    /// How long a challenge holds its user, in milliseconds, 1 to 3,600,000 in a setup.
    pub hold: u32,
    /// The numbers of the information that a user may ask for: at most 32 different ones of 1 to
    /// 1,000 in a setup.
    pub info: Numbers,
    pub accounts: Accounts,
}
