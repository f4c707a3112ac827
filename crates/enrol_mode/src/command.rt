//! A command.

ghost use Rattle.std.specs.Prelude.{◌≡◌, true};
ghost use Rattle.policy_model.specs.Settings.{is_number};

use otp_hash::{Algo, Seed};
use request_catalogue::Name;

/// A command `enrol NAME UID ALGO N SEED`.
#[derive(Clone, Copy)]
pub struct EnrolCommand {
    /// The new user's name.
    pub name: Name,
    /// The user's number, from 1 to 4,294,967,294.
    pub uid: u32,
    /// The algorithm, from the word `md5` or `sha1`.
    pub algo: Algo,
    /// The number of the first password in its chain, from 1 to 9,999.
    pub number: u16,
    /// The seed of the chain.
    pub seed: Seed,
    ghost user: { is_number 1 4294967294 uid ≡ true },
    ghost room: { is_number 1 9999 number ≡ true },
}
