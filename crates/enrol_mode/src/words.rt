//! The command line of the mode.

ghost use Rattle.std.specs.Prelude.{◌≡◌, ◌∷◌, IfSome, map, option_map, true};
ghost use Rattle.policy_model.specs.Settings.{is_number};
ghost use Rattle.enrol_mode.specs.Command.{command_parts};
ghost use Rattle.enrol_mode.specs.Words.{enrol_command, sequence_of, uid_of};

use crate::command::EnrolCommand;
use otp_hash::{Seed, algo_named};
use otp_words::read_number;
use request_catalogue::Name;
use text_line::long_of;

/// The greatest number of a user.
const UID_MAX: u32 = 4_294_967_294;

/// Reads a command line: the mode's name, and the arguments after it. `None` exactly where it isn't
/// `enrol NAME UID ALGO N SEED`: `NAME` is one that an account can have, `UID` a number from 1
/// to 4,294,967,294 in decimal digits without a leading zero, `ALGO` `md5` or `sha1`, `N` one to four
/// decimal digits that aren't all 0, and `SEED` 1 to 16 ASCII letters and digits.
pub fn read_enrol_command(mode: &str, further: &[&str]) -> Option<EnrolCommand>
    ensures { option_map command_parts result
        ≡ enrol_command (mode.now ∷ map (λ word. word.now) further.now) }
{
    let [name, uid, algo, number, seed] = further else {
        return None;
    };
    if mode != "enrol" {
        return None;
    }
    let name = Name::of(name.as_bytes())?;
    let seed = Seed::of(seed.as_bytes())?;
    let uid = uid_of(uid)?;
    let number = sequence_of(number)?;
    let algo = algo_named(algo.as_bytes())?;
    Some(EnrolCommand {
        name,
        uid,
        algo,
        number,
        seed,
    })
}

/// The number of a user that a word spells.
fn uid_of(word: &str) -> Option<u32>
    ensures value { result ≡ uid_of word.now }
    ensures within { IfSome result (λ uid. is_number 1 4294967294 uid ≡ true) }
{
    let number = long_of(word.as_bytes())?;
    if number < 1 || number > u64::from(UID_MAX) {
        return None;
    }
    Some(number as u32)
}

/// The number of a first password that a word spells.
fn sequence_of(word: &str) -> Option<u16>
    ensures value { result ≡ sequence_of word.now }
    ensures within { IfSome result (λ number. is_number 1 9999 number ≡ true) }
{
    let number = read_number(word.as_bytes())?;
    if number < 1 {
        return None;
    }
    Some(number)
}
