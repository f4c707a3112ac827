//! The command line of the mode.

ghost use Rattle.std.specs.Prelude.{◌≡◌, ◌∷◌, map, option_map};
ghost use Rattle.std.specs.Option.{option_copied};
ghost use Rattle.otp_mode.specs.Command.{command_parts};
ghost use Rattle.otp_mode.specs.Words.{otp_command, parts_of};

use otp_hash::{Algo, Seed, algo_named};
use otp_words::read_number;

/// A command `otp ALGO N SEED` or `otp ALGO N SEED WORDS`.
#[derive(Clone, Copy)]
pub struct OtpCommand<'a> {
    /// The algorithm, from the word `md5` or `sha1`.
    pub algo: Algo,
    /// The password's number in its chain, from 0 to 9,999.
    pub number: u16,
    /// The seed of the chain.
    pub seed: Seed,
    /// The name of the word list's file, if one is named.
    pub list: Option<&'a str>,
}

/// Reads a command line: the mode's name, and the arguments after it. `None` exactly where it is
/// neither `otp ALGO N SEED` nor `otp ALGO N SEED WORDS`: `ALGO` is `md5` or `sha1`, `N` one to four
/// decimal digits, and `SEED` 1 to 16 ASCII letters and digits.
pub fn read_otp_command<'a>(mode: &str, further: &[&'a str]) -> Option<OtpCommand<'a>>
    ensures { option_map command_parts result
        ≡ otp_command (mode.now ∷ map (λ word. word.now) further.now) }
{
    match further {
        [algo, number, seed] => command_of(mode, algo, number, seed, None),
        [algo, number, seed, list] => command_of(mode, algo, number, seed, Some(list)),
        _ => None,
    }
}

/// The command of these words.
fn command_of<'a>(
    mode: &str,
    algo: &str,
    number: &str,
    seed: &str,
    list: Option<&'a str>,
) -> Option<OtpCommand<'a>>
    ensures { option_map command_parts result
        ≡ parts_of mode.now algo.now number.now seed.now (option_copied list.entry) }
{
    if mode != "otp" {
        return None;
    }
    let number = read_number(number.as_bytes())?;
    let seed = Seed::of(seed.as_bytes())?;
    let algo = algo_named(algo.as_bytes())?;
    Some(OtpCommand {
        algo,
        number,
        seed,
        list,
    })
}
